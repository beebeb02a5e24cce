// What names of an environment stand for.
ghost use Rattle.std.specs.Prelude.{◌≡◌};
ghost use Rattle.mt_resolver.specs.TableOf.{tree_meant};
ghost use Rattle.mt_term.specs.TreeOf.{tree_of};

use mt_term::Term;

/// What a name stands for, by the number of the entry.
#[derive(Clone, Copy, Debug)]
pub enum Meaning {
    /// An axiom, a definition or a recursive function.
    Constant(usize),
    /// An inductive type.
    Type(usize),
    /// A constructor of an inductive type.
    Constructor(usize, usize),
}

impl Meaning {
    /// The term that the name stands for.
    pub fn term(self) -> Term
        ensures { tree_of result ≡ tree_meant self }
    {
        match self {
            Meaning::Constant(n) => Term::Const(n),
            Meaning::Type(n) => Term::Ind(n),
            Meaning::Constructor(n, k) => Term::Con(n, k),
        }
    }
}
