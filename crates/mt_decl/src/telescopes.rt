// Terms closed over a context.
ghost use Rattle.std.specs.Prelude.{◌≡◌, length, IfOk};
ghost use Rattle.mt_decl.specs.TelescopeOf.{hypotheses_of};
ghost use Rattle.mt_decl.specs.Telescopes.{abstracted, generalized, result_sort};
ghost use Rattle.mt_term.specs.TreeOf.{tree_of};

use mt_term::{Name, OutOfMemory, Sort, Term, copy, deeper};
use std::alloc::Global;

/// Names with their types, the innermost first.
#[derive(Clone, Copy)]
pub enum Telescope<'a> {
    Empty,
    More(&'a Name, &'a Term, &'a Telescope<'a>),
}

/// A term abstracted over a telescope.
pub fn abstraction_over(
    alloc: Global,
    telescope: &Telescope<'_>,
    t: Term,
    depth_left: usize,
) -> Result<Term, OutOfMemory>
    ensures { IfOk result (λ u. tree_of u ≡ abstracted (hypotheses_of telescope.now) (tree_of t)) }
{
    let depth_left = deeper(depth_left)?;
    match telescope {
        Telescope::Empty => Ok(t),
        Telescope::More(name, ty, rest) => {
            let name = (*name).clone()?;
            let ty = Box::new(alloc, copy(alloc, ty)?)?;
            let body = Box::new(alloc, t)?;
            abstraction_over(alloc, rest, Term::Lam(name, ty, body), depth_left)
        }
    }
}

/// The product over a telescope.
pub fn generalization_over(
    alloc: Global,
    telescope: &Telescope<'_>,
    t: Term,
    depth_left: usize,
) -> Result<Term, OutOfMemory>
    ensures { IfOk result (λ u. tree_of u ≡ generalized (hypotheses_of telescope.now) (tree_of t)) }
{
    let depth_left = deeper(depth_left)?;
    match telescope {
        Telescope::Empty => Ok(t),
        Telescope::More(name, ty, rest) => {
            let name = (*name).clone()?;
            let ty = Box::new(alloc, copy(alloc, ty)?)?;
            let codomain = Box::new(alloc, t)?;
            generalization_over(alloc, rest, Term::Prod(name, ty, codomain), depth_left)
        }
    }
}

/// The sort that ends an arity, which is products and a sort as it stands.
pub fn result_sort(t: &Term, depth_left: usize) -> Result<Option<Sort>, OutOfMemory>
    ensures { IfOk result (λ o. o ≡ result_sort (tree_of t.now)) }
{
    let depth_left = deeper(depth_left)?;
    match t {
        Term::Sort(s) => Ok(Some(s.clone()?)),
        Term::Prod(_, _, b) => result_sort(b, depth_left),
        Term::Var(_)
        | Term::Lam(_, _, _)
        | Term::App(_, _)
        | Term::Const(_)
        | Term::Ind(_)
        | Term::Con(_, _)
        | Term::Match(_, _, _, _)
        | Term::Meta(_, _) => Ok(None),
    }
}

/// How many names a telescope has.
pub fn count(telescope: &Telescope<'_>, depth_left: usize) -> Result<usize, OutOfMemory>
    ensures { IfOk result (λ n. n ≡ length (hypotheses_of telescope.now)) }
{
    let depth_left = deeper(depth_left)?;
    match telescope {
        Telescope::Empty => Ok(0),
        Telescope::More(_, _, rest) => count(rest, depth_left)?.checked_add(1).ok_or(OutOfMemory),
    }
}
