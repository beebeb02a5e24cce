// Universe expressions and sorts.
ghost use Rattle.std.specs.Prelude.{◌≡◌, [], ◌∷◌, ◌++◌, length, slice_get, IfOk, OnOk, OnErr};

use std::alloc::{AllocError, AllocFailed, Global};
use std::clone::Clone;
use std::marker::Model;

/// A universe name's number, with an offset.
#[derive(Clone, Copy, Debug, PartialEq, Eq)]
pub struct Atom {
    pub name: usize,
    pub offset: u32,
}

/// Atoms, in order.
#[derive(Drop, Debug)]
pub struct Atoms {
    items: Vec<Atom>,
}

impl Model for Atoms {
    ghost use Rattle.std.specs.Prelude.{List};
    ghost use Rattle.mt_term.specs.declared.universes.Atom.{Atom};

    ghost Value = { List Atom };

    ghost view = { λ a. a.items.items };
}

impl Atoms {
    /// No atoms.
    pub fn new(alloc: Global) -> Atoms
        ensures { result ≡ [] }
    {
        Atoms {
            items: Vec::new(alloc),
        }
    }

    /// These atoms.
    pub fn from_vec(items: Vec<Atom>) -> Atoms
        ensures { result ≡ items.items }
    {
        Atoms { items }
    }

    /// Appends an atom.
    pub fn push(&mut self, atom: Atom) -> Result<(), AllocError>
        ensures ok { OnOk result (self.new ≡ self.old ++ atom ∷ []) }
        ensures err { OnErr result (self.new ≡ self.old) }
    {
        self.items.push(atom)?;
        Ok(())
    }

    /// How many atoms there are.
    pub fn len(&self) -> usize
        ensures { result ≡ length self.now }
    {
        self.items.len()
    }

    /// The atoms as a slice.
    pub fn as_slice(&self) -> &[Atom]
        ensures { result.now ≡ self.now }
    {
        &self.items
    }
}

impl Clone for Atoms {
    fn clone(&self) -> Result<Atoms, AllocError>
        ensures { IfOk result (λ a. a ≡ self.now) }
    {
        Ok(Atoms {
            items: self.items.clone()?,
        })
    }
}

/// The maximum of `base` and of each name's number plus its offset.
#[derive(Drop, Debug)]
pub struct UnivExpr {
    pub base: u32,
    pub atoms: Atoms,
}

impl Clone for UnivExpr {
    fn clone(&self) -> Result<UnivExpr, AllocError>
        ensures { IfOk result (λ u. u ≡ self.now) }
    {
        Ok(UnivExpr {
            base: self.base,
            atoms: self.atoms.clone()?,
        })
    }
}

/// `Prop`, which is impredicative, or `Type[U]`.
#[derive(Drop, Debug)]
pub enum Sort {
    Prop,
    Typ(UnivExpr),
}

impl Clone for Sort {
    fn clone(&self) -> Result<Sort, AllocError>
        ensures { IfOk result (λ s. s ≡ self.now) }
    {
        match self {
            Sort::Prop => Ok(Sort::Prop),
            Sort::Typ(u) => Ok(Sort::Typ(u.clone()?)),
        }
    }
}
