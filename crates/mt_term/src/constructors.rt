// Constructors of inductive types, as the program holds them.
ghost use Rattle.std.specs.Prelude.{◌≡◌, [], ◌∷◌, ◌++◌, length, slice_get, OnOk, OnErr};
ghost use Rattle.mt_term.specs.ConstructorOf.{constructor_of, seen_constructor};

use crate::names::Name;
use crate::terms::Term;
use std::alloc::{AllocError, AllocFailed, Global};
use std::marker::Model;

/// A constructor of an inductive type: its name and its closed type.
#[derive(Drop)]
pub struct Constructor {
    pub name: Name,
    pub ty: Term,
}

/// Constructors, in order.
#[derive(Drop)]
pub struct Cons {
    items: Vec<Constructor>,
}

impl Model for Cons {
    ghost use Rattle.std.specs.Prelude.{List, map};
    ghost use Rattle.std.specs.Coded.{coded_list};
    ghost use Rattle.mt_term.specs.Declarations.{Constructor};
    ghost use Rattle.mt_term.specs.ConstructorOf.{constructor_of};
    ghost use Rattle.mt_term.specs.DeclarationCode.{constructor_code};

    ghost Value = { List Constructor };

    ghost coded = { coded_list constructor_code };

    ghost view = { λ c. map constructor_of c.items.items };
}

impl Cons {
    /// No constructor.
    pub fn new(alloc: Global) -> Cons
        ensures { result ≡ [] }
    {
        Cons {
            items: Vec::new(alloc),
        }
    }

    /// Appends a constructor.
    pub fn push(&mut self, constructor: Constructor) -> Result<(), AllocError>
        ensures ok { OnOk result (self.new ≡ self.old ++ constructor_of constructor ∷ []) }
        ensures err { OnErr result (self.new ≡ self.old) }
    {
        self.items.push(constructor)?;
        Ok(())
    }

    /// How many constructors there are.
    pub fn len(&self) -> usize
        ensures { result ≡ length self.now }
    {
        self.items.len()
    }

    /// The constructor of a number.
    pub fn get(&self, at: usize) -> Option<&Constructor>
        ensures { seen_constructor result ≡ slice_get self.now at }
    {
        self.items.get(at)
    }
}
