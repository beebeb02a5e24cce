// Equations of hints as the program holds them.
ghost use Rattle.std.specs.Prelude.{◌≡◌, [], ◌∷◌, ◌++◌, length, slice_get, OnOk, OnErr};
ghost use Rattle.mt_term.specs.EquationOf.{equation_of, seen_equation};

use crate::terms::Term;
use std::alloc::{AllocError, AllocFailed, Global};
use std::marker::Model;

/// An equation of a hint: the place of a variable, the oldest at 0, and its term.
#[derive(Drop)]
pub struct PlainEq {
    pub place: usize,
    pub term: Term,
}

/// Equations, in order.
#[derive(Drop)]
pub struct PlainEqs {
    items: Vec<PlainEq>,
}

impl Model for PlainEqs {
    ghost use Rattle.std.specs.Prelude.{List, map};
    ghost use Rattle.std.specs.Coded.{coded_list};
    ghost use Rattle.mt_term.specs.States.{Equation};
    ghost use Rattle.mt_term.specs.EquationOf.{equation_of};
    ghost use Rattle.mt_term.specs.StateCode.{equation_code};

    ghost Value = { List Equation };

    ghost coded = { coded_list equation_code };

    ghost view = { λ l. map equation_of l.items.items };
}

impl PlainEqs {
    /// No equation.
    pub fn new(alloc: Global) -> PlainEqs
        ensures { result ≡ [] }
    {
        PlainEqs {
            items: Vec::new(alloc),
        }
    }

    /// Appends an equation.
    pub fn push(&mut self, item: PlainEq) -> Result<(), AllocError>
        ensures ok { OnOk result (self.new ≡ self.old ++ equation_of item ∷ []) }
        ensures err { OnErr result (self.new ≡ self.old) }
    {
        self.items.push(item)?;
        Ok(())
    }

    /// How many there are.
    pub fn len(&self) -> usize
        ensures { result ≡ length self.now }
    {
        self.items.len()
    }

    /// The equation at a place.
    pub fn get(&self, at: usize) -> Option<&PlainEq>
        ensures { seen_equation result ≡ slice_get self.now at }
    {
        self.items.get(at)
    }
}
