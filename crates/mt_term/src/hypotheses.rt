// Contexts of metavariables and of refusals, as the program holds them.
ghost use Rattle.std.specs.Prelude.{◌≡◌, [], ◌∷◌, ◌++◌, length, slice_get, OnOk, OnErr};
ghost use Rattle.mt_term.specs.HypothesisOf.{hypothesis_of, seen_hypothesis};

use crate::names::Name;
use crate::terms::Term;
use std::alloc::{AllocError, AllocFailed, Global};
use std::marker::Model;

/// A hypothesis: its name and its type.
#[derive(Drop)]
pub struct Hyp {
    pub name: Name,
    pub ty: Term,
}

/// Hypotheses, oldest first.
#[derive(Drop)]
pub struct Hyps {
    items: Vec<Hyp>,
}

impl Model for Hyps {
    ghost use Rattle.std.specs.Prelude.{List, map};
    ghost use Rattle.std.specs.Coded.{coded_list};
    ghost use Rattle.mt_term.specs.Declarations.{Hypothesis};
    ghost use Rattle.mt_term.specs.HypothesisOf.{hypothesis_of};
    ghost use Rattle.mt_term.specs.DeclarationCode.{hypothesis_code};

    ghost Value = { List Hypothesis };

    ghost coded = { coded_list hypothesis_code };

    ghost view = { λ h. map hypothesis_of h.items.items };
}

impl Hyps {
    /// No hypothesis.
    pub fn new(alloc: Global) -> Hyps
        ensures { result ≡ [] }
    {
        Hyps {
            items: Vec::new(alloc),
        }
    }

    /// Appends the newest hypothesis.
    pub fn push(&mut self, hyp: Hyp) -> Result<(), AllocError>
        ensures ok { OnOk result (self.new ≡ self.old ++ hypothesis_of hyp ∷ []) }
        ensures err { OnErr result (self.new ≡ self.old) }
    {
        self.items.push(hyp)?;
        Ok(())
    }

    /// How many hypotheses there are.
    pub fn len(&self) -> usize
        ensures { result ≡ length self.now }
    {
        self.items.len()
    }

    /// The hypothesis at a place, the oldest at 0.
    pub fn get(&self, at: usize) -> Option<&Hyp>
        ensures { seen_hypothesis result ≡ slice_get self.now at }
    {
        self.items.get(at)
    }
}
