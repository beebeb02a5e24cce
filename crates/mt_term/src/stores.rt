// Metavariables and stores as the program holds them.
ghost use Rattle.std.specs.Prelude.{◌≡◌, [], ◌∷◌, ◌++◌, length, slice_get, OnOk, OnErr};
ghost use Rattle.mt_term.specs.MetaOf.{metavariable_of, seen_metavariable};

use crate::hypotheses::Hyps;
use crate::terms::Term;
use std::alloc::{AllocError, AllocFailed, Global};
use std::marker::Model;

/// A metavariable: its context, its type, and its body where it has one.
#[derive(Drop)]
pub struct PlainMeta {
    pub context: Hyps,
    pub ty: Term,
    pub body: Option<Term>,
}

/// Metavariables, by their numbers.
#[derive(Drop)]
pub struct Metas {
    items: Vec<PlainMeta>,
}

impl Model for Metas {
    ghost use Rattle.std.specs.Prelude.{List, map};
    ghost use Rattle.std.specs.Coded.{coded_list};
    ghost use Rattle.mt_term.specs.States.{Metavariable};
    ghost use Rattle.mt_term.specs.MetaOf.{metavariable_of};
    ghost use Rattle.mt_term.specs.StateCode.{metavariable_code};

    ghost Value = { List Metavariable };

    ghost coded = { coded_list metavariable_code };

    ghost view = { λ l. map metavariable_of l.items.items };
}

impl Metas {
    /// No metavariable.
    pub fn new(alloc: Global) -> Metas
        ensures { result ≡ [] }
    {
        Metas {
            items: Vec::new(alloc),
        }
    }

    /// Appends a metavariable, whose number is the number of those before it.
    pub fn push(&mut self, item: PlainMeta) -> Result<(), AllocError>
        ensures ok { OnOk result (self.new ≡ self.old ++ metavariable_of item ∷ []) }
        ensures err { OnErr result (self.new ≡ self.old) }
    {
        self.items.push(item)?;
        Ok(())
    }

    /// How many there are.
    pub fn len(&self) -> usize
        ensures { result ≡ length self.now }
    {
        self.items.len()
    }

    /// The metavariable of a number.
    pub fn get(&self, at: usize) -> Option<&PlainMeta>
        ensures { seen_metavariable result ≡ slice_get self.now at }
    {
        self.items.get(at)
    }
}

/// A store: the map from numbers to metavariables.
#[derive(Drop)]
pub struct PlainStore {
    pub metas: Metas,
}
