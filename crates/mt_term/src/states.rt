// States of a script as the program holds them.
ghost use Rattle.std.specs.Prelude.{◌≡◌, [], ◌∷◌, ◌++◌, length, slice_get, OnOk, OnErr};
ghost use Rattle.mt_term.specs.Seen.{seen};

use crate::environment::PlainEnv;
use crate::names::Name;
use crate::notes::Notes;
use crate::stores::PlainStore;
use crate::terms::Term;
use std::alloc::{AllocError, AllocFailed, Global};
use std::marker::Model;

/// Goals in order, each with its number and whether it is in focus.
#[derive(Drop, Debug)]
pub struct GoalMarks {
    items: Vec<(usize, bool)>,
}

impl Model for GoalMarks {
    ghost use Rattle.std.specs.Prelude.{ℕ, Bool, List};

    ghost Value = { List (ℕ × Bool) };

    ghost view = { λ g. g.items.items };
}

impl GoalMarks {
    /// No goal.
    pub fn new(alloc: Global) -> GoalMarks
        ensures { result ≡ [] }
    {
        GoalMarks {
            items: Vec::new(alloc),
        }
    }

    /// Appends a goal.
    pub fn push(&mut self, mark: (usize, bool)) -> Result<(), AllocError>
        ensures ok { OnOk result (self.new ≡ self.old ++ mark ∷ []) }
        ensures err { OnErr result (self.new ≡ self.old) }
    {
        self.items.push(mark)?;
        Ok(())
    }

    /// How many goals there are.
    pub fn len(&self) -> usize
        ensures { result ≡ length self.now }
    {
        self.items.len()
    }

    /// The goal at a place.
    pub fn get(&self, at: usize) -> Option<&(usize, bool)>
        ensures { seen result ≡ slice_get self.now at }
    {
        self.items.get(at)
    }
}

/// An open proof: its name, its statement, its first metavariable and its goals.
#[derive(Drop)]
pub struct PlainProof {
    pub name: Name,
    pub ty: Term,
    pub root: usize,
    pub goals: GoalMarks,
}

/// A state: what is accepted, the store, the open proof where there is one, how many units were
/// accepted and where the last one ends.
#[derive(Drop)]
pub struct PlainState {
    pub env: PlainEnv,
    pub store: PlainStore,
    pub proof: Option<PlainProof>,
    pub units: usize,
    pub place: usize,
    pub notes: Notes,
}
