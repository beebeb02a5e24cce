// Environments as the program holds them.
ghost use Rattle.std.specs.Prelude.{◌≡◌, ℕ, [], ◌∷◌, ◌++◌, length, slice_get, OnOk, OnErr};
ghost use Rattle.mt_term.specs.Seen.{seen};

use crate::entries::Entries;
use crate::names::Names;
use std::alloc::{AllocError, AllocFailed, Global};
use std::marker::Model;

/// Constraints on universes: the first name's number of each pair is below the second's.
#[derive(Drop, Debug)]
pub struct Pairs {
    items: Vec<(usize, usize)>,
}

impl Model for Pairs {
    ghost use Rattle.std.specs.Prelude.{ℕ, List};

    ghost Value = { List (ℕ × ℕ) };

    ghost view = { λ p. p.items.items };
}

impl Pairs {
    /// No constraint.
    pub fn new(alloc: Global) -> Pairs
        ensures { result ≡ [] }
    {
        Pairs {
            items: Vec::new(alloc),
        }
    }

    /// Appends a constraint.
    pub fn push(&mut self, pair: (usize, usize)) -> Result<(), AllocError>
        ensures ok { OnOk result (self.new ≡ self.old ++ pair ∷ []) }
        ensures err { OnErr result (self.new ≡ self.old) }
    {
        self.items.push(pair)?;
        Ok(())
    }

    /// How many constraints there are.
    pub fn len(&self) -> usize
        ensures { result ≡ length self.now }
    {
        self.items.len()
    }

    /// The constraint at a place.
    pub fn get(&self, at: usize) -> Option<&(usize, usize)>
        ensures { seen result ≡ slice_get self.now at }
    {
        self.items.get(at)
    }
}

/// An environment: entries, the names of its universes and the constraints on them.
#[derive(Drop)]
pub struct PlainEnv {
    pub entries: Entries,
    pub names: Names,
    pub below: Pairs,
}
