//! The tinycals: single steps of a structured proof, on a stack of levels and over any prover.
#![tactic(auto)]

mod levels;
mod lists;
mod provers;
mod stack;
mod steps;
mod stops;

ghost use Rattle.std.specs.Prelude.{◌≡◌, ◌++◌, [], ◌∷◌, IfOk, length, slice_get, OnOk, OnErr};

pub use levels::{Level, Located, Tag};
pub use lists::{
    act, all_goals, any_open, dotted, either_open, may_focus, numbered, one_goal, opened, picked,
};
pub use provers::{Prover, ProverStop};
pub use stack::{Levels, Stack};
pub use std::alloc::AllocError as OutOfMemory;
use std::alloc::{AllocError, Global};
use std::marker::Model;
pub use stops::TinyStop;

/// Numbers of goals or of positions, seen as the list of them.
#[derive(Drop, Debug)]
pub struct Goals {
    items: Vec<usize>,
}

impl Model for Goals {
    ghost use Rattle.std.specs.Prelude.{ℕ, List};

    ghost Value = { List ℕ };

    ghost view = { λ g. g.items.items };
}

impl Goals {
    /// No numbers.
    pub fn new(alloc: Global) -> Goals
        ensures { result ≡ [] }
    {
        Goals {
            items: Vec::new(alloc),
        }
    }

    /// The numbers of a slice.
    pub fn from_slice(alloc: Global, goals: &[usize]) -> Result<Goals, AllocError>
        ensures { IfOk result (λ gs. gs ≡ goals.now) }
    {
        Ok(Goals {
            items: Vec::from_slice(alloc, goals)?,
        })
    }

    /// Appends a number.
    pub fn push(&mut self, goal: usize) -> Result<(), AllocError>
        ensures ok { OnOk result (self.new ≡ self.old ++ goal ∷ []) }
        ensures err { OnErr result (self.new ≡ self.old) }
    {
        self.items.push(goal)?;
        Ok(())
    }

    /// Appends the numbers of a slice.
    pub fn append(&mut self, goals: &[usize]) -> Result<(), AllocError>
        ensures ok { OnOk result (self.new ≡ self.old ++ goals.now) }
        ensures err { OnErr result (self.new ≡ self.old) }
    {
        self.items.extend_from_slice(goals)?;
        Ok(())
    }

    /// How many numbers there are.
    pub fn len(&self) -> usize
        ensures { result ≡ length self.now }
    {
        self.items.len()
    }

    /// The number at a place.
    pub fn get(&self, at: usize) -> Option<usize>
        ensures { result ≡ slice_get self.now at }
    {
        self.items.get(at).copied()
    }

    /// The numbers as a slice.
    pub fn as_slice(&self) -> &[usize]
        ensures { result.now ≡ self.now }
    {
        &self.items
    }
}

/// A single step. `Positions` are `i,j:`, and `Wildcard` is `*:`.
#[derive(Drop)]
pub enum Tiny<T> {
    Action(T),
    Semicolon,
    Dot,
    BranchOpen,
    Bar,
    BranchClose,
    Positions(Goals),
    Wildcard,
    Focus(Goals),
    Unfocus,
    Skip,
}
