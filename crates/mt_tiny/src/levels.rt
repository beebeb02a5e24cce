// Levels of a stack.
ghost use Rattle.std.specs.Prelude.{◌≡◌, ◌++◌, [], ◌∷◌, ℕ, IfOk, MatchOption, None, Some, OnOk, OnErr};
ghost use Rattle.mt_tiny.specs.Goals.{taken};
ghost use Rattle.mt_tiny.specs.Places.{IsPlaceOf};

use crate::{Goals, OutOfMemory};
use std::alloc::Global;
use std::marker::Model;

/// Goals at positions, seen as the list of pairs of position and goal.
#[derive(Drop, Debug)]
pub struct Located {
    items: Vec<(usize, usize)>,
}

impl Model for Located {
    ghost use Rattle.std.specs.Prelude.{ℕ, List};

    ghost Value = { List (ℕ × ℕ) };

    ghost view = { λ p. p.items.items };
}

impl Located {
    /// No goals.
    pub fn new(alloc: Global) -> Located
        ensures { result ≡ [] }
    {
        Located {
            items: Vec::new(alloc),
        }
    }

    /// The goals of a slice.
    pub fn from_slice(alloc: Global, items: &[(usize, usize)]) -> Result<Located, OutOfMemory>
        ensures { IfOk result (λ p. p ≡ items.now) }
    {
        Ok(Located {
            items: Vec::from_slice(alloc, items)?,
        })
    }

    /// Appends a goal at its position.
    pub fn push(&mut self, position: usize, goal: usize) -> Result<(), OutOfMemory>
        ensures ok { OnOk result (self.new ≡ self.old ++ (position, goal) ∷ []) }
        ensures err { OnErr result (self.new ≡ self.old) }
    {
        self.items.push((position, goal))?;
        Ok(())
    }

    /// Appends the goals of a slice.
    pub fn append(&mut self, items: &[(usize, usize)]) -> Result<(), OutOfMemory>
        ensures ok { OnOk result (self.new ≡ self.old ++ items.now) }
        ensures err { OnErr result (self.new ≡ self.old) }
    {
        self.items.extend_from_slice(items)?;
        Ok(())
    }

    /// Takes away the goal at a position. `None` exactly where there is none, and then nothing changes.
    pub fn take_at(&mut self, position: usize) -> Option<usize>
        ensures { MatchOption result ((taken position self.old ≡ None) × (self.new ≡ self.old)) (λ g. taken position self.old ≡ Some (g, self.new)) }
    {
        let place = place_of(position, &self.items)?;
        let (_, goal) = self.items.remove(place);
        Some(goal)
    }

    /// The goals with their positions, as a slice.
    pub fn as_slice(&self) -> &[(usize, usize)]
        ensures { result.now ≡ self.now }
    {
        &self.items
    }
}

// The first place that has this position.
#[tactic(auto, using(crate::proofs::Places::place_rules))]
fn place_of(position: usize, items: &[(usize, usize)]) -> Option<usize>
    ensures { IsPlaceOf position items.now result }
{
    for (i, item) in items.iter().enumerate() {
        if item.0 == position {
            return Some(i);
        }
    }
    None
}

/// What a level is: the lowest one, one of `[`, or one of `focus`.
#[derive(Clone, Copy, Debug, PartialEq, Eq)]
pub enum Tag {
    Bottom,
    Branch,
    Focus,
}

/// The goals in focus, those that wait, those of the branches before, and those that are left for the next branches.
/// `fresh` is the position of the goal in focus just after `[` or `|`, else 0.
#[derive(Drop, Debug)]
pub struct Level {
    pub focus: Goals,
    pub pending: Goals,
    pub done: Goals,
    pub left: Located,
    pub fresh: usize,
    pub tag: Tag,
}

impl Level {
    /// An equal level.
    pub fn copy(&self, alloc: Global) -> Result<Level, OutOfMemory>
        ensures { IfOk result (λ l. l ≡ self.now) }
    {
        Ok(Level {
            focus: Goals::from_slice(alloc, self.focus.as_slice())?,
            pending: Goals::from_slice(alloc, self.pending.as_slice())?,
            done: Goals::from_slice(alloc, self.done.as_slice())?,
            left: Located::from_slice(alloc, self.left.as_slice())?,
            fresh: self.fresh,
            tag: self.tag,
        })
    }
}
