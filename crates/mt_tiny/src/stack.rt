// Stacks of levels.
ghost use Rattle.std.specs.Prelude.{◌≡◌, ◌+◌, [], ◌∷◌, length, slice_get, option_copied, IfOk, OnErr};
ghost use Rattle.mt_tiny.specs.Answers.{Answers, HasMemory, TakesNoMemory};
ghost use Rattle.mt_tiny.specs.Stepping.{stack, bottom, with_lists, step};
ghost use Rattle.mt_tiny.specs.Stacks.{listed};
ghost use Rattle.mt_tiny.specs.TinyOf.{tiny_of};

use crate::levels::{Level, Located, Tag};
use crate::lists::one_goal;
use crate::provers::Prover;
use crate::steps::take_step;
use crate::stops::TinyStop;
use crate::{Goals, OutOfMemory, Tiny};
use mt_text::{Ledger, Steps};
use std::alloc::Global;
use std::marker::Model;

/// The levels of a stack, seen as their list, the top last. There is one at least.
#[derive(Drop)]
pub struct Levels {
    below: Vec<Level>,
    top: Level,
}

impl Model for Levels {
    ghost use Rattle.std.specs.Prelude.{List, [], ◌∷◌, ◌++◌};
    ghost use Rattle.mt_tiny.specs.declared.levels.Level.{Level};

    ghost Value = { List Level };

    ghost view = { λ s. s.below.items ++ s.top ∷ [] };
}

impl Levels {
    /// How many levels there are.
    pub fn len(&self) -> usize
        ensures { result ≡ length self.now }
    {
        self.below.len() + 1
    }

    /// The level at a place, from the lowest on.
    pub fn get(&self, at: usize) -> Option<&Level>
        ensures { option_copied result ≡ slice_get self.now at }
    {
        if at == self.below.len() {
            Some(&self.top)
        } else {
            self.below.get(at)
        }
    }
}

/// A stack of levels, seen as its top and the levels below, nearest first.
#[derive(Drop)]
pub struct Stack {
    levels: Levels,
}

impl Model for Stack {
    ghost use Rattle.mt_tiny.specs.Stepping.{Stacked};
    ghost use Rattle.mt_tiny.specs.Stacks.{stack_of};

    ghost Value = { Stacked };

    ghost view = { λ s. stack_of s.levels };
}

impl Stack {
    /// One lowest level with this goal in focus.
    pub fn new(alloc: Global, goal: usize) -> Result<Stack, OutOfMemory>
        ensures { IfOk result (λ s. s ≡ bottom (goal ∷ [])) }
    {
        Ok(Stack {
            levels: Levels {
                below: Vec::new(alloc),
                top: Level {
                    focus: one_goal(alloc, goal)?,
                    pending: Goals::new(alloc),
                    done: Goals::new(alloc),
                    left: Located::new(alloc),
                    fresh: 0,
                    tag: Tag::Bottom,
                },
            },
        })
    }

    /// The levels. It takes no memory.
    pub fn levels(&self) -> &Levels
        ensures { result.now ≡ listed self.now }
    {
        let levels = &self.levels;
        let _top = &levels.top;
        levels
    }

    /// An equal stack.
    pub fn copy(&self, alloc: Global) -> Result<Stack, OutOfMemory>
        ensures { IfOk result (λ s. s ≡ self.now) }
    {
        let levels = &self.levels;
        let mut below = Vec::new(alloc);
        for level in &levels.below {
            below.push(level.copy(alloc)?)?;
        }
        let top = levels.top.copy(alloc)?;
        Ok(Stack {
            levels: Levels { below, top },
        })
    }

    /// Puts focus and pending into the top level, whose `fresh` becomes 0. It takes no memory.
    pub fn set_top(&mut self, focus: Goals, pending: Goals)
        ensures { self.new ≡ stack (with_lists self.old.top (focus, pending)) self.old.below }
    {
        let levels = &mut self.levels;
        levels.top.focus = focus;
        levels.top.pending = pending;
        levels.top.fresh = 0;
    }

    /// One step. `;`, `skip` and `unfocus` take no memory.
    ///
    /// # Errors
    ///
    /// Each refusal comes exactly where the written step gives it. After each the stack is as before; what the prover changed is the caller's to take back.
    pub fn step<P: Prover, L: Ledger>(
        &mut self,
        alloc: Global,
        tiny: &Tiny<P::Action>,
        prover: &mut P,
        steps: &mut Steps<L>,
    ) -> Result<(), TinyStop<P::Stop>>
        ensures outcome { Answers (λ _. (P.state_of prover.new, self.new)) P.cause_of (step P.rules (tiny_of P.deed_of tiny.now) (P.state_of prover.old) self.old (P.allowance prover.old)) (P.allowance prover.new) result }
        ensures unchanged { OnErr result (self.new ≡ self.old) }
        ensures memory { TakesNoMemory tiny.now → HasMemory result }
        ensures cost { steps.new + P.allowance prover.new ≡ steps.old + P.allowance prover.old }
    {
        let levels = &mut self.levels;
        take_step(
            alloc,
            &mut levels.below,
            &mut levels.top,
            tiny,
            prover,
            steps,
        )
    }
}
