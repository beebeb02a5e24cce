// A small prover.
ghost use Rattle.std.specs.Prelude.{◌≡◌, ◌+◌, ◌<◌, ◌≤◌, ◌^◌, ℕ, IfOk};
ghost use Rattle.mt_tiny.specs.Answers.{ProverAnswers};
ghost use Rattle.mt_tactical_tests.specs.Small.{SmallState, from_on, with_other, small};
ghost use Rattle.mt_tactical_tests.specs.declared.prover.SmallStop.{SmallStop};
ghost use Rattle.mt_tactical_tests.specs.SmallLaws.{small-leaves_no_more, small-keeps_closed, small-succeeds_on};

use mt_text::{Ledger, Steps};
use mt_tiny::{Goals, OutOfMemory, Prover, ProverStop};
use std::alloc::Global;

/// Why the small prover stops an action.
#[derive(Clone, Copy, Debug, PartialEq, Eq)]
pub enum SmallStop {
    Refused,
    Spent,
}

/// How many goals were made, which of them are closed, and the allowance that is left.
#[derive(Drop)]
pub struct SmallProver {
    pub made: usize,
    pub closed: Goals,
    pub left: u64,
}

// The goals that an action closes: its own and, if it is not 0, another.
fn with_other(
    alloc: Global,
    goal: usize,
    other: usize,
    closed: &Goals,
) -> Result<Goals, OutOfMemory>
    ensures { IfOk result (λ gs. gs ≡ with_other goal other closed.now) }
{
    let mut goals = Goals::new(alloc);
    if other > 0 {
        goals.push(other)?;
    }
    goals.push(goal)?;
    goals.append(closed.as_slice())?;
    Ok(goals)
}

// Numbers from this one on.
#[tactic(auto, using(crate::proofs::Numbers::from_on_rules))]
fn from_on(alloc: Global, first: usize, count: usize) -> Result<Goals, OutOfMemory>
    requires { first + count < 2 ^ 64 }
    ensures { IfOk result (λ gs. gs ≡ from_on first count) }
{
    let mut goals = Goals::new(alloc);
    for i in 0..count {
        goals.push(first + i)?;
    }
    Ok(goals)
}

// One tick for each charge.
fn pay<L: Ledger>(left: &mut u64, cost: u64, steps: &mut Steps<L>)
    requires { cost ≤ left.old }
    ensures left { left.new + cost ≡ left.old }
    ensures cost { steps.new ≡ steps.old + cost }
{
    let mut paid = 0;
    while paid < cost {
        *left -= 1;
        steps.tick();
        paid += 1;
    }
}

impl Prover for SmallProver {
    type Action = usize;

    type Stop = SmallStop;

    ghost State = { SmallState };

    ghost Deed = { ℕ };

    ghost Cause = { SmallStop };

    ghost state_of = { λ p. (p.made, p.closed) };

    ghost allowance = { λ p. p.left };

    ghost deed_of = { λ a. a };

    ghost cause_of = { λ c. c };

    ghost rules = { small };

    fn is_open(&self, goal: usize) -> bool {
        let is_closed = self.closed.as_slice().contains(&goal);
        goal < self.made && !is_closed
    }

    fn apply<L: Ledger>(
        &mut self,
        alloc: Global,
        action: &usize,
        goal: usize,
        steps: &mut Steps<L>,
    ) -> Result<Goals, ProverStop<SmallStop>> {
        let cost = (*action % 10) as u64;
        if cost == 9 || self.made >= 1_000 {
            return Err(ProverStop::Refused(SmallStop::Refused));
        }
        if cost > self.left {
            let all = self.left;
            pay(&mut self.left, all, steps);
            return Err(ProverStop::Refused(SmallStop::Spent));
        }
        let count = *action / 10 % 10;
        let new = from_on(alloc, self.made, count)?;
        let closed = with_other(alloc, goal, *action / 100, &self.closed)?;
        pay(&mut self.left, cost, steps);
        self.closed = closed;
        self.made += count;
        Ok(new)
    }

    ghost leaves_no_more = { small-leaves_no_more };

    ghost keeps_closed = { small-keeps_closed };

    ghost succeeds_on = { small-succeeds_on };
}
