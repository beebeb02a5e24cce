// What steps and tacticals do to lists of goals.
ghost use Rattle.std.specs.Prelude.{◌≡◌, [], ◌∷◌, ◌++◌, ◌+◌, ◌<◌, ◌^◌, length, Option, Some, List, ℕ, IfOk};
ghost use Rattle.mt_tiny.specs.Answers.{Answers};
ghost use Rattle.mt_tiny.specs.Goals.{stands_in, numbered, goals_of, taken, picked, opened, any_open, may_focus, dotted, on_goals, acted};

use crate::levels::Located;
use crate::provers::{Prover, ProverStop};
use crate::stops::TinyStop;
use crate::{Goals, OutOfMemory};
use mt_text::{Ledger, Steps};
use std::alloc::Global;

/// The goals without those that are closed.
#[tactic(auto, using(crate::proofs::GoalLists::prover_lists))]
pub fn opened<P: Prover>(alloc: Global, prover: &P, goals: &[usize]) -> Result<Goals, OutOfMemory>
    ensures { IfOk result (λ gs. gs ≡ opened P.rules (P.state_of prover.now) goals.now) }
{
    let mut open = Goals::new(alloc);
    for goal in goals {
        if prover.is_open(*goal) {
            open.push(*goal)?;
        }
    }
    Ok(open)
}

/// Whether one of the goals is open.
#[tactic(auto, using(crate::proofs::GoalLists::prover_lists))]
pub fn any_open<P: Prover>(prover: &P, goals: &[usize]) -> bool
    ensures { result ≡ any_open P.rules (P.state_of prover.now) goals.now }
{
    for goal in goals {
        if prover.is_open(*goal) {
            return true;
        }
    }
    false
}

/// Whether a goal of either list is open.
#[tactic(auto, using(crate::proofs::GoalLists::prover_lists))]
pub fn either_open<P: Prover>(prover: &P, focus: &[usize], pending: &[usize]) -> bool
    ensures { result ≡ any_open P.rules (P.state_of prover.now) (focus.now ++ pending.now) }
{
    any_open(prover, focus) || any_open(prover, pending)
}

// Whether the number stands among these.
#[tactic(auto, using(crate::proofs::GoalLists::plain_lists))]
fn stands_in(number: usize, numbers: &[usize]) -> bool
    ensures { result ≡ stands_in number numbers.now }
{
    for other in numbers {
        if number == *other {
            return true;
        }
    }
    false
}

/// Whether all these goals are open, and none stands twice.
#[tactic(auto, using(crate::proofs::GoalLists::prover_lists))]
pub fn may_focus<P: Prover>(prover: &P, goals: &[usize]) -> bool
    ensures { result ≡ may_focus P.rules (P.state_of prover.now) goals.now }
{
    for (i, goal) in goals.iter().enumerate() {
        if !prover.is_open(*goal) || stands_in(*goal, &goals[i + 1..]) {
            return false;
        }
    }
    true
}

/// The goals at positions from this one on.
#[tactic(auto, using(crate::proofs::GoalLists::plain_lists))]
pub fn numbered(alloc: Global, first: usize, goals: &[usize]) -> Result<Located, OutOfMemory>
    requires { first < 3 }
    ensures { IfOk result (λ p. p ≡ numbered first goals.now) }
{
    let mut placed = Located::new(alloc);
    for (i, goal) in goals.iter().enumerate() {
        placed.push(first + i, *goal)?;
    }
    Ok(placed)
}

/// The goals, without their positions.
#[tactic(auto, using(crate::proofs::GoalLists::plain_lists))]
pub fn all_goals(alloc: Global, placed: &[(usize, usize)]) -> Result<Goals, OutOfMemory>
    ensures { IfOk result (λ gs. gs ≡ goals_of placed.now) }
{
    let mut goals = Goals::new(alloc);
    for (_, goal) in placed {
        goals.push(*goal)?;
    }
    Ok(goals)
}

/// The goals at these positions as named, and the others. `None` exactly where a position is not there or is named twice.
#[tactic(auto, using(crate::proofs::Places::picked_rules))]
pub fn picked(
    alloc: Global,
    positions: &[usize],
    placed: Located,
) -> Result<Option<(Goals, Located)>, OutOfMemory>
    ensures { IfOk result (λ o. o ≡ picked positions.now placed) }
{
    let mut goals = Goals::new(alloc);
    let mut others = placed;
    for position in positions {
        match others.take_at(*position) {
            Some(goal) => goals.push(goal)?,
            None => return Ok(None),
        }
    }
    Ok(Some((goals, others)))
}

/// Focus and pending after `.`.
pub fn dotted<P: Prover>(
    alloc: Global,
    prover: &P,
    focus: &[usize],
    pending: &[usize],
) -> Result<(Goals, Goals), OutOfMemory>
    ensures { IfOk result (λ x. x ≡ dotted P.rules (P.state_of prover.now) focus.now pending.now) }
{
    let open = opened(alloc, prover, focus)?;
    if let [goal, others @ ..] = open.as_slice() {
        let mut next = Goals::from_slice(alloc, others)?;
        next.append(pending)?;
        return Ok((one_goal(alloc, *goal)?, next));
    }
    let waiting = opened(alloc, prover, pending)?;
    if let [goal, others @ ..] = waiting.as_slice() {
        return Ok((one_goal(alloc, *goal)?, Goals::from_slice(alloc, others)?));
    }
    Ok((
        Goals::from_slice(alloc, focus)?,
        Goals::from_slice(alloc, pending)?,
    ))
}

/// One goal alone.
pub fn one_goal(alloc: Global, goal: usize) -> Result<Goals, OutOfMemory>
    ensures { IfOk result (λ gs. gs ≡ goal ∷ []) }
{
    let mut goals = Goals::new(alloc);
    goals.push(goal)?;
    Ok(goals)
}

// An action on each goal that is open at its turn; the new goals one after the other.
#[tactic(auto, using(crate::proofs::Acting::goals_rules))]
fn on_goals<P: Prover, L: Ledger>(
    alloc: Global,
    action: &P::Action,
    goals: &[usize],
    prover: &mut P,
    steps: &mut Steps<L>,
) -> Result<Goals, TinyStop<P::Stop>>
    ensures outcome { Answers (λ new. (P.state_of prover.new, new)) P.cause_of (on_goals P.rules (P.deed_of action.now) goals.now (P.state_of prover.old) (P.allowance prover.old)) (P.allowance prover.new) result }
    ensures cost { steps.new + P.allowance prover.new ≡ steps.old + P.allowance prover.old }
{
    let mut new = Goals::new(alloc);
    for goal in goals {
        if prover.is_open(*goal) {
            match prover.apply(alloc, action, *goal, steps) {
                Ok(more) => new.append(more.as_slice())?,
                Err(ProverStop::Refused(stop)) => return Err(TinyStop::Prover(stop)),
                Err(ProverStop::OutOfMemory) => return Err(TinyStop::OutOfMemory),
            }
        }
    }
    Ok(new)
}

/// An action on the goals in focus.
///
/// # Errors
///
/// `NoGoal` exactly where none is open, and what the prover refuses with.
pub fn act<P: Prover, L: Ledger>(
    alloc: Global,
    action: &P::Action,
    focus: &[usize],
    prover: &mut P,
    steps: &mut Steps<L>,
) -> Result<Goals, TinyStop<P::Stop>>
    ensures outcome { Answers (λ new. (P.state_of prover.new, new)) P.cause_of (acted P.rules (P.deed_of action.now) (P.state_of prover.old) focus.now (P.allowance prover.old)) (P.allowance prover.new) result }
    ensures cost { steps.new + P.allowance prover.new ≡ steps.old + P.allowance prover.old }
{
    if !any_open(prover, focus) {
        return Err(TinyStop::NoGoal);
    }
    on_goals(alloc, action, focus, prover, steps)
}
