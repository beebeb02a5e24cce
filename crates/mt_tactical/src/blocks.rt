// The meaning of closed tacticals.
ghost use Rattle.std.specs.Prelude.{◌≡◌, ◌+◌, [], IfOk};
ghost use Rattle.mt_tactical.specs.BlockAnswers.{BlockAnswers};
ghost use Rattle.mt_tactical.specs.Meaning.{first_place, chosen, signed, meaning, item, branches};
ghost use Rattle.mt_tactical.specs.TacticalOf.{sequence_of, step_of, choices_of};
ghost use Rattle.mt_tactical.specs.Tacticals.{Action, Dot, Branches, Focus};

use crate::stops::BlockStop;
use crate::{Pick, TacBranch, TacBranches, TacItem, Tactical};
use mt_text::{Ledger, Steps};
use mt_tiny::{
    Goals, Located, OutOfMemory, Prover, TinyStop, act, all_goals, dotted, either_open, may_focus,
    numbered, one_goal, opened, picked,
};
use std::alloc::Global;

/// The most calls of a block, one inside the other. A tactical that nests deeper wants memory.
pub const MAX_DEPTH: usize = 1_000;

// One call deeper.
fn deeper(depth_left: usize) -> Result<usize, OutOfMemory>
    ensures { IfOk result (λ n. n + 1 ≡ depth_left) }
{
    depth_left.checked_sub(1).ok_or(OutOfMemory)
}

/// The meaning of a closed tactical: what focus and pending become.
///
/// # Errors
///
/// Each stop comes exactly where the meaning stops, with its place. After each, what the prover changed is the caller's to take back.
pub fn run_block<P: Prover, L: Ledger>(
    alloc: Global,
    block: &Tactical<P::Action>,
    focus: Goals,
    pending: Goals,
    prover: &mut P,
    steps: &mut Steps<L>,
) -> Result<(Goals, Goals), BlockStop<P::Stop>>
    ensures outcome { BlockAnswers (λ x. (P.state_of prover.new, x.0, x.1)) P.cause_of (meaning P.rules (sequence_of P.deed_of block.now) (P.state_of prover.old) focus pending (P.allowance prover.old)) (P.allowance prover.new) result }
    ensures cost { steps.new + P.allowance prover.new ≡ steps.old + P.allowance prover.old }
{
    run(alloc, block, focus, pending, prover, steps, MAX_DEPTH)
}

// The items of a tactical, one after the other.
#[cycle(blocks)]
#[tactic(auto, using(crate::proofs::Running::memory_rules, crate::proofs::Running::item_rules))]
fn run<P: Prover, L: Ledger>(
    alloc: Global,
    block: &Tactical<P::Action>,
    mut focus: Goals,
    mut pending: Goals,
    prover: &mut P,
    steps: &mut Steps<L>,
    depth_left: usize,
) -> Result<(Goals, Goals), BlockStop<P::Stop>>
    ensures outcome { BlockAnswers (λ x. (P.state_of prover.new, x.0, x.1)) P.cause_of (meaning P.rules (sequence_of P.deed_of block.now) (P.state_of prover.old) focus pending (P.allowance prover.old)) (P.allowance prover.new) result }
    ensures cost { steps.new + P.allowance prover.new ≡ steps.old + P.allowance prover.old }
{
    let depth_left = deeper(depth_left)?;
    let mut rest = block;
    while let Tactical::Item(item, others) = rest {
        let (next_focus, next_pending) = run_item(
            alloc, item, focus, pending, prover, steps, depth_left,
        )?;
        focus = next_focus;
        pending = next_pending;
        rest = others;
    }
    Ok((focus, pending))
}

// An item.
#[cycle(blocks)]
#[tactic(auto, using(crate::proofs::Running::memory_rules))]
fn run_item<P: Prover, L: Ledger>(
    alloc: Global,
    step: &TacItem<P::Action>,
    focus: Goals,
    pending: Goals,
    prover: &mut P,
    steps: &mut Steps<L>,
    depth_left: usize,
) -> Result<(Goals, Goals), BlockStop<P::Stop>>
    ensures outcome { BlockAnswers (λ x. (P.state_of prover.new, x.0, x.1)) P.cause_of (item P.rules (step_of P.deed_of step.now) (P.state_of prover.old) focus pending (P.allowance prover.old)) (P.allowance prover.new) result }
    ensures cost { steps.new + P.allowance prover.new ≡ steps.old + P.allowance prover.old }
{
    let depth_left = deeper(depth_left)?;
    match step {
        TacItem::Action(at, action) => run_action(
            alloc, *at, action, focus, pending, prover, steps,
        ),
        TacItem::Skip(_) | TacItem::Semicolon(_) => Ok((focus, pending)),
        TacItem::Dot(at) => run_dot(alloc, *at, focus, pending, &*prover),
        TacItem::Branches { branches, close } => {
            run_branching(
                alloc, branches, *close, focus, pending, prover, steps, depth_left,
            )
        }
        TacItem::Focus {
            at,
            numbers,
            dot,
            sign,
            body,
            unfocus,
        } => {
            let signs = Signs {
                at: *at,
                dot: *dot,
                sign: *sign,
                unfocus: *unfocus,
            };
            run_focus(
                alloc, signs, numbers, body, focus, pending, prover, steps, depth_left,
            )
        }
    }
}

// `.`
#[tactic(auto, using(crate::proofs::Running::memory_rules))]
fn run_dot<P: Prover>(
    alloc: Global,
    at: usize,
    focus: Goals,
    pending: Goals,
    prover: &P,
) -> Result<(Goals, Goals), BlockStop<P::Stop>>
    ensures { BlockAnswers (λ x. (P.state_of prover.now, x.0, x.1)) P.cause_of (item P.rules (Dot at) (P.state_of prover.now) focus pending (P.allowance prover.now)) (P.allowance prover.now) result }
{
    let (next_focus, next_pending) = dotted(alloc, prover, focus.as_slice(), pending.as_slice())?;
    Ok((next_focus, next_pending))
}

// An action on the goals in focus.
fn run_action<P: Prover, L: Ledger>(
    alloc: Global,
    at: usize,
    action: &P::Action,
    focus: Goals,
    pending: Goals,
    prover: &mut P,
    steps: &mut Steps<L>,
) -> Result<(Goals, Goals), BlockStop<P::Stop>>
    ensures outcome { BlockAnswers (λ x. (P.state_of prover.new, x.0, x.1)) P.cause_of (item P.rules (Action at (P.deed_of action.now)) (P.state_of prover.old) focus pending (P.allowance prover.old)) (P.allowance prover.new) result }
    ensures cost { steps.new + P.allowance prover.new ≡ steps.old + P.allowance prover.old }
{
    match act(alloc, action, focus.as_slice(), prover, steps) {
        Ok(new) => Ok((new, pending)),
        Err(stop) => Err(BlockStop { at, stop }),
    }
}

// The place of `[`.
fn first_place<P: Prover>(choices: &TacBranches<P::Action>, close: usize, _prover: &P) -> usize
    ensures { result ≡ first_place (choices_of P.deed_of choices.now) close }
{
    match choices {
        TacBranches::End => close,
        TacBranches::Item(branch, _) => branch.at,
    }
}

// Branches on the open goals in focus.
#[cycle(blocks)]
#[tactic(auto, using(crate::proofs::Running::memory_rules, crate::proofs::Running::branching_rules))]
fn run_branching<P: Prover, L: Ledger>(
    alloc: Global,
    choices: &TacBranches<P::Action>,
    close: usize,
    focus: Goals,
    pending: Goals,
    prover: &mut P,
    steps: &mut Steps<L>,
    depth_left: usize,
) -> Result<(Goals, Goals), BlockStop<P::Stop>>
    ensures outcome { BlockAnswers (λ x. (P.state_of prover.new, x.0, x.1)) P.cause_of (item P.rules (Branches (choices_of P.deed_of choices.now) close) (P.state_of prover.old) focus pending (P.allowance prover.old)) (P.allowance prover.new) result }
    ensures cost { steps.new + P.allowance prover.new ≡ steps.old + P.allowance prover.old }
{
    let depth_left = deeper(depth_left)?;
    let open = opened(alloc, &*prover, focus.as_slice())?;
    if open.len() == 0 {
        return Err(BlockStop {
            at: first_place(choices, close, &*prover),
            stop: TinyStop::NoGoal,
        });
    }
    let left = numbered(alloc, 1, open.as_slice())?;
    let goals = run_branches(alloc, choices, left, prover, steps, depth_left)?;
    let next_focus = opened(alloc, &*prover, goals.as_slice())?;
    Ok((next_focus, pending))
}

// The branches, one after the other: their goals, and those that are left.
#[cycle(blocks)]
#[tactic(auto, using(crate::proofs::Running::memory_rules, crate::proofs::Running::branches_rules))]
fn run_branches<P: Prover, L: Ledger>(
    alloc: Global,
    choices: &TacBranches<P::Action>,
    mut left: Located,
    prover: &mut P,
    steps: &mut Steps<L>,
    depth_left: usize,
) -> Result<Goals, BlockStop<P::Stop>>
    ensures outcome { BlockAnswers (λ goals. (P.state_of prover.new, goals)) P.cause_of (branches P.rules (choices_of P.deed_of choices.now) (P.state_of prover.old) [] left (P.allowance prover.old)) (P.allowance prover.new) result }
    ensures cost { steps.new + P.allowance prover.new ≡ steps.old + P.allowance prover.old }
{
    let depth_left = deeper(depth_left)?;
    let mut done = Goals::new(alloc);
    let mut rest = choices;
    while let TacBranches::Item(branch, others) = rest {
        let branch: &TacBranch<P::Action> = branch;
        let (taken, more) = choose(alloc, branch.at, &branch.pick, left, &*prover)?;
        let none = Goals::new(alloc);
        let (focus, pending) = run(alloc, &branch.body, taken, none, prover, steps, depth_left)?;
        done.append(focus.as_slice())?;
        done.append(pending.as_slice())?;
        left = more;
        rest = others;
    }
    let remaining = all_goals(alloc, left.as_slice())?;
    done.append(remaining.as_slice())?;
    Ok(done)
}

// The goals that a branch takes of those that are left, and those that it leaves.
fn choose<P: Prover>(
    alloc: Global,
    at: usize,
    pick: &Pick,
    left: Located,
    prover: &P,
) -> Result<(Goals, Located), BlockStop<P::Stop>>
    ensures { BlockAnswers (λ x. x) P.cause_of (chosen P.rules at pick.now left (P.allowance prover.now)) (P.allowance prover.now) result }
{
    let [(_, goal), more @ ..] = left.as_slice() else {
        return Err(BlockStop {
            at,
            stop: TinyStop::NoBranch,
        });
    };
    match pick {
        Pick::Next => Ok((one_goal(alloc, *goal)?, Located::from_slice(alloc, more)?)),
        Pick::Positions(place, positions) => match picked(alloc, positions.as_slice(), left)? {
            Some(chosen) => Ok(chosen),
            None => Err(BlockStop {
                at: *place,
                stop: TinyStop::NoSuchPosition,
            }),
        },
        Pick::Rest(_) => Ok((all_goals(alloc, left.as_slice())?, Located::new(alloc))),
    }
}

// The places and the sign of `focus` and `unfocus`.
#[derive(Clone, Copy)]
struct Signs {
    at: usize,
    dot: bool,
    sign: usize,
    unfocus: usize,
}

// What stands between `focus` and `unfocus`.
#[cycle(blocks)]
#[tactic(auto, using(crate::proofs::Running::memory_rules, crate::proofs::Running::focus_rules))]
fn run_focus<P: Prover, L: Ledger>(
    alloc: Global,
    signs: Signs,
    numbers: &Goals,
    body: &Tactical<P::Action>,
    focus: Goals,
    pending: Goals,
    prover: &mut P,
    steps: &mut Steps<L>,
    depth_left: usize,
) -> Result<(Goals, Goals), BlockStop<P::Stop>>
    ensures outcome { BlockAnswers (λ x. (P.state_of prover.new, x.0, x.1)) P.cause_of (item P.rules (Focus signs.at numbers.now signs.dot signs.sign (sequence_of P.deed_of body.now) signs.unfocus) (P.state_of prover.old) focus pending (P.allowance prover.old)) (P.allowance prover.new) result }
    ensures cost { steps.new + P.allowance prover.new ≡ steps.old + P.allowance prover.old }
{
    let depth_left = deeper(depth_left)?;
    if !may_focus(&*prover, numbers.as_slice()) {
        return Err(BlockStop {
            at: signs.at,
            stop: TinyStop::NoGoal,
        });
    }
    let (first, later) = signed(alloc, signs.dot, &*prover, numbers)?;
    let (inner, waiting) = run(alloc, body, first, later, prover, steps, depth_left)?;
    if either_open(&*prover, inner.as_slice(), waiting.as_slice()) {
        return Err(BlockStop {
            at: signs.unfocus,
            stop: TinyStop::NotHere,
        });
    }
    Ok((focus, pending))
}

// Focus and pending after the sign that follows the numbers of `focus`.
fn signed<P: Prover>(
    alloc: Global,
    dot: bool,
    prover: &P,
    numbers: &Goals,
) -> Result<(Goals, Goals), OutOfMemory>
    ensures { IfOk result (λ x. x ≡ signed P.rules dot (P.state_of prover.now) numbers.now) }
{
    if dot {
        return dotted(alloc, prover, numbers.as_slice(), &[]);
    }
    Ok((
        Goals::from_slice(alloc, numbers.as_slice())?,
        Goals::new(alloc),
    ))
}
