// The steps, on the top level and the levels below it.
ghost use Rattle.std.specs.Prelude.{◌≡◌, ◌+◌, ◌++◌, List, IfOk, OnErr, reverse};
ghost use Rattle.mt_tiny.specs.Answers.{Answers, HasMemory, TakesNoMemory};
ghost use Rattle.mt_tiny.specs.Goals.{goals_of, positioned, picked, opened, any_open, may_focus};
ghost use Rattle.mt_tiny.specs.Stepping.{stack, opening, in_branch, in_focus, next_branch, at_positions, lower, zooming, leaving, tiny_step};
ghost use Rattle.mt_tiny.specs.TinyOf.{tiny_of};
ghost use Rattle.mt_tiny.specs.declared.Tiny.TheVariants as tinies;
ghost use Rattle.mt_tiny.specs.declared.levels.Level.{Level};

use crate::levels::{Level, Located, Tag};
use crate::lists::{
    act, all_goals, dotted, either_open, may_focus, numbered, one_goal, opened, picked,
};
use crate::provers::Prover;
use crate::stops::TinyStop;
use crate::{Goals, OutOfMemory, Tiny};
use mt_text::{Ledger, Steps};
use std::alloc::Global;
use std::mem::replace;

/// One step.
pub(crate) fn take_step<P: Prover, L: Ledger>(
    alloc: Global,
    below: &mut Vec<Level>,
    top: &mut Level,
    tiny: &Tiny<P::Action>,
    prover: &mut P,
    steps: &mut Steps<L>,
) -> Result<(), TinyStop<P::Stop>>
    ensures outcome { Answers (λ _. (P.state_of prover.new, stack top.new (reverse below.new.items))) P.cause_of (tiny_step P.rules (tiny_of P.deed_of tiny.now) (P.state_of prover.old) top.old (reverse below.old.items) (P.allowance prover.old)) (P.allowance prover.new) result }
    ensures top { OnErr result (top.new ≡ top.old) }
    ensures below { OnErr result (below.new.items ≡ below.old.items) }
    ensures memory { TakesNoMemory tiny.now → HasMemory result }
    ensures cost { steps.new + P.allowance prover.new ≡ steps.old + P.allowance prover.old }
{
    match tiny {
        Tiny::Action(action) => step_action(alloc, top, action, prover, steps),
        Tiny::Semicolon | Tiny::Skip => Ok(()),
        Tiny::Dot => step_dot(alloc, top, prover),
        Tiny::BranchOpen => step_open(alloc, below, top, prover),
        Tiny::Bar => step_bar(alloc, top, prover),
        Tiny::BranchClose => step_close(alloc, below, top, prover),
        Tiny::Positions(positions) => step_positions(alloc, top, positions.as_slice(), prover),
        Tiny::Wildcard => step_wildcard(alloc, top, prover),
        Tiny::Focus(goals) => step_focus(alloc, below, top, goals.as_slice(), prover),
        Tiny::Unfocus => step_unfocus(below, top, prover),
    }
}

// An action on the goals in focus.
fn step_action<P: Prover, L: Ledger>(
    alloc: Global,
    top: &mut Level,
    action: &P::Action,
    prover: &mut P,
    steps: &mut Steps<L>,
) -> Result<(), TinyStop<P::Stop>>
    ensures outcome { (bs : List Level) → Answers (λ _. (P.state_of prover.new, stack top.new bs)) P.cause_of (tiny_step P.rules (tinies.Action (P.deed_of action.now)) (P.state_of prover.old) top.old bs (P.allowance prover.old)) (P.allowance prover.new) result }
    ensures top { OnErr result (top.new ≡ top.old) }
    ensures cost { steps.new + P.allowance prover.new ≡ steps.old + P.allowance prover.old }
{
    let new = act(alloc, action, top.focus.as_slice(), prover, steps)?;
    top.focus = new;
    top.fresh = 0;
    Ok(())
}

// `.`
fn step_dot<P: Prover>(alloc: Global, top: &mut Level, prover: &P) -> Result<(), TinyStop<P::Stop>>
    ensures outcome { (bs : List Level) → Answers (λ _. (P.state_of prover.now, stack top.new bs)) P.cause_of (tiny_step P.rules tinies.Dot (P.state_of prover.now) top.old bs (P.allowance prover.now)) (P.allowance prover.now) result }
    ensures top { OnErr result (top.new ≡ top.old) }
{
    let (focus, pending) = dotted(alloc, prover, top.focus.as_slice(), top.pending.as_slice())?;
    top.focus = focus;
    top.pending = pending;
    top.fresh = 0;
    Ok(())
}

// `[`
fn step_open<P: Prover>(
    alloc: Global,
    below: &mut Vec<Level>,
    top: &mut Level,
    prover: &P,
) -> Result<(), TinyStop<P::Stop>>
    ensures outcome { Answers (λ _. (P.state_of prover.now, stack top.new (reverse below.new.items))) P.cause_of (tiny_step P.rules tinies.BranchOpen (P.state_of prover.now) top.old (reverse below.old.items) (P.allowance prover.now)) (P.allowance prover.now) result }
    ensures top { OnErr result (top.new ≡ top.old) }
    ensures below { OnErr result (below.new.items ≡ below.old.items) }
{
    let open = opened(alloc, prover, top.focus.as_slice())?;
    let [goal, others @ ..] = open.as_slice() else {
        return Err(TinyStop::NoGoal);
    };
    let branch = Level {
        focus: one_goal(alloc, *goal)?,
        pending: Goals::new(alloc),
        done: Goals::new(alloc),
        left: numbered(alloc, 2, others)?,
        fresh: 1,
        tag: Tag::Branch,
    };
    below.reserve(1)?;
    let mut lower = replace(top, branch);
    lower.focus = Goals::new(alloc);
    lower.fresh = 0;
    below.push(lower).unwrap();
    Ok(())
}

// `|`
fn step_bar<P: Prover>(alloc: Global, top: &mut Level, prover: &P) -> Result<(), TinyStop<P::Stop>>
    ensures outcome { (bs : List Level) → Answers (λ _. (P.state_of prover.now, stack top.new bs)) P.cause_of (tiny_step P.rules tinies.Bar (P.state_of prover.now) top.old bs (P.allowance prover.now)) (P.allowance prover.now) result }
    ensures top { OnErr result (top.new ≡ top.old) }
{
    match top.tag {
        Tag::Branch => to_next_branch(alloc, top, prover),
        Tag::Bottom | Tag::Focus => Err(TinyStop::NotHere),
    }
}

// The next branch of a level of branches.
fn to_next_branch<P: Prover>(
    alloc: Global,
    top: &mut Level,
    prover: &P,
) -> Result<(), TinyStop<P::Stop>>
    ensures outcome { (bs : List Level) → Answers (λ _. (P.state_of prover.now, stack top.new bs)) P.cause_of (next_branch P.rules (P.state_of prover.now) top.old bs top.old.left (P.allowance prover.now)) (P.allowance prover.now) result }
    ensures top { OnErr result (top.new ≡ top.old) }
{
    let [(position, goal), more @ ..] = top.left.as_slice() else {
        return Err(TinyStop::NoBranch);
    };
    let fresh = *position;
    let focus = one_goal(alloc, *goal)?;
    let left = Located::from_slice(alloc, more)?;
    let mut done = Goals::from_slice(alloc, top.done.as_slice())?;
    done.append(top.focus.as_slice())?;
    done.append(top.pending.as_slice())?;
    top.focus = focus;
    top.pending = Goals::new(alloc);
    top.done = done;
    top.left = left;
    top.fresh = fresh;
    Ok(())
}

// The goal in focus at its position, then what is left.
fn positioned(alloc: Global, top: &Level) -> Result<Located, OutOfMemory>
    ensures { IfOk result (λ p. p ≡ positioned top.now.fresh top.now.focus top.now.left) }
{
    match top.focus.as_slice() {
        [] => Located::from_slice(alloc, top.left.as_slice()),
        [goal, ..] => {
            let mut placed = Located::new(alloc);
            placed.push(top.fresh, *goal)?;
            placed.append(top.left.as_slice())?;
            Ok(placed)
        }
    }
}

// `i,j:`
fn step_positions<P: Prover>(
    alloc: Global,
    top: &mut Level,
    positions: &[usize],
    prover: &P,
) -> Result<(), TinyStop<P::Stop>>
    ensures outcome { (bs : List Level) → Answers (λ _. (P.state_of prover.now, stack top.new bs)) P.cause_of (tiny_step P.rules (tinies.Positions positions.now) (P.state_of prover.now) top.old bs (P.allowance prover.now)) (P.allowance prover.now) result }
    ensures top { OnErr result (top.new ≡ top.old) }
{
    if top.fresh == 0 {
        return Err(TinyStop::NotHere);
    }
    let placed = positioned(alloc, top)?;
    let Some((focus, left)) = picked(alloc, positions, placed)? else {
        return Err(TinyStop::NoSuchPosition);
    };
    top.focus = focus;
    top.left = left;
    top.fresh = 0;
    Ok(())
}

// `*:`
fn step_wildcard<P: Prover>(
    alloc: Global,
    top: &mut Level,
    prover: &P,
) -> Result<(), TinyStop<P::Stop>>
    ensures outcome { (bs : List Level) → Answers (λ _. (P.state_of prover.now, stack top.new bs)) P.cause_of (tiny_step P.rules tinies.Wildcard (P.state_of prover.now) top.old bs (P.allowance prover.now)) (P.allowance prover.now) result }
    ensures top { OnErr result (top.new ≡ top.old) }
{
    if top.fresh == 0 {
        return Err(TinyStop::NotHere);
    }
    let placed = positioned(alloc, top)?;
    let focus = all_goals(alloc, placed.as_slice())?;
    top.focus = focus;
    top.left = Located::new(alloc);
    top.fresh = 0;
    Ok(())
}

// `]`
fn step_close<P: Prover>(
    alloc: Global,
    below: &mut Vec<Level>,
    top: &mut Level,
    prover: &P,
) -> Result<(), TinyStop<P::Stop>>
    ensures outcome { Answers (λ _. (P.state_of prover.now, stack top.new (reverse below.new.items))) P.cause_of (tiny_step P.rules tinies.BranchClose (P.state_of prover.now) top.old (reverse below.old.items) (P.allowance prover.now)) (P.allowance prover.now) result }
    ensures top { OnErr result (top.new ≡ top.old) }
    ensures below { OnErr result (below.new.items ≡ below.old.items) }
{
    match top.tag {
        Tag::Branch => close_branches(alloc, below, top, prover),
        Tag::Bottom | Tag::Focus => Err(TinyStop::NotHere),
    }
}

// All goals of a level of branches.
fn goals_of_branches(alloc: Global, top: &Level) -> Result<Goals, OutOfMemory>
    ensures { IfOk result (λ gs. gs ≡ top.now.done ++ top.now.focus ++ top.now.pending ++ goals_of top.now.left) }
{
    let mut goals = Goals::from_slice(alloc, top.done.as_slice())?;
    goals.append(top.focus.as_slice())?;
    goals.append(top.pending.as_slice())?;
    let left = all_goals(alloc, top.left.as_slice())?;
    goals.append(left.as_slice())?;
    Ok(goals)
}

// The level below gets the open goals of a level of branches.
fn close_branches<P: Prover>(
    alloc: Global,
    below: &mut Vec<Level>,
    top: &mut Level,
    prover: &P,
) -> Result<(), TinyStop<P::Stop>>
    ensures outcome { Answers (λ _. (P.state_of prover.now, stack top.new (reverse below.new.items))) P.cause_of (lower P.rules (P.state_of prover.now) (reverse below.old.items) (λ B. record B { focus = opened P.rules (P.state_of prover.now) (top.old.done ++ top.old.focus ++ top.old.pending ++ goals_of top.old.left) }) (P.allowance prover.now)) (P.allowance prover.now) result }
    ensures top { OnErr result (top.new ≡ top.old) }
    ensures below { OnErr result (below.new.items ≡ below.old.items) }
{
    let goals = goals_of_branches(alloc, top)?;
    let focus = opened(alloc, prover, goals.as_slice())?;
    let Some(mut level) = below.pop() else {
        return Err(TinyStop::NotHere);
    };
    level.focus = focus;
    *top = level;
    Ok(())
}

// `focus`
fn step_focus<P: Prover>(
    alloc: Global,
    below: &mut Vec<Level>,
    top: &mut Level,
    goals: &[usize],
    prover: &P,
) -> Result<(), TinyStop<P::Stop>>
    ensures outcome { Answers (λ _. (P.state_of prover.now, stack top.new (reverse below.new.items))) P.cause_of (tiny_step P.rules (tinies.Focus goals.now) (P.state_of prover.now) top.old (reverse below.old.items) (P.allowance prover.now)) (P.allowance prover.now) result }
    ensures top { OnErr result (top.new ≡ top.old) }
    ensures below { OnErr result (below.new.items ≡ below.old.items) }
{
    if !may_focus(prover, goals) {
        return Err(TinyStop::NoGoal);
    }
    let level = Level {
        focus: Goals::from_slice(alloc, goals)?,
        pending: Goals::new(alloc),
        done: Goals::new(alloc),
        left: Located::new(alloc),
        fresh: 0,
        tag: Tag::Focus,
    };
    below.reserve(1)?;
    let mut lower = replace(top, level);
    lower.fresh = 0;
    below.push(lower).unwrap();
    Ok(())
}

// `unfocus`
fn step_unfocus<P: Prover>(
    below: &mut Vec<Level>,
    top: &mut Level,
    prover: &P,
) -> Result<(), TinyStop<P::Stop>>
    ensures outcome { Answers (λ _. (P.state_of prover.now, stack top.new (reverse below.new.items))) P.cause_of (tiny_step P.rules tinies.Unfocus (P.state_of prover.now) top.old (reverse below.old.items) (P.allowance prover.now)) (P.allowance prover.now) result }
    ensures top { OnErr result (top.new ≡ top.old) }
    ensures below { OnErr result (below.new.items ≡ below.old.items) }
    ensures memory { HasMemory result }
{
    match top.tag {
        Tag::Focus => leave_focus(below, top, prover),
        Tag::Bottom | Tag::Branch => Err(TinyStop::NotHere),
    }
}

// The level below, where no goal in focus or pending is open.
fn leave_focus<P: Prover>(
    below: &mut Vec<Level>,
    top: &mut Level,
    prover: &P,
) -> Result<(), TinyStop<P::Stop>>
    ensures outcome { Answers (λ _. (P.state_of prover.now, stack top.new (reverse below.new.items))) P.cause_of (leaving P.rules (P.state_of prover.now) (reverse below.old.items) (any_open P.rules (P.state_of prover.now) (top.old.focus ++ top.old.pending)) (P.allowance prover.now)) (P.allowance prover.now) result }
    ensures top { OnErr result (top.new ≡ top.old) }
    ensures below { OnErr result (below.new.items ≡ below.old.items) }
    ensures memory { HasMemory result }
{
    if either_open(prover, top.focus.as_slice(), top.pending.as_slice()) {
        return Err(TinyStop::NotHere);
    }
    let Some(level) = below.pop() else {
        return Err(TinyStop::NotHere);
    };
    *top = level;
    Ok(())
}
