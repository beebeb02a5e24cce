// A block and its tinycals one by one, compared with what is expected.
ghost use Rattle.std.specs.Prelude.{◌≡◌, ◌<◌};

use crate::prover::{SmallProver, SmallStop};
use crate::reading::{tactical, tinycals};
use mt_tactical::{BlockStop, Tactical, run_block};
use mt_text::{Ledger, PlainLedger, Steps};
use mt_tiny::{Goals, OutOfMemory, Stack, Tiny, TinyStop, one_goal};
use std::alloc::Global;
use std::sync::ledger::Blank;
use std::test::Fail;

/// The allowance of a block, and of each step.
pub const FULL: u64 = 30;

/// How a block ends: 0 where it succeeds, else the stop and its place; the goals in focus, those pending, and the allowance that is left.
#[derive(Drop)]
pub struct Ending {
    pub code: u8,
    pub at: usize,
    pub focus: &'static [usize],
    pub pending: &'static [usize],
    pub left: u64,
}

/// No goal is open.
pub const NO_GOAL: u8 = 1;
/// No goal is left for a branch.
pub const NO_BRANCH: u8 = 2;
/// A position is not there, or is named twice.
pub const NO_SUCH_POSITION: u8 = 3;
/// A tinycal may not stand there.
pub const NOT_HERE: u8 = 4;
/// The prover refuses the action.
pub const REFUSED: u8 = 5;
/// The allowance is spent.
pub const SPENT: u8 = 6;

/// A block that succeeds.
pub fn done(focus: &'static [usize], pending: &'static [usize], left: u64) -> Ending {
    Ending {
        code: 0,
        at: 0,
        focus,
        pending,
        left,
    }
}

/// A block that stops at a place.
pub fn stops(code: u8, at: usize, left: u64) -> Ending {
    Ending {
        code,
        at,
        focus: &[],
        pending: &[],
        left,
    }
}

fn small(alloc: Global) -> SmallProver {
    SmallProver {
        made: 1,
        closed: Goals::new(alloc),
        left: FULL,
    }
}

fn code_of(stop: &TinyStop<SmallStop>) -> u8 {
    match stop {
        TinyStop::NoGoal => NO_GOAL,
        TinyStop::NoBranch => NO_BRANCH,
        TinyStop::NoSuchPosition => NO_SUCH_POSITION,
        TinyStop::NotHere => NOT_HERE,
        TinyStop::Prover(SmallStop::Refused) => REFUSED,
        TinyStop::Prover(SmallStop::Spent) => SPENT,
        TinyStop::OutOfMemory => 7,
    }
}

// The stack and the prover after these steps, each with the full allowance; none where one stops.
fn after_steps<L: Ledger>(
    alloc: Global,
    tinies: &[Tiny<usize>],
    steps: &mut Steps<L>,
) -> Result<Option<(Stack, SmallProver)>, OutOfMemory> {
    let mut stack = Stack::new(alloc, 0)?;
    let mut prover = small(alloc);
    for tiny in tinies {
        prover.left = FULL;
        if stack.step(alloc, tiny, &mut prover, steps).is_err() {
            return Ok(None);
        }
    }
    Ok(Some((stack, prover)))
}

// Whether steps ended with these goals and with the same state.
fn is_after(
    stepped: &Option<(Stack, SmallProver)>,
    focus: &Goals,
    pending: &Goals,
    prover: &SmallProver,
) -> bool {
    let Some((stack, other)) = stepped else {
        return false;
    };
    let Some(top) = stack.levels().get(0) else {
        return false;
    };
    stack.levels().len() == 1
        && top.focus.as_slice() == focus.as_slice()
        && top.pending.as_slice() == pending.as_slice()
        && other.made == prover.made
        && other.closed.as_slice() == prover.closed.as_slice()
}

fn compare<L: Ledger>(
    alloc: Global,
    tinies: &Vec<Tiny<usize>>,
    block: &Tactical<usize>,
    ending: &Ending,
    blank: Blank,
) -> Result<bool, OutOfMemory>
    requires name { blank.name ≡ L.name }
    requires parts { blank.parts ≡ L.parts }
    requires some { 0 < L.parts }
{
    let mut steps = Steps::<L>::new(blank);
    let mut prover = small(alloc);
    let focus = one_goal(alloc, 0)?;
    let answer = run_block(
        alloc,
        block,
        focus,
        Goals::new(alloc),
        &mut prover,
        &mut steps,
    );
    let stepped = after_steps(alloc, tinies, &mut steps)?;
    Ok(prover.left == ending.left && is_ending(&answer, ending, &stepped, &prover))
}

// Whether a block ends so; and where it succeeds, the steps end alike.
fn is_ending(
    answer: &Result<(Goals, Goals), BlockStop<SmallStop>>,
    ending: &Ending,
    stepped: &Option<(Stack, SmallProver)>,
    prover: &SmallProver,
) -> bool {
    match answer {
        Ok((focus, pending)) => {
            ending.code == 0
                && focus.as_slice() == ending.focus
                && pending.as_slice() == ending.pending
                && is_after(stepped, focus, pending, prover)
        }
        Err(stop) => code_of(&stop.stop) == ending.code && stop.at == ending.at,
    }
}

fn agrees(
    alloc: Global,
    tinies: &Vec<Tiny<usize>>,
    block: &Tactical<usize>,
    ending: &Ending,
) -> Result<bool, OutOfMemory> {
    compare::<PlainLedger>(alloc, tinies, block, ending, Blank::new(1))
}

/// Whether the block of these words ends so, on the goal 0; and where it succeeds, its tinycals one by one end alike.
pub fn ends(alloc: Global, text: &str, ending: Ending) -> Result<bool, Fail> {
    let tinies = tinycals(alloc, text)?;
    let (block, _) = tactical(alloc, &tinies, 0, 200)?;
    Ok(agrees(alloc, &tinies, &block, &ending)?)
}
