// A run of a script.
ghost use Rattle.std.specs.Prelude.{◌≡◌, ◌<◌, ◌≤◌, ◌+◌, ℕ, suc, if◌then◌else◌, IfOk, OnOk, OnErr};
ghost use Rattle.mt_kernel.specs.Answers.{charge_of};
ghost use Rattle.mt_term.specs.EnvironmentOf.{environment_of};
ghost use Rattle.mt_unit_parser.specs.UnitOf.{kind_of, unit_of};
ghost use Rattle.mt_session.specs.Moves.{charges_in, move, move_asked, move_by, move_declared};
ghost use Rattle.mt_session.specs.Output.{run_text};
ghost use Rattle.mt_session.specs.Plans.{declares, takes_charge};
ghost use Rattle.mt_session.specs.Ready.{SoundState, IsTaskOf};
ghost use Rattle.mt_session.specs.Runs.{cost, empty_state, ended, is_clean, run};
ghost use Rattle.mt_session.specs.Sessions.{AreTables, IsReady, state_in, task_of};
ghost use Rattle.mt_session.specs.Steps.{CostIs, MovesAs, StepIs, fault_in, cost_on};
ghost use Rattle.mt_session.specs.Tasks.{judged};

use crate::applying::apply;
use crate::asking::{ask, declares, takes_charge};
use crate::declaring::take_entry;
use crate::judging::judge;
use crate::reporting::{Report, report_on};
use crate::sessions::Session;
use crate::tasks::Task;
use mt_term::{Fault, Halt, OutOfMemory};
use mt_text::{Ledger, Steps};
use mt_unit_parser::{Parsed, Unit, UnitKind, unit_at};
use std::alloc::Global;

// The allowance of each unit.
pub(crate) const ALLOWANCE: u64 = 100_000;

/// Whether a run goes on after a unit, or with what fault it is over, if there is one.
#[derive(Drop)]
pub enum Step {
    Accepted,
    Ended(Option<Fault>),
}

/// Runs a script from the empty state.
pub fn run_script<L: Ledger>(
    alloc: Global,
    text: &str,
    steps: &mut Steps<L>,
) -> Result<Report, OutOfMemory>
    ensures text { IfOk result (λ r. r.text.items ≡ run_text text.now (run text.now)) }
    ensures clean { IfOk result (λ r. r.clean ≡ is_clean (run text.now)) }
    ensures cost { OnOk result (steps.new ≡ steps.old + cost text.now) }
    ensures wanting { OnErr result (steps.new ≤ steps.old + cost text.now) }
{
    let mut session = Session::new(alloc);
    let fault = advance(alloc, text, &mut session, steps)?;
    report_on(alloc, text, session, &fault)
}

// Takes units until one is refused or there is none.
fn advance<L: Ledger>(
    alloc: Global,
    text: &str,
    session: &mut Session,
    steps: &mut Steps<L>,
) -> Result<Option<Fault>, OutOfMemory>
    requires state { state_in session.old ≡ empty_state }
    requires tables { AreTables session.old }
    ensures run { IfOk result (λ f. run text.now ≡ ended (state_in session.new) (fault_in f)) }
    ensures cost { OnOk result (steps.new ≡ steps.old + cost text.now) }
    ensures wanting { OnErr result (steps.new ≤ steps.old + cost text.now) }
{
    'units: loop {
        match take_unit(alloc, text, session, steps)? {
            Step::Accepted => {}
            Step::Ended(fault) => return Ok(fault),
        }
    }
}

// Takes the next unit.
fn take_unit<L: Ledger>(
    alloc: Global,
    text: &str,
    session: &mut Session,
    steps: &mut Steps<L>,
) -> Result<Step, OutOfMemory>
    requires { IsReady text.now session.old }
    ensures step { IfOk result (λ s. StepIs text.now session.old session.new s) }
    ensures ready { OnOk result (IsReady text.now session.new) }
    ensures cost { IfOk result (λ s. CostIs text.now session.old session.new steps.old steps.new s) }
    ensures wanting { OnErr result ((n : ℕ) → steps.new ≤ steps.old + cost_on text.now (suc n) session.old) }
{
    match unit_at(alloc, text, session.place) {
        Ok(Parsed::End) => Ok(Step::Ended(None)),
        Ok(Parsed::Unit(unit)) => take(alloc, session, &unit, steps),
        Err(Halt::Refused(fault)) => Ok(Step::Ended(Some(fault))),
        Err(_) => Err(OutOfMemory),
    }
}

// Takes a unit.
fn take<L: Ledger>(
    alloc: Global,
    session: &mut Session,
    unit: &Unit,
    steps: &mut Steps<L>,
) -> Result<Step, OutOfMemory>
    requires tables { AreTables session.old }
    requires sound { SoundState (state_in session.old) }
    requires room { session.old.units < unit.now.span.end }
    ensures moves { IfOk result (λ s. MovesAs (move (state_in session.old) (unit_of unit.now) 100000) session.old session.new s) }
    ensures cost { OnOk result (steps.new ≡ steps.old + charges_in 100000 (move (state_in session.old) (unit_of unit.now) 100000)) }
    ensures wanting { OnErr result (steps.new ≤ steps.old + charges_in 100000 (move (state_in session.old) (unit_of unit.now) 100000)) }
{
    let is_entry = declares(session, &unit.kind)?;
    if is_entry {
        take_entry(alloc, session, unit, steps)
    } else {
        take_asked(alloc, session, unit, steps)
    }
}

// Takes a unit that declares no entry.
fn take_asked<L: Ledger>(
    alloc: Global,
    session: &mut Session,
    unit: &Unit,
    steps: &mut Steps<L>,
) -> Result<Step, OutOfMemory>
    requires tables { AreTables session.old }
    requires sound { SoundState (state_in session.old) }
    requires room { session.old.units < unit.now.span.end }
    ensures moves { IfOk result (λ s. MovesAs (move_asked (state_in session.old) (unit_of unit.now) 100000) session.old session.new s) }
    ensures cost { OnOk result (steps.new ≡ steps.old + charges_in 100000 (move_asked (state_in session.old) (unit_of unit.now) 100000)) }
    ensures wanting { OnErr result (steps.new ≤ steps.old + charges_in 100000 (move_asked (state_in session.old) (unit_of unit.now) 100000)) }
{
    let allowance = pay(session, &unit.kind, steps)?;
    let start = unit.span.start;
    match ask(alloc, session, start, &unit.kind) {
        Ok(task) => settle(alloc, session, start, unit.span.end, task, allowance, steps),
        Err(Halt::Refused(fault)) => Ok(Step::Ended(Some(fault))),
        Err(_) => Err(OutOfMemory),
    }
}

// Takes the charge of an action; what is left of the allowance.
fn pay<L: Ledger>(
    session: &Session,
    kind: &UnitKind,
    steps: &mut Steps<L>,
) -> Result<u64, OutOfMemory>
    ensures left { IfOk result (λ n. n ≡ (if takes_charge (state_in session.now).proof (kind_of kind.now) then 99999 else 100000)) }
    ensures cost { OnOk result (steps.new ≡ steps.old + (if takes_charge (state_in session.now).proof (kind_of kind.now) then 1 else 0)) }
    ensures wanting { OnErr result (steps.new ≡ steps.old) }
{
    if takes_charge(session, kind)? {
        steps.tick();
        Ok(ALLOWANCE - 1)
    } else {
        Ok(ALLOWANCE)
    }
}

// Takes what a unit asks for, where the kernel says yes.
fn settle<L: Ledger>(
    alloc: Global,
    session: &mut Session,
    start: usize,
    end: usize,
    task: Task,
    allowance: u64,
    steps: &mut Steps<L>,
) -> Result<Step, OutOfMemory>
    requires tables { AreTables session.old }
    requires sound { SoundState (state_in session.old) }
    requires fits { IsTaskOf (state_in session.old) (task_of task) }
    requires room { session.old.units < end }
    ensures moves { IfOk result (λ s. MovesAs (move_by (state_in session.old) start end (task_of task) (judged (environment_of session.old.env) (task_of task) allowance)) session.old session.new s) }
    ensures cost { OnOk result (steps.new ≡ steps.old + charge_of allowance (judged (environment_of session.old.env) (task_of task) allowance)) }
    ensures wanting { OnErr result (steps.new ≤ steps.old + charge_of allowance (judged (environment_of session.old.env) (task_of task) allowance)) }
{
    match judge(alloc, &session.env, &task, allowance, steps)? {
        None => {
            apply(alloc, session, end, task)?;
            Ok(Step::Accepted)
        }
        Some(refusal) => Ok(Step::Ended(Some(Fault { refusal, at: start }))),
    }
}
