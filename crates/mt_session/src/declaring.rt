// Units that declare an entry.
ghost use Rattle.std.specs.Prelude.{◌≡◌, ◌<◌, ◌≤◌, ◌+◌, None, IfOk, OnOk, OnErr};
ghost use Rattle.mt_decl.specs.Declares.{DeclaresFrom};
ghost use Rattle.mt_decl.specs.Declaring.{declared_entry};
ghost use Rattle.mt_term.specs.EntryOf.{declaration_of};
ghost use Rattle.mt_term.specs.EnvironmentOf.{environment_of};
ghost use Rattle.mt_unit_parser.specs.UnitOf.{kind_of, unit_of};
ghost use Rattle.mt_session.specs.Moves.{charges_in, move_declared};
ghost use Rattle.mt_session.specs.Ready.{SoundState};
ghost use Rattle.mt_session.specs.Sessions.{AreTables, state_in};
ghost use Rattle.mt_session.specs.Steps.{MovesAs};

use crate::applying::enter;
use crate::running::{ALLOWANCE, Step};
use crate::sessions::Session;
use mt_decl::declare_plain;
use mt_term::{Entry, Fault, Halt, OutOfMemory, Refusal};
use mt_text::{Ledger, Steps};
use mt_unit_parser::Unit;
use std::alloc::Global;

/// Takes a unit that declares an entry.
pub fn take_entry<L: Ledger>(
    alloc: Global,
    session: &mut Session,
    unit: &Unit,
    steps: &mut Steps<L>,
) -> Result<Step, OutOfMemory>
    requires tables { AreTables session.old }
    requires sound { SoundState (state_in session.old) }
    requires outside { (state_in session.old).proof ≡ None }
    requires room { session.old.units < unit.now.span.end }
    ensures moves { IfOk result (λ s. MovesAs (move_declared (state_in session.old) (unit_of unit.now) 100000) session.old session.new s) }
    ensures cost { OnOk result (steps.new ≡ steps.old + charges_in 100000 (move_declared (state_in session.old) (unit_of unit.now) 100000)) }
    ensures wanting { OnErr result (steps.new ≤ steps.old + charges_in 100000 (move_declared (state_in session.old) (unit_of unit.now) 100000)) }
{
    match declare(alloc, session, unit, steps) {
        Ok(entry) => {
            enter(alloc, session, unit.span.end, entry)?;
            Ok(Step::Accepted)
        }
        Err(Halt::Refused(fault)) => Ok(Step::Ended(Some(fault))),
        Err(Halt::Spent) => {
            let at = unit.span.start;
            Ok(Step::Ended(Some(Fault {
                refusal: Refusal::Spent,
                at,
            })))
        }
        Err(Halt::OutOfMemory) => Err(OutOfMemory),
    }
}

// The entry that a unit declares.
fn declare<L: Ledger>(
    alloc: Global,
    session: &mut Session,
    unit: &Unit,
    steps: &mut Steps<L>,
) -> Result<Entry, Halt>
    requires tables { AreTables session.old }
    ensures state { state_in session.new ≡ state_in session.old }
    ensures tables { AreTables session.new }
    ensures answer { DeclaresFrom declaration_of (declared_entry (environment_of session.old.env) unit.now.span.start (kind_of unit.now.kind) 100000) 100000 steps.old steps.new result }
{
    declare_plain(
        alloc,
        &mut session.pool,
        &session.held,
        &mut session.env,
        &mut session.names,
        unit,
        ALLOWANCE,
        steps,
    )
}
