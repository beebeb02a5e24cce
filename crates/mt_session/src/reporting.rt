// What a run writes.
ghost use Rattle.std.specs.Prelude.{◌≡◌, ◌++◌, IfOk, OnOk};
ghost use Rattle.mt_term.specs.StateOf.{state_of};
ghost use Rattle.mt_session.specs.Output.{reply, run_text, state_text};
ghost use Rattle.mt_session.specs.Runs.{ended, is_clean};
ghost use Rattle.mt_session.specs.Sessions.{state_in};
ghost use Rattle.mt_session.specs.Steps.{fault_in};

use crate::replying::{put, put_no, put_ok, put_place};
use crate::sessions::Session;
use mt_printer::{column, put_env, put_goals};
use mt_term::{Fault, OutOfMemory, PlainState};
use std::alloc::Global;

/// What a run writes, and whether no unit was refused and no proof is open.
#[derive(Drop)]
pub struct Report {
    pub text: Vec<u8>,
    pub clean: bool,
}

/// What a run writes that ends in a state, with a fault if there was one.
pub fn report_on(
    alloc: Global,
    text: &str,
    session: Session,
    fault: &Option<Fault>,
) -> Result<Report, OutOfMemory>
    ensures text { IfOk result (λ r. r.text.items ≡ run_text text.now (ended (state_in session) (fault_in fault.now))) }
    ensures clean { IfOk result (λ r. r.clean ≡ is_clean (ended (state_in session) (fault_in fault.now))) }
{
    let state = session.into_plain(alloc)?;
    let mut out = Vec::new(alloc);
    put_reply(alloc, &mut out, text, &state, fault)?;
    put_state(alloc, &mut out, &state)?;
    let clean = is_clean(&state, fault);
    Ok(Report { text: out, clean })
}

// Nothing was refused, and no proof is open.
fn is_clean(state: &PlainState, fault: &Option<Fault>) -> bool
    ensures { result ≡ is_clean (ended (state_of state.now) (fault_in fault.now)) }
{
    fault.is_none() && state.proof.is_none()
}

// A fault's place is on a character boundary, which is tested before its column is counted.
fn put_reply(
    alloc: Global,
    out: &mut Vec<u8>,
    text: &str,
    state: &PlainState,
    fault: &Option<Fault>,
) -> Result<(), OutOfMemory>
    ensures { OnOk result (out.new.items ≡ out.old.items ++ reply text.now (state_of state.now) (fault_in fault.now)) }
{
    match fault {
        None => put_ok(alloc, out, state.units, state.place),
        Some(found) => {
            if !text.is_char_boundary(found.at) {
                return Err(OutOfMemory);
            }
            let column = column(text, found.at);
            put_no(alloc, out, state.units, state.place, found, column)
        }
    }
}

fn put_state(alloc: Global, out: &mut Vec<u8>, state: &PlainState) -> Result<(), OutOfMemory>
    ensures { OnOk result (out.new.items ≡ out.old.items ++ state_text (state_of state.now)) }
{
    put_place(alloc, out, b"state ", state.units, state.place)?;
    put(out, b"\n")?;
    put_env(alloc, out, state)?;
    put_goals(alloc, out, state)?;
    put(out, b"end\n")
}
