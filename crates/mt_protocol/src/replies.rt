// Replies as they are written.
ghost use Rattle.std.specs.Prelude.{◌≡◌, ◌++◌, ◌∷◌, [], OnOk, reverse};
ghost use Rattle.mt_printer.specs.Prints.{Prints};
ghost use Rattle.mt_protocol.specs.Replies.{bad_edit_text, fault_text, followed_by, mismatch_lines, more_text, name_line, place_text, placed, reason_line, reason_name, refusal_text, reply_text, spot_text, type_lines};
ghost use Rattle.mt_term.specs.EnvironmentOf.{environment_of};
ghost use Rattle.mt_term.specs.ReasonOf.{reason_of};
ghost use Rattle.mt_term.specs.TreeOf.{tree_of};

use crate::environments::followed_by;
use crate::putting::{put, put_number};
use mt_printer::{PrintStop, context_names, put_term};
use mt_term::{Entries, Fault, Hyps, Name, Names, OutOfMemory, PlainEnv, Refusal, Term};
use mt_text::{Sink, write_all};
use std::alloc::Global;

/// A reply to a command that shows no state.
#[derive(Drop)]
pub enum Reply {
    /// The command was carried out: so many units are accepted, and the last ends at this place.
    Place {
        units: usize,
        place: usize,
    },
    /// A unit was refused. `column` is the column of the fault, and `env` the environment of the state.
    No {
        units: usize,
        place: usize,
        fault: Fault,
        column: usize,
        env: PlainEnv,
    },
    /// A text or an edit was not taken.
    BadEdit,
}

/// Writes the lines of a reply.
pub fn write_reply<O: Sink>(alloc: Global, out: &mut O, reply: &Reply) -> Result<(), PrintStop>
    ensures { Prints (O.got out.old) (O.got out.new) (O.faults out.old) (O.faults out.new) (reply_text reply.now) result }
{
    let mut text = Vec::new(alloc);
    match put_reply(alloc, &mut text, reply) {
        Ok(()) => written(out, &text),
        Err(OutOfMemory) => Err(PrintStop::OutOfMemory),
    }
}

// Writes a text whole.
fn written<O: Sink>(out: &mut O, text: &[u8]) -> Result<(), PrintStop>
    ensures { Prints (O.got out.old) (O.got out.new) (O.faults out.old) (O.faults out.new) text.now result }
{
    match write_all(out, text) {
        Ok(()) => Ok(()),
        Err(_) => Err(PrintStop::WriteFault),
    }
}

fn put_reply(alloc: Global, out: &mut Vec<u8>, reply: &Reply) -> Result<(), OutOfMemory>
    ensures { OnOk result (out.new.items ≡ out.old.items ++ reply_text reply.now) }
{
    match reply {
        Reply::Place { units, place } => put_ok(alloc, out, *units, *place),
        Reply::No {
            units,
            place,
            fault,
            column,
            env,
        } => put_refusal(alloc, out, *units, *place, fault, *column, env),
        Reply::BadEdit => put_bad_edit(out),
    }
}

#[tactic(auto, unfolding(crate::specs::Replies::bad_edit_text))]
fn put_bad_edit(out: &mut Vec<u8>) -> Result<(), OutOfMemory>
    ensures { OnOk result (out.new.items ≡ out.old.items ++ bad_edit_text) }
{
    put(out, b"bad edit\n")
}

// A word, the number of accepted units and the place.
fn put_placed(
    alloc: Global,
    out: &mut Vec<u8>,
    word: &[u8],
    units: usize,
    place: usize,
) -> Result<(), OutOfMemory>
    ensures { OnOk result (out.new.items ≡ out.old.items ++ placed word.now units place) }
{
    put(out, word)?;
    put_number(alloc, out, units as u64)?;
    put(out, b" ")?;
    put_number(alloc, out, place as u64)
}

#[tactic(auto, unfolding(crate::specs::Replies::place_text))]
fn put_ok(alloc: Global, out: &mut Vec<u8>, units: usize, place: usize) -> Result<(), OutOfMemory>
    ensures { OnOk result (out.new.items ≡ out.old.items ++ place_text units place) }
{
    put_placed(alloc, out, b"ok ", units, place)?;
    put(out, b"\n")
}

#[tactic(auto, unfolding(crate::specs::Replies::refusal_text))]
fn put_refusal(
    alloc: Global,
    out: &mut Vec<u8>,
    units: usize,
    place: usize,
    fault: &Fault,
    column: usize,
    env: &PlainEnv,
) -> Result<(), OutOfMemory>
    ensures { OnOk result (out.new.items ≡ out.old.items ++ refusal_text units place (reason_of fault.now.refusal) fault.now.at column (environment_of env.now)) }
{
    put_placed(alloc, out, b"no ", units, place)?;
    put_fault(alloc, out, &fault.refusal)?;
    put_spot(alloc, out, fault.at, column)?;
    put_more(alloc, out, env, &fault.refusal)
}

// The number and the name of a refusal.
fn put_fault(alloc: Global, out: &mut Vec<u8>, refusal: &Refusal) -> Result<(), OutOfMemory>
    ensures { OnOk result (out.new.items ≡ out.old.items ++ fault_text (reason_of refusal.now)) }
{
    put(out, b" ")?;
    put_number(alloc, out, u64::from(refusal.number()))?;
    put(out, b" ")?;
    put(out, reason_name(refusal))
}

// The place of a refusal, and its column.
fn put_spot(alloc: Global, out: &mut Vec<u8>, at: usize, column: usize) -> Result<(), OutOfMemory>
    ensures { OnOk result (out.new.items ≡ out.old.items ++ spot_text at column) }
{
    put(out, b" ")?;
    put_number(alloc, out, at as u64)?;
    put(out, b" ")?;
    put_number(alloc, out, column as u64)?;
    put(out, b"\n")
}

// The further lines of a refusal.
fn put_more(
    alloc: Global,
    out: &mut Vec<u8>,
    env: &PlainEnv,
    refusal: &Refusal,
) -> Result<(), OutOfMemory>
    ensures { OnOk result (out.new.items ≡ out.old.items ++ more_text (environment_of env.now) (reason_of refusal.now)) }
{
    match refusal {
        Refusal::Unbound(name) | Refusal::Taken(name) => put_name(out, name),
        Refusal::KernelRefused(reason) => put_reason(alloc, out, *reason),
        Refusal::Mismatch {
            context,
            inferred,
            expected,
            known,
        } => put_known(alloc, out, env, context, inferred, expected, known),
        _ => Ok(()),
    }
}

// The two types of a mismatch, over the environment followed by the entries that are known.
fn put_known(
    alloc: Global,
    out: &mut Vec<u8>,
    env: &PlainEnv,
    context: &Hyps,
    inferred: &Term,
    expected: &Term,
    known: &Entries,
) -> Result<(), OutOfMemory>
    ensures { OnOk result (out.new.items ≡ out.old.items ++ mismatch_lines (followed_by (environment_of env.now) known.now) (reverse (reverse context.now)) (tree_of inferred.now) (tree_of expected.now)) }
{
    let env = followed_by(alloc, env, known)?;
    put_mismatch(alloc, out, &env, context, inferred, expected)
}

fn put_name(out: &mut Vec<u8>, name: &Name) -> Result<(), OutOfMemory>
    ensures { OnOk result (out.new.items ≡ out.old.items ++ name_line name.now) }
{
    put(out, b"  name ")?;
    put(out, name.as_bytes())?;
    put(out, b"\n")
}

fn put_reason(alloc: Global, out: &mut Vec<u8>, reason: u8) -> Result<(), OutOfMemory>
    ensures { OnOk result (out.new.items ≡ out.old.items ++ reason_line reason) }
{
    put(out, b"  reason ")?;
    put_number(alloc, out, u64::from(reason))?;
    put(out, b"\n")
}

// The two types of a mismatch, under the names of its context.
fn put_mismatch(
    alloc: Global,
    out: &mut Vec<u8>,
    env: &PlainEnv,
    context: &Hyps,
    inferred: &Term,
    expected: &Term,
) -> Result<(), OutOfMemory>
    ensures { OnOk result (out.new.items ≡ out.old.items ++ mismatch_lines (environment_of env.now) context.now (tree_of inferred.now) (tree_of expected.now)) }
{
    let names = context_names(alloc, env, context, &[inferred, expected])?;
    put_types(alloc, out, env, &names, inferred, expected)
}

fn put_types(
    alloc: Global,
    out: &mut Vec<u8>,
    env: &PlainEnv,
    names: &Names,
    inferred: &Term,
    expected: &Term,
) -> Result<(), OutOfMemory>
    ensures { OnOk result (out.new.items ≡ out.old.items ++ type_lines (environment_of env.now) names.now (tree_of inferred.now) (tree_of expected.now)) }
{
    put(out, b"  inferred ")?;
    put_term(alloc, out, env, names, inferred)?;
    put(out, b"\n  expected ")?;
    put_term(alloc, out, env, names, expected)?;
    put(out, b"\n")
}

fn reason_name(refusal: &Refusal) -> &'static [u8]
    ensures { result.now ≡ reason_name (reason_of refusal.now) }
{
    match refusal {
        Refusal::Lex => b"Lex",
        Refusal::Syntax => b"Syntax",
        Refusal::Incomplete => b"Incomplete",
        Refusal::TooDeep => b"TooDeep",
        Refusal::Unbound(_) => b"Unbound",
        Refusal::Taken(_) => b"Taken",
        Refusal::Mismatch { .. } => b"Mismatch",
        Refusal::NotAFunction => b"NotAFunction",
        Refusal::NotASort => b"NotASort",
        Refusal::NoExpected => b"NoExpected",
        Refusal::Cycle => b"Cycle",
        Refusal::NotPositive => b"NotPositive",
        Refusal::NotGuarded => b"NotGuarded",
        Refusal::BadElimination => b"BadElimination",
        Refusal::BadHint => b"BadHint",
        Refusal::BadCoercion => b"BadCoercion",
        Refusal::OpenMetas => b"OpenMetas",
        Refusal::NoGoal => b"NoGoal",
        Refusal::NoBranch => b"NoBranch",
        Refusal::NoSuchPosition => b"NoSuchPosition",
        Refusal::NotHere => b"NotHere",
        Refusal::KernelRefused(_) => b"KernelRefused",
        Refusal::Spent => b"Spent",
    }
}
