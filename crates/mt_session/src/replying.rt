// The text of replies.
ghost use Rattle.std.specs.Prelude.{◌≡◌, ◌++◌, OnOk};
ghost use Rattle.std.specs.Fmt.{decimal};
ghost use Rattle.mt_term.specs.ReasonOf.{reason_of};
ghost use Rattle.mt_session.specs.Output.{fault_text, more_of, name_line, no_text, ok_text, placed, reason_name, spot_text};

use mt_term::{Fault, Name, OutOfMemory, Refusal};
use std::alloc::Global;

/// Appends bytes.
pub fn put(out: &mut Vec<u8>, text: &[u8]) -> Result<(), OutOfMemory>
    ensures { OnOk result (out.new.items ≡ out.old.items ++ text.now) }
{
    out.extend_from_slice(text)
}

fn put_number(alloc: Global, out: &mut Vec<u8>, number: u64) -> Result<(), OutOfMemory>
    ensures { OnOk result (out.new.items ≡ out.old.items ++ decimal number) }
{
    let text = number.to_string(alloc)?;
    put(out, text.as_bytes())
}

/// A word, the number of accepted units and the place.
pub fn put_place(
    alloc: Global,
    out: &mut Vec<u8>,
    word: &[u8],
    units: usize,
    place: usize,
) -> Result<(), OutOfMemory>
    ensures { OnOk result (out.new.items ≡ out.old.items ++ placed word.now units place) }
{
    put(out, word)?;
    put_number(alloc, out, units as u64)?;
    put(out, b" ")?;
    put_number(alloc, out, place as u64)
}

/// Appends the reply where no unit was refused.
pub fn put_ok(
    alloc: Global,
    out: &mut Vec<u8>,
    units: usize,
    place: usize,
) -> Result<(), OutOfMemory>
    ensures { OnOk result (out.new.items ≡ out.old.items ++ ok_text units place) }
{
    put_place(alloc, out, b"ok ", units, place)?;
    put(out, b"\n")
}

/// Appends the reply where a unit was refused.
pub fn put_no(
    alloc: Global,
    out: &mut Vec<u8>,
    units: usize,
    place: usize,
    fault: &Fault,
    column: usize,
) -> Result<(), OutOfMemory>
    ensures { OnOk result (out.new.items ≡ out.old.items ++ no_text units place (reason_of fault.now.refusal) fault.now.at column) }
{
    put_place(alloc, out, b"no ", units, place)?;
    put_fault(alloc, out, &fault.refusal)?;
    put_spot(alloc, out, fault.at, column)?;
    put_more(alloc, out, &fault.refusal)
}

// The number and the name of a refusal.
fn put_fault(alloc: Global, out: &mut Vec<u8>, refusal: &Refusal) -> Result<(), OutOfMemory>
    ensures { OnOk result (out.new.items ≡ out.old.items ++ fault_text (reason_of refusal.now)) }
{
    put(out, b" ")?;
    put_number(alloc, out, u64::from(refusal.number()))?;
    put(out, b" ")?;
    put(out, reason_name(refusal))
}

// The place of a refusal, and its column.
fn put_spot(alloc: Global, out: &mut Vec<u8>, at: usize, column: usize) -> Result<(), OutOfMemory>
    ensures { OnOk result (out.new.items ≡ out.old.items ++ spot_text at column) }
{
    put(out, b" ")?;
    put_number(alloc, out, at as u64)?;
    put(out, b" ")?;
    put_number(alloc, out, column as u64)?;
    put(out, b"\n")
}

// The line that says the name, or the kernel's reason.
fn put_more(alloc: Global, out: &mut Vec<u8>, refusal: &Refusal) -> Result<(), OutOfMemory>
    ensures { OnOk result (out.new.items ≡ out.old.items ++ more_of (reason_of refusal.now)) }
{
    match refusal {
        Refusal::Unbound(name) | Refusal::Taken(name) => put_name(out, name),
        Refusal::KernelRefused(reason) => {
            put(out, b"  reason ")?;
            put_number(alloc, out, u64::from(*reason))?;
            put(out, b"\n")
        }
        _ => Ok(()),
    }
}

fn put_name(out: &mut Vec<u8>, name: &Name) -> Result<(), OutOfMemory>
    ensures { OnOk result (out.new.items ≡ out.old.items ++ name_line name.now) }
{
    put(out, b"  name ")?;
    put(out, name.as_bytes())?;
    put(out, b"\n")
}

fn reason_name(refusal: &Refusal) -> &'static [u8]
    ensures { result.now ≡ reason_name (reason_of refusal.now) }
{
    match refusal {
        Refusal::Lex => b"Lex",
        Refusal::Syntax => b"Syntax",
        Refusal::Incomplete => b"Incomplete",
        Refusal::TooDeep => b"TooDeep",
        Refusal::Unbound(_) => b"Unbound",
        Refusal::Taken(_) => b"Taken",
        Refusal::Mismatch { .. } => b"Mismatch",
        Refusal::NotAFunction => b"NotAFunction",
        Refusal::NotASort => b"NotASort",
        Refusal::NoExpected => b"NoExpected",
        Refusal::Cycle => b"Cycle",
        Refusal::NotPositive => b"NotPositive",
        Refusal::NotGuarded => b"NotGuarded",
        Refusal::BadElimination => b"BadElimination",
        Refusal::BadHint => b"BadHint",
        Refusal::BadCoercion => b"BadCoercion",
        Refusal::OpenMetas => b"OpenMetas",
        Refusal::NoGoal => b"NoGoal",
        Refusal::NoBranch => b"NoBranch",
        Refusal::NoSuchPosition => b"NoSuchPosition",
        Refusal::NotHere => b"NotHere",
        Refusal::KernelRefused(_) => b"KernelRefused",
        Refusal::Spent => b"Spent",
    }
}
