// The top call.
ghost use Rattle.std.specs.Prelude.{◌≡◌, ◌+◌, ◌<◌, ◌≤◌, ◌↔◌, ℕ, if◌then◌else◌, length, IfOk, IfSome, IsErrOf};
ghost use Rattle.std.specs.Io.KnownBytes.{Appends, Keeps};
ghost use Rattle.std.specs.Str.{is_utf8};
ghost use Rattle.mt_text.specs.Causes.{Rose, AppendsPrefix};
ghost use Rattle.mt_env.specs.Names.{Distinct};
ghost use Rattle.mt_calculus.specs.Derivable.{Derivable};
ghost use Rattle.mt_term.specs.Naming.{naming};
ghost use Rattle.mt_session.specs.declared.serving.ReadStop.TheVariants.{OutOfMemory};
ghost use Rattle.mt_session.specs.Output.{output_of, status_of, charges_of, most};
ghost use Rattle.mt_session.specs.Runs.{empty_state, run_from};
ghost use Rattle.mt_session.specs.Served.{GivesAtMost, IsWhole, IsCut, IsUnread, IsAnswer, code_of};

use crate::reporting::Report;
use crate::running::run_script;
use mt_term::OutOfMemory;
use mt_text::{Ledger, Sink, Source, Steps, write_all};
use std::alloc::{AllocError, Global};

/// How a run ends.
#[derive(Clone, Copy, Debug, PartialEq, Eq)]
pub enum Status {
    /// All units were accepted, and no proof is open.
    Done,
    /// A unit was refused, or a proof is open at the end.
    Refused,
    /// The words are not of the form.
    Usage,
    /// The script is not UTF-8.
    BadFrame,
    /// The input has more bytes than a script may have.
    TooLong,
    /// The source failed.
    ReadFault,
    /// The sink failed.
    WriteFault,
    /// Memory was wanting.
    OutOfMemory,
}

impl Status {
    /// The exit status of the program.
    pub fn code(self) -> u8
        ensures { result ≡ code_of self }
    {
        match self {
            Status::Done => 0,
            Status::Refused => 1,
            Status::Usage => 2,
            Status::BadFrame => 3,
            Status::TooLong => 4,
            Status::ReadFault => 5,
            Status::WriteFault => 6,
            Status::OutOfMemory => 7,
        }
    }
}

/// Reads a script, checks its units in order, and writes what came of it.
pub fn serve<I: Source, O: Sink, L: Ledger>(
    alloc: Global,
    words: &[String],
    input: &mut I,
    output: &mut O,
    steps: &mut Steps<L>,
) -> Status
    // Usage comes exactly where there are words, and nothing is read or written then.
    ensures usage { (result ≡ Status.Usage) ↔ (0 < length words.now) }
    ensures unread { result ≡ Status.Usage → input.new ≡ input.old }
    ensures unwritten { result ≡ Status.Usage → output.new ≡ output.old }

    // Where the source tells its bytes, a whole run has their status and writes their output.
    ensures whole { IsWhole result → IfSome (I.left input.old) (λ bytes.
        (result ≡ status_of bytes) × Appends (O.got output.old) (O.got output.new) (output_of bytes)) }

    // A run that is cut off wrote a prefix of it, and one whose source failed wrote nothing,
    // and its source gave no more than a script may have.
    ensures cut { IsCut result → IfSome (I.left input.old) (λ bytes.
        AppendsPrefix (O.got output.old) (O.got output.new) (output_of bytes)) }
    ensures nothing { result ≡ Status.ReadFault → Keeps (O.got output.old) (O.got output.new) }
    ensures given { result ≡ Status.ReadFault → GivesAtMost most (I.left input.old) (I.left input.new) }

    // Where the source tells its bytes, a whole run has taken the steps that its units cost, and
    // any other has taken no more.
    ensures charges { IsWhole result → IfSome (I.left input.old) (λ bytes. steps.new ≡ steps.old + charges_of bytes) }
    ensures at_most { IfSome (I.left input.old) (λ bytes. steps.new ≤ steps.old + charges_of bytes) }
    ensures uncharged { IsUnread result → steps.new ≡ steps.old }

    // Each state of the run is derivable.
    ensures sound { IfSome (I.left input.old) (λ bytes. (n : ℕ) → Derivable (run_from bytes n empty_state).state) }

    // In each state of the run no two entries or constructors have one name.
    ensures names { IfSome (I.left input.old) (λ bytes. (n : ℕ) →
        Distinct (naming (run_from bytes n empty_state).state.env.entries)) }

    // A fault comes only from its device.
    ensures read { result ≡ Status.ReadFault → Rose (I.faults input.old) (I.faults input.new) }
    ensures write { result ≡ Status.WriteFault → Rose (O.faults output.old) (O.faults output.new) }
{
    if !words.is_empty() {
        return Status::Usage;
    }
    match read_script(alloc, input) {
        Ok(script) => answer(alloc, &script, output, steps),
        Err(ReadStop::TooLong) => Status::TooLong,
        Err(ReadStop::ReadFault) => Status::ReadFault,
        Err(ReadStop::OutOfMemory) => Status::OutOfMemory,
    }
}

// Runs what was read.
fn answer<O: Sink, L: Ledger>(
    alloc: Global,
    script: &[u8],
    output: &mut O,
    steps: &mut Steps<L>,
) -> Status
    requires { length script.now ≤ most }
    ensures which { IsAnswer result }
    ensures whole { IsWhole result → (result ≡ status_of script.now) × Appends (O.got output.old) (O.got output.new) (output_of script.now) }
    ensures cut { IsCut result → AppendsPrefix (O.got output.old) (O.got output.new) (output_of script.now) }
    ensures charges { IsWhole result → steps.new ≡ steps.old + charges_of script.now }
    ensures at_most { steps.new ≤ steps.old + charges_of script.now }
    ensures write { result ≡ Status.WriteFault → Rose (O.faults output.old) (O.faults output.new) }
{
    match str::from_utf8(script) {
        Ok(text) => report(alloc, text, output, steps),
        Err(_) => Status::BadFrame,
    }
}

// Runs a text and writes what came of it.
fn report<O: Sink, L: Ledger>(
    alloc: Global,
    text: &str,
    output: &mut O,
    steps: &mut Steps<L>,
) -> Status
    requires { length text.now ≤ most }
    ensures which { IsAnswer result }
    ensures whole { IsWhole result → (result ≡ status_of text.now) × Appends (O.got output.old) (O.got output.new) (output_of text.now) }
    ensures cut { IsCut result → AppendsPrefix (O.got output.old) (O.got output.new) (output_of text.now) }
    ensures charges { IsWhole result → steps.new ≡ steps.old + charges_of text.now }
    ensures at_most { steps.new ≤ steps.old + charges_of text.now }
    ensures write { result ≡ Status.WriteFault → Rose (O.faults output.old) (O.faults output.new) }
{
    match run_script(alloc, text, steps) {
        Ok(report) => write_report(&report, output),
        Err(_) => Status::OutOfMemory,
    }
}

// Writes what came of a run.
fn write_report<O: Sink>(report: &Report, output: &mut O) -> Status
    ensures which { IsAnswer result }
    ensures whole { IsWhole result → (result ≡ (if report.now.clean then Status.Done else Status.Refused))
        × Appends (O.got output.old) (O.got output.new) report.now.text.items }
    ensures cut { IsCut result → (result ≡ Status.WriteFault) × AppendsPrefix (O.got output.old) (O.got output.new) report.now.text.items }
    ensures write { result ≡ Status.WriteFault → Rose (O.faults output.old) (O.faults output.new) }
{
    match write_all(output, &report.text) {
        Ok(()) => {
            if report.clean {
                Status::Done
            } else {
                Status::Refused
            }
        }
        Err(_) => Status::WriteFault,
    }
}

#[derive(Clone, Copy)]
enum ReadStop {
    TooLong,
    ReadFault,
    OutOfMemory,
}

impl From<AllocError> for ReadStop {
    ghost from_gives = { λ _ e. e ≡ OutOfMemory };

    fn from(_: AllocError) -> Self {
        ReadStop::OutOfMemory
    }
}

// The most bytes of a script.
const MOST: usize = 1_048_576;

// Reads to the end, or to one byte more than a script may have.
fn read_script<I: Source>(alloc: Global, input: &mut I) -> Result<Vec<u8>, ReadStop>
    ensures bytes { IfOk result (λ v. IfSome (I.left input.old) (λ bytes. v.items ≡ bytes)) }
    ensures short { IfOk result (λ v. length v.items ≤ most) }
    ensures long { IsErrOf result ReadStop.TooLong → IfSome (I.left input.old) (λ bytes. most < length bytes) }
    ensures given { IsErrOf result ReadStop.ReadFault → GivesAtMost most (I.left input.old) (I.left input.new) }
    ensures cause { IsErrOf result ReadStop.ReadFault → Rose (I.faults input.old) (I.faults input.new) }
{
    let mut script = Vec::new(alloc);
    let mut buf = [0u8; 4096];
    while script.len() <= MOST {
        match input.read(&mut buf) {
            Ok(0) => return Ok(script),
            Ok(count) => script.extend_from_slice(&buf[..count])?,
            Err(_) => return Err(ReadStop::ReadFault),
        }
    }
    Err(ReadStop::TooLong)
}
