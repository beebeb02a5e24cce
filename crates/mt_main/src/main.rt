//! Reads a script from standard input, checks its units in order, and writes what came of it.
#![tactic(auto)]

ghost use Rattle.std.specs.Prelude.{◌≡◌, ◌<◌};

use mt_session::{Status, serve};
use mt_text::{Ledger, PlainLedger, ReadAdapter, Sink, Source, Steps, WriteAdapter};
use std::alloc::Global;
use std::io::ErrorKind;
use std::process::ExitCode;
use std::sync::ledger::Blank;

fn main(rt: HostRuntime) -> ExitCode {
    ExitCode::from(run(&rt).code())
}

// Takes the words, and serves standard input.
fn run(rt: &HostRuntime) -> Status {
    let alloc = rt.alloc();
    let mut words = Vec::new(alloc);
    match std::env::args(rt) {
        Ok(args) => {
            for word in args.skip(1) {
                if words.push(word).is_err() {
                    return Status::OutOfMemory;
                }
            }
        }
        Err(error) if error.kind() == ErrorKind::OutOfMemory => return Status::OutOfMemory,
        Err(_) => return Status::Usage,
    }
    let mut input = ReadAdapter::new(rt.stdin());
    let mut output = WriteAdapter::new(rt.stdout());
    counted::<PlainLedger, _, _>(alloc, &words, &mut input, &mut output, Blank::new(1))
}

// Serves with a counter of its own.
fn counted<L: Ledger, I: Source, O: Sink>(
    alloc: Global,
    words: &[String],
    input: &mut I,
    output: &mut O,
    blank: Blank,
) -> Status
    requires name { blank.name ≡ L.name }
    requires parts { blank.parts ≡ L.parts }
    requires some { 0 < L.parts }
{
    let mut steps = Steps::<L>::new(blank);
    serve(alloc, words, input, output, &mut steps)
}
