// Whole runs from memory to memory.
ghost use Rattle.std.specs.Prelude.{◌≡◌, ◌<◌};

use mt_session::{Status, serve};
use mt_text::{Ledger, MemorySink, MemorySource, PlainLedger, Sink, Source, Steps};
use std::alloc::Global;
use std::sync::ledger::Blank;
use std::test::Fail;

fn counted<L: Ledger, I: Source, O: Sink>(
    alloc: Global,
    words: &[String],
    input: &mut I,
    output: &mut O,
    blank: Blank,
) -> Status
    requires name { blank.name ≡ L.name }
    requires parts { blank.parts ≡ L.parts }
    requires some { 0 < L.parts }
{
    let mut steps = Steps::<L>::new(blank);
    serve(alloc, words, input, output, &mut steps)
}

// Serves a script from memory, in pieces. The listed reads and writes fail.
fn served(
    alloc: Global,
    words: &[String],
    script: &[u8],
    reads: &[u64],
    writes: &[u64],
) -> Result<(Status, MemorySink), Fail> {
    let mut input = MemorySource::new(script.to_vec(alloc)?, 3, reads.to_vec(alloc)?);
    let mut output = MemorySink::new(alloc, 4096, 7, writes.to_vec(alloc)?)?;
    let status = counted::<PlainLedger, _, _>(alloc, words, &mut input, &mut output, Blank::new(1));
    Ok((status, output))
}

#[test]
fn each_script_has_its_output_and_status(rt: HostRuntime) -> Result<(), Fail> {
    let alloc = rt.alloc();
    let cases: [(&str, Status, &str); 15] = [
        (
            "",
            Status::Done,
            "ok 0 0\nstate 0 0\nenv 0\nproof none\nend\n",
        ),
        (
            "axiom a : Prop. definition i : Type[1] ≝ Type[0].",
            Status::Done,
            "ok 2 51\nstate 2 51\nenv 2\naxiom a : Prop.\ndefinition i : Type[1] ≝ Type[0].\nproof none\nend\n",
        ),
        (
            "definition t : Type[0] ≝ Type[0].",
            Status::Refused,
            "no 0 0 22 KernelRefused 0 1\n  reason 7\nstate 0 0\nenv 0\nproof none\nend\n",
        ),
        (
            "axiom a Prop.",
            Status::Refused,
            "no 0 0 2 Syntax 8 9\nstate 0 0\nenv 0\nproof none\nend\n",
        ),
        (
            "axiom a : %.",
            Status::Refused,
            "no 0 0 1 Lex 10 11\nstate 0 0\nenv 0\nproof none\nend\n",
        ),
        (
            "axiom a : Prop",
            Status::Refused,
            "no 0 0 3 Incomplete 14 15\nstate 0 0\nenv 0\nproof none\nend\n",
        ),
        (
            "axiom a : b.",
            Status::Refused,
            "no 0 0 5 Unbound 10 11\n  name b\nstate 0 0\nenv 0\nproof none\nend\n",
        ),
        (
            "axiom a : Prop. axiom a : Prop.",
            Status::Refused,
            "no 1 15 6 Taken 16 17\n  name a\nstate 1 15\nenv 1\naxiom a : Prop.\nproof none\nend\n",
        ),
        (
            "universe constraint a < b. universe constraint b < c. universe constraint c < a.",
            Status::Refused,
            "no 2 53 11 Cycle 54 55\nstate 2 53\nenv 2\nuniverse constraint a < b.\nuniverse constraint b < c.\nproof none\nend\n",
        ),
        (
            "theorem t : Type[1]. exact Type[0]. qed.",
            Status::Done,
            "ok 4 40\nstate 4 40\nenv 1\ndefinition t : Type[1] ≝ Type[0].\nproof none\nend\n",
        ),
        (
            "theorem t : Type[1]. qed.",
            Status::Refused,
            "no 1 20 17 OpenMetas 21 22\nstate 1 20\nenv 0\nproof t : Type[1]\ngoals 1\ngoal 0 focus\n  ⊢ Type[1]\nterm ?0[]\nend\n",
        ),
        (
            "qed.",
            Status::Refused,
            "no 0 0 21 NotHere 0 1\nstate 0 0\nenv 0\nproof none\nend\n",
        ),
        (
            "inductive nat : Type[0] ≝ O : nat | S : nat → nat.",
            Status::Done,
            "ok 1 54\nstate 1 54\nenv 1\ninductive nat : Type[0] ≝ | O : nat | S : nat → nat.\nproof none\nend\n",
        ),
        (
            "axiom T : Type[0]. inductive bad : Type[0] ≝ c : (bad → T) → bad.",
            Status::Refused,
            "no 1 18 12 NotPositive 47 46\nstate 1 18\nenv 1\naxiom T : Type[0].\nproof none\nend\n",
        ),
        (
            "inductive nat : Type[0] ≝ O : nat. let rec f (n:nat) on n : nat ≝ f n.",
            Status::Refused,
            "no 1 36 13 NotGuarded 37 36\nstate 1 36\nenv 1\ninductive nat : Type[0] ≝ | O : nat.\nproof none\nend\n",
        ),
    ];
    for (script, wanted, text) in &cases {
        let (status, output) = served(alloc, &[], script.as_bytes(), &[], &[])?;
        assert_eq!(rt; status, *wanted);
        assert_eq!(rt; output.bytes(), text.as_bytes());
    }
    Ok(())
}

#[test]
fn other_endings_have_their_status(rt: HostRuntime) -> Result<(), Fail> {
    let alloc = rt.alloc();
    let (status, output) = served(alloc, &[], b"axiom \xff", &[], &[])?;
    assert_eq!(rt; status, Status::BadFrame);
    assert_eq!(rt; output.bytes().len(), 0);
    let (status, output) = served(alloc, &[], b"axiom a : Prop.", &[2], &[])?;
    assert_eq!(rt; status, Status::ReadFault);
    assert_eq!(rt; status.code(), 5);
    assert_eq!(rt; output.bytes().len(), 0);
    let (status, output) = served(alloc, &[], b"", &[], &[0])?;
    assert_eq!(rt; status, Status::WriteFault);
    assert_eq!(rt; status.code(), 6);
    assert_eq!(rt; output.bytes().len(), 0);
    let word = String::from_str(alloc, "run")?;
    let (status, output) = served(alloc, &[word], b"", &[], &[])?;
    assert_eq!(rt; status, Status::Usage);
    assert_eq!(rt; output.bytes().len(), 0);
    Ok(())
}
