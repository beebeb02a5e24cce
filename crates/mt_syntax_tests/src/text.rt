// Each public call once, with ample memory.
ghost use Rattle.std.specs.Prelude.{◌≡◌, ◌<◌, ◌+◌};

use mt_text::{
    Failed, Ledger, MemorySink, MemorySource, PlainLedger, ReadAdapter, Sink, Source, SteadySink,
    SteadySource, Steps, WriteAdapter, write_all,
};
use std::sync::ledger::Blank;
use std::test::Fail;

fn read_some<I: Source>(input: &mut I, buf: &mut [u8]) -> Result<usize, Failed> {
    input.read(buf)
}

#[test]
fn a_sink_in_memory_fails_at_its_listed_write_and_when_it_is_full(
    rt: HostRuntime,
) -> Result<(), Fail> {
    let alloc = rt.alloc();
    let mut sink = MemorySink::new(alloc, 2, 1, [1u64].to_vec(alloc)?)?;
    assert_eq!(rt; write_all(&mut sink, b"ab"), Err(Failed));
    assert_eq!(rt; sink.bytes(), b"a".as_slice());
    assert_eq!(rt; write_all(&mut sink, b"b"), Ok(()));
    assert_eq!(rt; sink.bytes(), b"ab".as_slice());
    assert_eq!(rt; write_all(&mut sink, b"c"), Err(Failed));
    assert_eq!(rt; sink.bytes(), b"ab".as_slice());
    Ok(())
}

#[test]
fn a_source_in_memory_gives_pieces_and_fails_at_its_listed_read(
    rt: HostRuntime,
) -> Result<(), Fail> {
    let alloc = rt.alloc();
    let mut source = MemorySource::new(b"abc".to_vec(alloc)?, 2, [1u64].to_vec(alloc)?);
    let mut buf = [0u8; 4];
    assert_eq!(rt; read_some(&mut source, &mut buf), Ok(2));
    assert_eq!(rt; buf[1], b'b');
    assert_eq!(rt; read_some(&mut source, &mut buf), Err(Failed));
    assert_eq!(rt; read_some(&mut source, &mut buf), Ok(1));
    assert_eq!(rt; buf[0], b'c');
    assert_eq!(rt; read_some(&mut source, &mut buf), Ok(0));
    Ok(())
}

#[test]
fn steady_devices_and_adapters_pass_all_bytes(rt: HostRuntime) -> Result<(), Fail> {
    let alloc = rt.alloc();
    let mut buf = [0u8; 4];
    let mut source = SteadySource::new(b"abc".to_vec(alloc)?, 2);
    assert_eq!(rt; read_some(&mut source, &mut buf), Ok(2));
    let mut adapter = ReadAdapter::new(b"xyz".as_slice());
    assert_eq!(rt; read_some(&mut adapter, &mut buf), Ok(3));
    assert_eq!(rt; buf[2], b'z');
    let mut counter = SteadySink::new(2);
    assert_eq!(rt; write_all(&mut counter, b"abcde"), Ok(()));
    assert_eq!(rt; counter.count(), 5);
    let mut writer = WriteAdapter::new(Vec::new(alloc));
    assert_eq!(rt; write_all(&mut writer, b"abcde"), Ok(()));
    assert_eq!(rt; writer.inner.as_slice(), b"abcde".as_slice());
    let mut full = [0u8; 2];
    let mut narrow = WriteAdapter::new(full.as_mut_slice());
    assert_eq!(rt; write_all(&mut narrow, b"abc"), Err(Failed));
    assert_eq!(rt; narrow.raised, 1);
    Ok(())
}

fn tick_twice<L: Ledger>(steps: &mut Steps<L>)
    ensures { steps.new ≡ steps.old + 2 }
{
    steps.tick();
    steps.tick();
}

fn counted<L: Ledger>(blank: Blank)
    requires name { blank.name ≡ L.name }
    requires parts { blank.parts ≡ L.parts }
    requires some { 0 < L.parts }
{
    let mut steps = Steps::<L>::new(blank);
    tick_twice(&mut steps);
}

#[test]
fn ticks_are_counted(_rt: HostRuntime) {
    counted::<PlainLedger>(Blank::new(1));
}
