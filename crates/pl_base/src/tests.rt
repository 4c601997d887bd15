//! What no clause says, and each public call once.
ghost use Rattle.std.specs.Prelude.{◌≡◌, ◌<◌, Some};

use crate::{
    CleanSink, CleanSource, Failed, Gate, LineBuffer, LoadWidth, MemSink, MemSource, OpenGate,
    ReadEnd, Sink, Source, Steps, StoreWidth, read_all, write_all_counted,
};
use std::alloc::{AllocError, Global};
use std::marker::Brand;
use std::mem::size_of_val;
use std::sync::ledger::{Blank, Ledger};
use std::test::Fail;

#[test]
fn a_source_gives_pieces_and_fails_at_its_call(rt: HostRuntime) -> Result<(), Fail> {
    let alloc = rt.alloc();
    let mut source = MemSource::new(b"abcdef".to_vec(alloc)?, 4, [2].to_vec(alloc)?);
    let mut into = [0; 5];
    assert_eq!(rt; source.read(&mut into), Ok(4));
    assert_eq!(rt; into, *b"abcd\0");
    assert_eq!(rt; source.read(&mut into), Err(Failed));
    assert_eq!(rt; source.read(&mut into), Ok(2));
    assert_eq!(rt; into[..2], b"ef"[..]);
    assert_eq!(rt; source.read(&mut into), Ok(0));
    Ok(())
}

#[test]
fn a_sink_takes_pieces_and_fails_at_its_call_and_without_room(rt: HostRuntime) -> Result<(), Fail> {
    let alloc = rt.alloc();
    let mut sink = MemSink::new(alloc, 6, 4, [2].to_vec(alloc)?)?;
    assert_eq!(rt; sink.write(b"abcde"), Ok(4));
    assert_eq!(rt; sink.write(b"e"), Err(Failed));
    assert_eq!(rt; write_all_counted(&mut sink, b"efg"), Err(Failed));
    assert_eq!(rt; sink.written(), b"abcdef".as_slice());
    Ok(())
}

#[test]
fn clean_ends_never_fail(rt: HostRuntime) -> Result<(), Fail> {
    let alloc = rt.alloc();
    let mut source = CleanSource::new(b"abc".to_vec(alloc)?);
    let mut into = [0; 2];
    assert_eq!(rt; source.read(&mut into), Ok(2));
    assert_eq!(rt; source.read(&mut into), Ok(1));
    assert_eq!(rt; source.read(&mut into), Ok(0));
    assert_eq!(rt; into, *b"cb");
    assert_eq!(rt; write_all_counted(&mut CleanSink::new(), b"abc"), Ok(()));
    OpenGate.pass(0, 1);
    Ok(())
}

/// A source that keeps how many reads there were, and the least room that one of them had.
#[derive(Drop)]
struct Watched {
    source: MemSource,
    calls: u32,
    least: usize,
}

impl Watched {
    /// Gives these seven bytes in two pieces, and then says that it is at its end.
    fn new(alloc: Global) -> Result<Watched, AllocError> {
        Ok(Watched {
            source: MemSource::new(b"PREP 1\n".to_vec(alloc)?, 4, Vec::new(alloc)),
            calls: 0,
            least: usize::MAX,
        })
    }
}

impl Source for Watched {
    ghost left = { λ s. Some s.source.left };

    ghost faults = { λ s. s.source.plan.faults };

    fn read(&mut self, into: &mut [u8]) -> Result<usize, Failed> {
        self.calls = self.calls.saturating_add(1);
        self.least = self.least.min(into.len());
        self.source.read(into)
    }
}

#[test]
fn a_source_is_asked_for_64_bytes_and_more_and_never_after_its_end(
    rt: HostRuntime,
) -> Result<(), Fail> {
    let alloc = rt.alloc();
    let mut source = Watched::new(alloc)?;
    assert_eq!(rt;
        read_all(alloc, &mut source, 7)?.as_slice(),
        b"PREP 1\n".as_slice()
    );
    assert_eq!(rt; source.calls, 3);
    assert!(rt; source.least >= 64);

    let mut source = Watched::new(alloc)?;
    let mut lines = LineBuffer::new(alloc, 7)?;
    lines.fill(&mut source)?;
    assert_eq!(rt; lines.front(), b"PREP 1\n".as_slice());
    assert_eq!(rt; source.calls, 2);
    lines.skip_rest(&mut source)?;
    lines.skip_rest(&mut source)?;
    assert!(rt; lines.is_ended());
    assert_eq!(rt; source.calls, 3);
    assert!(rt; source.least >= 64);
    Ok(())
}

#[test]
fn a_source_past_the_limit_is_too_long(rt: HostRuntime) -> Result<(), Fail> {
    let alloc = rt.alloc();
    let mut source = Watched::new(alloc)?;
    assert_eq!(rt;
        read_all(alloc, &mut source, 6).err(),
        Some(ReadEnd::TooLong)
    );
    let mut source = Watched::new(alloc)?;
    let mut lines = LineBuffer::new(alloc, 6)?;
    assert_eq!(rt; lines.skip_rest(&mut source), Err(ReadEnd::TooLong));
    Ok(())
}

/// How many bytes a count takes after two steps.
fn bytes_of_two_steps<L: Ledger>(blank: Blank) -> usize
    requires { (blank.name ≡ L.name) × (blank.parts ≡ L.parts) × (0 < blank.parts) }
{
    let mut steps = Steps::<L>::new(blank);
    steps.tick();
    steps.tick();
    size_of_val(&steps)
}

#[test]
fn steps_take_no_bytes(rt: HostRuntime) {
    let bytes = bytes_of_two_steps::<Brand>(Blank::new(1));
    assert_eq!(rt; bytes, 0);
}

#[test]
fn widths_are_of_one_two_or_four_bytes(rt: HostRuntime) {
    let loads = [
        LoadWidth::B,
        LoadWidth::H,
        LoadWidth::W,
        LoadWidth::Bu,
        LoadWidth::Hu,
    ];
    for (width, wanted) in loads.iter().zip([1, 2, 4, 1, 2].iter()) {
        assert_eq!(rt; width.bytes(), *wanted);
    }
    let stores = [StoreWidth::B, StoreWidth::H, StoreWidth::W];
    for (width, wanted) in stores.iter().zip([1, 2, 4].iter()) {
        assert_eq!(rt; width.bytes(), *wanted);
    }
}
