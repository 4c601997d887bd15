//! The last accesses of a few lines.
ghost use Rattle.std.specs.Prelude.{◌<◌};
ghost use Rattle.pl_base.specs.declared.layout.TheConstants.{MEMORY_BYTES};
ghost use Rattle.pl_event.specs.Runs.{IsSoundLine};
ghost use Rattle.pl_event.specs.Valid.{IsValidEvent};

use crate::{Clock, LastAccesses};
use pl_base::{LoadWidth, StoreWidth};
use pl_event::{Arcs, Event, Kind, Line, Record};
use std::test::Fail;

fn load(hart: u8, addr: u32) -> Event
    requires hart { hart < 8 }
    requires addr { addr < MEMORY_BYTES }
    ensures { IsValidEvent result 8 }
{
    let (rd, rb, width) = (5, 8, LoadWidth::Bu);
    Event {
        hart,
        kind: Kind::Ld {
            width,
            rd,
            rb,
            addr,
        },
    }
}

fn store(hart: u8, addr: u32) -> Event
    requires hart { hart < 8 }
    requires addr { addr < MEMORY_BYTES }
    ensures { IsValidEvent result 8 }
{
    let (rv, rb, width) = (5, 8, StoreWidth::B);
    Event {
        hart,
        kind: Kind::St {
            width,
            rv,
            rb,
            addr,
        },
    }
}

fn line(event: Event) -> Line
    requires { IsValidEvent event 8 }
    ensures { IsSoundLine 8 result }
{
    Line {
        what: Record::Event(event),
        arcs: Arcs::none(),
    }
}

#[test]
fn the_last_access_of_each_other_hart_in_a_block_conflicts(rt: HostRuntime) -> Result<(), Fail> {
    let mut lasts = LastAccesses::new(rt.alloc(), 16)?;
    lasts.pass(&line(load(0, 0x10_0000)), 3)?;
    lasts.pass(&line(store(1, 0x10_000c)), 4)?;
    lasts.pass(&line(load(0, 0x10_000f)), 5)?;
    lasts.pass(&line(store(2, 0x10_0010)), 6)?;
    let stored = lasts.candidates(&store(3, 0x10_0004));
    assert_eq!(rt; stored.get(0), Some(5));
    assert_eq!(rt; stored.get(1), Some(4));
    assert_eq!(rt; stored.get(2), None);
    let loaded = lasts.candidates(&load(1, 0x10_0004));
    assert_eq!(rt; loaded.get(0), None);
    assert_eq!(rt; loaded.get(1), None);
    assert!(rt; lasts.are_known(&load(1, 0x10_0004), &Clock::zero()));
    assert!(rt; !lasts.are_known(&load(0, 0x10_0004), &Clock::zero()));
    Ok(())
}

#[test]
fn a_block_of_4_bytes_is_its_own(rt: HostRuntime) -> Result<(), Fail> {
    let mut lasts = LastAccesses::new(rt.alloc(), 4)?;
    lasts.pass(&line(store(1, 0x10_000c)), 4)?;
    assert_eq!(rt; lasts.candidates(&store(3, 0x10_0004)).get(1), None);
    assert_eq!(rt; lasts.candidates(&store(3, 0x10_000f)).get(1), Some(4));
    Ok(())
}
