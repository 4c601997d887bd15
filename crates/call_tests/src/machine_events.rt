//! The event of each instruction, and the pages of the start.

use core_sim::{Machine, StepOut, start_pages};
use guest_asm::read_job;
use pl_base::{FaultCause, LoadWidth, NoMemory, StoreWidth};
use pl_event::{Kind, PageKind, PageRun};
use std::test::Fail;

/// A guest with an instruction for each kind of event that no call of the kernel makes.
const GUEST: &str =
    ".harts 1\n.schedule rr 1\n.steps 10\n.data\n.word 0\n.text\nlui t0, 256\nmv t1, t0\n\
    ori t1, t0, 0\nxor t2, t0, t0\nsw t1, 0(t0)\nlbu t2, 1(t0)\nbeqz t1, on\non: fence\njalr ra, 2(zero)\n";

/// The kind of the next step's event.
fn next_kind(machine: &mut Machine) -> Result<Option<Kind>, NoMemory> {
    match machine.step()? {
        StepOut::Did(group) => Ok(Some(group.at(group.len() - 1).kind)),
        StepOut::Halted | StepOut::Limit => Ok(None),
    }
}

#[test]
fn each_instruction_has_its_event(rt: HostRuntime) -> Result<(), Fail> {
    let alloc = rt.alloc();
    let job = read_job(alloc, GUEST.as_bytes()).ok().ok_or("no job")?;
    let mut machine = Machine::new(alloc, &job)?;
    for kind in [
        Kind::Im { rd: 5 },
        Kind::Mv { rd: 6, rs: 5 },
        Kind::Op {
            rd: 6,
            r1: 5,
            r2: 0,
        },
        Kind::Im { rd: 7 },
        Kind::St {
            width: StoreWidth::W,
            rv: 6,
            rb: 5,
            addr: 0x10_0000,
        },
        Kind::Ld {
            width: LoadWidth::Bu,
            rd: 7,
            rb: 5,
            addr: 0x10_0001,
        },
        Kind::Br { r1: 6, r2: 0 },
        Kind::Im { rd: 0 },
        Kind::Jr { rd: 1, rs: 0 },
        Kind::Ft {
            cause: FaultCause::Pc,
            addr: 2,
        },
    ] {
        assert_eq!(rt; next_kind(&mut machine)?, Some(kind));
    }
    assert!(rt; matches!(machine.step()?, StepOut::Halted));
    Ok(())
}

#[test]
fn the_stacks_are_the_last_pages_of_the_start(rt: HostRuntime) -> Result<(), Fail> {
    let alloc = rt.alloc();
    let job = read_job(alloc, GUEST.as_bytes()).ok().ok_or("no job")?;
    let pages = start_pages(alloc, &job)?;
    let stacks = PageRun {
        first: 3840,
        count: 4,
        kind: PageKind::Stack,
    };
    assert_eq!(rt; pages.len(), 4);
    assert_eq!(rt; pages.get(3).copied(), Some(stacks));
    Ok(())
}
