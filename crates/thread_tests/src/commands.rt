//! The same gates under the commands `watch` and `monitor`.

use crate::gates::{Meeting, Order};
use crate::jobs::one_step_each;
use crate::logs::one_record_each;
use crate::orders::TEXT;
use paralog_top::{Status, paralog};
use pl_base::{Gate, MemSink, MemSource, NoMemory};
use std::alloc::Global;
use std::sync::Wait;
use std::test::Fail;
use std::thread::Threads;

/// What a command came to.
#[derive(Drop)]
struct Ended {
    status: Status,
    out: MemSink,
}

/// Runs a command of these three words on a text, under a gate.
fn run<R: Threads + Wait + Sync, G: Gate + Sync>(
    rt: &R,
    alloc: Global,
    command: &str,
    text: &str,
    gate: &G,
) -> Result<Ended, NoMemory> {
    let mut words = Vec::new(alloc);
    for word in command.split(' ') {
        words.push(format!(in alloc; "{word}")?)?;
    }
    let bytes = Vec::from_slice(alloc, text.as_bytes())?;
    let mut source = MemSource::new(bytes, 4096, Vec::new(alloc));
    let mut out = MemSink::new(alloc, 4096, 4096, Vec::new(alloc))?;
    let mut notes = MemSink::new(alloc, 4096, 4096, Vec::new(alloc))?;
    let probes = Vec::new(alloc);
    let status = paralog(
        rt,
        alloc,
        &words,
        &mut source,
        &mut out,
        &mut notes,
        gate,
        probes,
    );
    Ok(Ended { status, out })
}

/// Whether the workers of so many harts meet under `watch`.
fn meet_watching<R: Threads + Wait + Sync>(
    rt: &R,
    alloc: Global,
    harts: u8,
) -> Result<bool, NoMemory> {
    let gate = Meeting::new(harts);
    let text = one_record_each(alloc, harts)?;
    let command = format!(in alloc; "watch addrcheck {harts}")?;
    let ended = run(rt, alloc, command.as_str(), text.as_str(), &gate)?;
    Ok(gate.was_held() && ended.status == Status::Clean)
}

/// Whether the workers of so many harts meet under `monitor`.
fn meet_monitoring<R: Threads + Wait + Sync>(
    rt: &R,
    alloc: Global,
    harts: u8,
) -> Result<bool, NoMemory> {
    let gate = Meeting::new(harts);
    let text = one_step_each(alloc, harts)?;
    let command = format!(in alloc; "monitor addrcheck {harts}")?;
    let ended = run(rt, alloc, command.as_str(), text.as_str(), &gate)?;
    Ok(gate.was_held() && ended.status == Status::Clean)
}

#[test]
fn workers_of_a_log_run_beside_each_other(rt: HostRuntime) -> Result<(), Fail> {
    for harts in 2..=8 {
        assert!(rt;
            meet_watching(&rt, rt.alloc(), harts)?,
            "with {harts} harts"
        );
    }
    Ok(())
}

#[test]
fn workers_of_a_run_run_beside_each_other(rt: HostRuntime) -> Result<(), Fail> {
    for harts in 2..=8 {
        assert!(rt;
            meet_monitoring(&rt, rt.alloc(), harts)?,
            "with {harts} harts"
        );
    }
    Ok(())
}

#[test]
fn a_load_of_a_command_waits_for_its_store(rt: HostRuntime) -> Result<(), Fail> {
    let gate = Order::new();
    let ended = run(&rt, rt.alloc(), "watch memcheck 2", TEXT, &gate)?;
    assert!(rt; gate.was_held());
    assert_eq!(rt; gate.early(), 0);
    assert_eq!(rt; ended.status, Status::Clean);
    assert_eq!(rt;
        ended.out.written(),
        b"PREP 1 memcheck harts 2\nreports 0\nmem 100000 100fff 3\nend\n".as_slice()
    );
    Ok(())
}
