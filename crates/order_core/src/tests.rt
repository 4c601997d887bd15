//! Lists of steps over a small plan of two harts: the state they come to, and the first step that is not allowed.

ghost use Rattle.std.specs.Prelude.{◌≡◌, ◌<◌, ◌^◌, true, false, None, Some, length, replicate, slice_set, IfOk};
ghost use Rattle.pl_event.specs.declared.log.Record.TheVariants as entry;
ghost use Rattle.pl_event.specs.declared.event.Kind.TheVariants.{Im};

use crate::{Act, CoreRefused, CoreStep, FedStep, ListPlan, Op, RecordPlan, run_core, run_fed};
use pl_base::NoMemory;
use pl_event::{Arcs, Event, Kind, Line, Lines, Log, PageRuns, Record};
use std::alloc::Global;
use std::test::Fail;

// A record that touches no memory.
fn plain(hart: u8, arcs: Arcs) -> Line
    ensures { result ≡ record { what = entry.Event (record { hart = hart; kind = Im 5 }); arcs = arcs } }
{
    Line {
        what: Record::Event(Event {
            hart,
            kind: Kind::Im { rd: 5 },
        }),
        arcs,
    }
}

fn after(hart: u8, number: u32) -> Arcs
    requires { hart < 8 }
    ensures { result ≡ slice_set (replicate 8 None) hart (Some number) }
{
    let mut arcs = Arcs::none();
    arcs.set(hart, Some(number));
    arcs
}

fn read(word: u32, lanes: u8, value: u64) -> Op
    ensures { result ≡ record { word = word; lanes = lanes; write = false; check = false; value = value } }
{
    Op {
        word,
        lanes,
        write: false,
        check: false,
        value,
    }
}

fn write(word: u32, lanes: u8, value: u64) -> Op
    ensures { result ≡ record { word = word; lanes = lanes; write = true; check = false; value = value } }
{
    Op {
        word,
        lanes,
        write: true,
        check: false,
        value,
    }
}

// Hart 0 writes lane 0 of word 9; hart 1 reads it and writes lane 1; hart 0 reads both and writes word 10.
fn two_harts(alloc: Global) -> Result<ListPlan, NoMemory>
    ensures { IfOk result (λ plan. length plan.opening.items ≡ 11) }
{
    let mut lines = Lines::new(alloc);
    lines.push(plain(0, Arcs::none()))?;
    lines.push(plain(1, after(0, 1)))?;
    lines.push(plain(0, after(1, 1)))?;
    let log = Log {
        harts: 2,
        block: 16,
        pages: PageRuns::new(alloc),
        lines,
    };
    let opening = Vec::from_array(alloc, [0, 0, 0, 0, 0, 0, 0, 0, 0, 5, 0])?;
    let first = RecordPlan {
        operations: Vec::from_array(alloc, [write(9, 1, 7)])?,
        needs: Arcs::none(),
    };
    let second = RecordPlan {
        operations: Vec::from_array(alloc, [read(9, 1, 7), write(9, 2, 0x3_0000)])?,
        needs: after(0, 1),
    };
    let third = RecordPlan {
        operations: Vec::from_array(alloc, [read(9, 3, 0x3_0007), write(10, 15, 9)])?,
        needs: after(1, 1),
    };
    let streams = Vec::from_array(
        alloc,
        [
            Vec::from_array(alloc, [first, third])?,
            Vec::from_array(alloc, [second])?,
        ],
    )?;
    Ok(ListPlan::new(log, opening, streams))
}

fn see(hart: u8, of: u8) -> CoreStep {
    CoreStep {
        hart,
        act: Act::See { of },
    }
}

fn advertise(hart: u8, upto: u32) -> CoreStep {
    CoreStep {
        hart,
        act: Act::Advertise { upto },
    }
}

fn perform(hart: u8, number: u32, op: u32) -> CoreStep {
    CoreStep {
        hart,
        act: Act::Perform { number, op },
    }
}

// Whether the run stops at this step, counted from 0.
fn stops_at(plan: &ListPlan, alloc: Global, steps: &[CoreStep], step: u32) -> bool
    requires { length steps.now < 2 ^ 32 }
{
    match run_core(alloc, plan, steps) {
        Err(CoreRefused::NotAble { at }) => at == step,
        _ => false,
    }
}

#[test]
fn two_harts_run_to_the_end(rt: HostRuntime) -> Result<(), Fail> {
    let plan = two_harts(rt.alloc())?;
    let steps = [
        perform(0, 1, 0),
        advertise(0, 1),
        see(1, 0),
        perform(1, 1, 0),
        perform(1, 1, 1),
        advertise(1, 1),
        see(0, 1),
        perform(0, 2, 0),
        perform(0, 2, 1),
        advertise(0, 2),
    ];
    let state = run_core(rt.alloc(), &plan, &steps)?;
    assert_eq!(rt; state.word(9), 0x3_0007);
    assert_eq!(rt; state.word(10), 9);
    assert_eq!(rt; state.word(1), 2);
    assert_eq!(rt; state.progress(0), 2);
    assert_eq!(rt; state.cursor(1), 1);
    assert_eq!(rt; state.written(0), 2);
    assert_eq!(rt; state.written(7), 0);
    Ok(())
}

#[test]
fn the_first_step_that_is_not_allowed_is_named(rt: HostRuntime) -> Result<(), Fail> {
    let alloc = rt.alloc();
    let plan = two_harts(alloc)?;
    let unseen = [perform(0, 1, 0), see(1, 0), perform(1, 1, 1)];
    assert!(rt; stops_at(&plan, alloc, &unseen, 2));
    let repeated = [perform(0, 1, 0), perform(0, 1, 0)];
    assert!(rt; stops_at(&plan, alloc, &repeated, 1));
    let early = [perform(0, 1, 0), advertise(0, 2)];
    assert!(rt; stops_at(&plan, alloc, &early, 1));
    Ok(())
}

#[test]
fn a_read_may_be_late_till_its_record_is_advertised(rt: HostRuntime) -> Result<(), Fail> {
    let alloc = rt.alloc();
    let plan = two_harts(alloc)?;
    let told = [
        perform(0, 1, 0),
        advertise(0, 1),
        see(1, 0),
        perform(1, 1, 1),
        perform(1, 1, 0),
        advertise(1, 1),
        perform(1, 1, 0),
    ];
    assert!(rt; stops_at(&plan, alloc, &told, 6));
    Ok(())
}

// Whether the run of the core and its feeder stops at this step, counted from 0.
fn fed_stops_at(plan: &ListPlan, alloc: Global, steps: &[FedStep], step: u32) -> bool
    requires { length steps.now < 2 ^ 32 }
{
    match run_fed(alloc, plan, steps) {
        Err(CoreRefused::NotAble { at }) => at == step,
        _ => false,
    }
}

#[test]
fn a_hart_makes_what_it_has_taken(rt: HostRuntime) -> Result<(), Fail> {
    let plan = two_harts(rt.alloc())?;
    let steps = [
        FedStep::Produce,
        FedStep::Produce,
        FedStep::Produce,
        FedStep::Offer { hart: 0 },
        FedStep::Take { hart: 0 },
        FedStep::Core(perform(0, 1, 0)),
        FedStep::Core(advertise(0, 1)),
    ];
    let state = run_fed(rt.alloc(), &plan, &steps)?;
    assert_eq!(rt; state.produced(), 3);
    assert_eq!(rt; state.partial(0), 0);
    assert_eq!(rt; state.partial(1), 1);
    assert_eq!(rt; state.ring(0), 0);
    assert_eq!(rt; state.taken(0), 2);
    assert_eq!(rt; state.core().progress(0), 1);
    assert_eq!(rt; state.core().cursor(0), 1);
    Ok(())
}

#[test]
fn no_hart_is_ahead_of_its_feeder(rt: HostRuntime) -> Result<(), Fail> {
    let alloc = rt.alloc();
    let plan = two_harts(alloc)?;
    let empty = [FedStep::Take { hart: 0 }];
    assert!(rt; fed_stops_at(&plan, alloc, &empty, 0));
    let early = [FedStep::Produce, FedStep::Offer { hart: 0 }];
    assert!(rt; fed_stops_at(&plan, alloc, &early, 1));
    let ahead = [FedStep::Produce, FedStep::Core(perform(0, 1, 0))];
    assert!(rt; fed_stops_at(&plan, alloc, &ahead, 1));
    Ok(())
}
