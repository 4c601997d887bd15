//! Two harts that load two words, and then each store what the other loaded.

ghost use Rattle.std.specs.Prelude.{◌<◌, ◌^◌, ◌≤◌, length};
ghost use Rattle.pl_event.specs.Runs.{IsRunLog};

use list_plan::list_plan;
use log_check::check;
use log_plan::LogPlan;
use log_text::{log_laws, read_log};
use order_core::{Act, CoreRefused, CoreState, CoreStep, ListPlan, run_core};
use pl_event::Log;
use std::alloc::{AllocError, Global};
use std::test::Fail;
use taintcheck::TaintCheck;

const TEXT: &str =
    "PLOG 1 harts 2 block 16\npage 256 1 data\nh0 ld w 5 6 100000\nh1 ld w 5 6 100010\n\
    h0 st w 7 6 100010 < 1:1\nh1 st w 7 6 100000 < 0:1\n";

// The plan of an ordered log of ten lines at most, as lists.
fn listed(alloc: Global, log: Log) -> Result<ListPlan, AllocError>
    requires log { IsRunLog log }
    requires few { length log.lines ≤ 10 }
{
    match check(alloc, log) {
        Ok(ordered) => {
            let plan = LogPlan::new(&ordered, TaintCheck);
            list_plan(alloc, &plan).or(Err(AllocError))
        }
        Err(_) => Err(AllocError),
    }
}

fn plan_of_text(alloc: Global) -> Result<ListPlan, AllocError> {
    match read_log(alloc, TEXT.as_bytes()) {
        Ok(log) => {
            log_laws();
            if log.lines.len() > 10 {
                return Err(AllocError);
            }
            listed(alloc, log)
        }
        Err(_) => Err(AllocError),
    }
}

fn see(hart: u8, of: u8) -> CoreStep {
    CoreStep {
        hart,
        act: Act::See { of },
    }
}

fn perform(hart: u8, number: u32, op: u32) -> CoreStep {
    CoreStep {
        hart,
        act: Act::Perform { number, op },
    }
}

fn advertise(hart: u8, upto: u32) -> CoreStep {
    CoreStep {
        hart,
        act: Act::Advertise { upto },
    }
}

// The steps of a hart that sees the other, performs the two reads of a load, its record 1, and advertises it.
fn load_steps(hart: u8, of: u8) -> [CoreStep; 4] {
    [
        see(hart, of),
        perform(hart, 1, 0),
        perform(hart, 1, 1),
        advertise(hart, 1),
    ]
}

// The same of a store, its record 2: two reads and the write.
fn store_steps(hart: u8, of: u8) -> [CoreStep; 5] {
    [
        see(hart, of),
        perform(hart, 2, 0),
        perform(hart, 2, 1),
        perform(hart, 2, 2),
        advertise(hart, 2),
    ]
}

// Those of the four records, in executed order.
fn all_steps() -> [CoreStep; 18] {
    let [a, b, c, d] = load_steps(0, 1);
    let [e, f, g, h] = load_steps(1, 0);
    let [i, j, k, l, m] = store_steps(0, 1);
    let [n, o, p, q, r] = store_steps(1, 0);
    [a, b, c, d, e, f, g, h, i, j, k, l, m, n, o, p, q, r]
}

fn ran(alloc: Global, plan: &ListPlan, steps: &[CoreStep]) -> Result<CoreState, CoreRefused>
    requires { length steps.now < 2 ^ 32 }
{
    run_core(alloc, plan, steps)
}

#[test]
fn records_in_executed_order_run_to_the_end(rt: HostRuntime) -> Result<(), Fail> {
    let plan = plan_of_text(rt.alloc())?;
    let state = ran(rt.alloc(), &plan, &all_steps());
    assert!(rt; state.is_ok());
    if let Ok(state) = state {
        assert_eq!(rt; (state.progress(0), state.progress(1)), (2, 2));
        assert_eq!(rt; (state.written(0), state.written(1)), (1, 1));
        assert_eq!(rt; (state.cursor(0), state.cursor(1)), (2, 2));
    }
    Ok(())
}

#[test]
fn a_store_before_the_load_of_the_other_hart_is_not_allowed(rt: HostRuntime) -> Result<(), Fail> {
    let plan = plan_of_text(rt.alloc())?;
    let first = ran(rt.alloc(), &plan, &[perform(0, 2, 2)]);
    assert_eq!(rt; first.err(), Some(CoreRefused::NotAble { at: 0 }));
    Ok(())
}
