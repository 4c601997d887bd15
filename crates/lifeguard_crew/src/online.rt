//! The driver of several threads that feeds its workers through rings.
ghost use Rattle.std.specs.Prelude.{◌≡◌, ◌<◌, ◌≤◌, ◌∷◌, [], IfOk, OnOk, IfSome, IsTrue, length};
ghost use Rattle.pl_base.specs.declared.layout.TheConstants.{MAX_HARTS};
ghost use Rattle.guard_table.specs.Seats.{plan_of};
ghost use Rattle.lifeguard_crew.specs.Drivers.{IsFinished, IsFreshCrew, IsReadyCrew, lines_of};
ghost use Rattle.lifeguard_crew.specs.inner.Online.{EachLed, IsSameWorker};
ghost use Rattle.ring_feed.specs.Outlets.{AreOutlets, AreRings, AreSends, AreTakes, AreWhole, CanBeFed};
ghost use Rattle.lifeguard_crew.specs.inner.Readers.{AllMayRead, ReadersPass};

use crate::caller::feed_all;
use crate::drain::ready_workers;
use crate::finished::Finished;
use crate::naming::{Named, Naming};
use crate::one_thread::run_one_thread;
use crate::reader::Reader;
use crate::reader_threads::{Row, gather, hand_out};
use crate::readers::readers_of;
use crate::reading::read_row;
use crate::slot::Slot;
use crossbeam_utils::atomic::AtomicCell;
use guard_table::Monitor;
use order_core::Plan;
use pl_base::{Gate, NoMemory};
use pl_event::Feed;
use ring_feed::{Opened, Outlet, open_rings, outlets_of};
use std::alloc::Global;
use std::marker::Brand;
use std::sync::Wait;
use std::thread;
use std::thread::{Scope, Threads};
use stream_ring::{Ring, RunName};
use turn_worker::TurnWorker;

// Feeds the readers of a row while they are turned on n threads. False: no memory.
fn read_apart<
    's,
    E: 's,
    P: Plan + Sync + 's,
    N: RunName + Send + Sync + 's,
    F: Feed,
    W: TurnWorker + Send + 's,
    G: Gate + Sync + 's,
    R: Threads + Wait + Sync + 's,
>(
    scope: &'s Scope<'s, E>,
    rt: &'s R,
    alloc: Global,
    monitor: &'s Monitor<P>,
    rings: &'s Vec<Ring<N>>,
    gate: &'s G,
    stop: &'s AtomicCell<u64>,
    offered: &'s AtomicCell<u64>,
    back: &'s AtomicCell<u64>,
    n: u8,
    feed: &mut F,
    outlets: &mut [Outlet<'_, N>],
    row: &mut [Slot<Reader<N, W>>],
) -> bool
where
    W::Guard: Send,
    requires n { 1 ≤ n }
    requires outlets { AreOutlets N.log (F.rest feed.old) outlets.old }
    requires few { length row.old ≤ MAX_HARTS }
    requires may { AllMayRead P.planned W.view monitor.now N.log rings.now.items row.old }
    ensures outlets { IsTrue result → AreOutlets N.log [] outlets.new }
    ensures whole { IsTrue result → AreWhole N.log outlets.new }
    ensures passes { IsTrue result →
        ReadersPass P.planned W.view monitor.now N.log rings.now.items (row.old ∷ []) (row.new ∷ []) }
    ensures rest { IsTrue result → F.rest feed.new ≡ [] }
{
    let mut threads = Vec::new(alloc);
    if !hand_out(
        scope,
        rt,
        alloc,
        monitor,
        rings,
        gate,
        stop,
        offered,
        back,
        n,
        row,
        &mut threads,
    ) {
        stop.store(1);
        return false;
    }
    if !feed_all(rt, alloc, monitor, rings, gate, stop, feed, outlets, row) {
        return false;
    }
    offered.store(1);
    if !read_row(rt, monitor, rings, gate, stop, offered, row) {
        return false;
    }
    gather(rt, monitor, rings, row, threads)
}

// The outlets and the readers, after all was offered and the threads have ended. None: no memory.
fn read_all<
    's,
    'o,
    E: 's,
    P: Plan + Sync + 's,
    N: RunName + Send + Sync + 's,
    F: Feed,
    W: TurnWorker + Send + 's,
    G: Gate + Sync + 's,
    R: Threads + Wait + Sync + 's,
>(
    scope: &'s Scope<'s, E>,
    rt: &'s R,
    alloc: Global,
    monitor: &'s Monitor<P>,
    rings: &'s Vec<Ring<N>>,
    gate: &'s G,
    stop: &'s AtomicCell<u64>,
    offered: &'s AtomicCell<u64>,
    back: &'s AtomicCell<u64>,
    n: u8,
    feed: &mut F,
    mut outlets: Vec<Outlet<'o, N>>,
    mut row: Row<N, W>,
) -> Option<(Vec<Outlet<'o, N>>, Row<N, W>)>
where
    W::Guard: Send,
    requires n { 1 ≤ n }
    requires outlets { AreOutlets N.log (F.rest feed.old) outlets.items }
    requires few { length row.items ≤ MAX_HARTS }
    requires may { AllMayRead P.planned W.view monitor.now N.log rings.now.items row.items }
    ensures outlets { IfSome result (λ r. AreOutlets N.log [] r.0.items × AreWhole N.log r.0.items) }
    ensures len { IfSome result (λ r. length r.1.items ≡ length row.items) }
    ensures passes { IfSome result (λ r.
        ReadersPass P.planned W.view monitor.now N.log rings.now.items (row.items ∷ []) (r.1.items ∷ [])) }
    ensures rest { IfSome result (λ _. F.rest feed.new ≡ []) }
{
    if read_apart(
        scope,
        rt,
        alloc,
        monitor,
        rings,
        gate,
        stop,
        offered,
        back,
        n,
        feed,
        outlets.as_mut_slice(),
        row.as_mut_slice(),
    ) {
        Some((outlets, row))
    } else {
        None
    }
}

// The same in a scope. It hands the feed back with nothing left in it: only what the scope returns is known after it.
fn in_scope<
    'o,
    'f,
    R: Threads + Wait + Sync,
    P: Plan + Sync,
    N: RunName + Send + Sync,
    F: Feed,
    W: TurnWorker + Send,
    G: Gate + Sync,
>(
    rt: &R,
    alloc: Global,
    monitor: &Monitor<P>,
    rings: &Vec<Ring<N>>,
    gate: &G,
    n: u8,
    feed: &'f mut F,
    outlets: Vec<Outlet<'o, N>>,
    row: Row<N, W>,
) -> Option<(Vec<Outlet<'o, N>>, Row<N, W>, &'f mut F)>
where
    W::Guard: Send,
    requires n { 1 ≤ n }
    requires outlets { AreOutlets N.log (F.rest feed.old) outlets.items }
    requires few { length row.items ≤ MAX_HARTS }
    requires may { AllMayRead P.planned W.view monitor.now N.log rings.now.items row.items }
    ensures outlets { IfSome result (λ r. AreOutlets N.log [] r.0.items × AreWhole N.log r.0.items) }
    ensures len { IfSome result (λ r. length r.1.items ≡ length row.items) }
    ensures passes { IfSome result (λ r.
        ReadersPass P.planned W.view monitor.now N.log rings.now.items (row.items ∷ []) (r.1.items ∷ [])) }
    ensures feed { IfSome result (λ r. r.2.ghost_name ≡ feed.entry.ghost_name) }
    ensures rest { IfSome result (λ r. F.rest r.2.now ≡ []) }
{
    let stop_cell = AtomicCell::new(0u64);
    let offered_cell = AtomicCell::new(0u64);
    let back_cell = AtomicCell::new(0u64);
    let stop = &stop_cell;
    let offered = &offered_cell;
    let back = &back_cell;
    thread::scope(
        thread::scope_env(),
        rt,
        move |scope| -> Option<(Vec<Outlet<N>>, Row<N, W>, &mut F)>
            requires { (1 ≤ n) × AreOutlets N.log (F.rest feed.now) outlets.items × (length row.items ≤ MAX_HARTS)
                × AllMayRead P.planned W.view monitor.now N.log rings.now.items row.items }
            ensures outlets { IfSome result (λ r. AreOutlets N.log [] r.0.items × AreWhole N.log r.0.items) }
            ensures len { IfSome result (λ r. length r.1.items ≡ length row.items) }
            ensures passes { IfSome result (λ r. ReadersPass P.planned W.view monitor.entry.now N.log
                rings.entry.now.items (row.items ∷ []) (r.1.items ∷ [])) }
            ensures feed { IfSome result (λ r. r.2.ghost_name ≡ feed.entry.ghost_name) }
            ensures rest { IfSome result (λ r. F.rest r.2.now ≡ []) }
        {
            let (outlets, row) = read_all(
                scope, rt, alloc, monitor, rings, gate, stop, offered, back, n, feed, outlets, row,
            )?;
            Some((outlets, row, feed))
        },
    )
}

// The rings of the run, which is lawful.
fn rings_of_run<P: Plan, N: RunName>(
    alloc: Global,
    monitor: &Monitor<P>,
) -> Result<Opened<N>, NoMemory>
    requires log { N.log ≡ (P.planned (plan_of monitor.now)).log }
    ensures can { IfOk result (λ _. CanBeFed N.log) }
    ensures rings { IfOk result (λ o. AreRings N.log.harts o.rings.items) }
    ensures sends { IfOk result (λ o. AreSends o.rings.items o.sends.items) }
    ensures takes { IfOk result (λ o. AreTakes o.rings.items o.takes.items) }
{
    open_rings::<N>(alloc, monitor.harts())
}

// The workers, each after it was fed its whole stream. They were turned on n threads meanwhile.
fn fed_crew<
    R: Threads + Wait + Sync,
    P: Plan + Sync,
    N: RunName + Send + Sync,
    F: Feed,
    W: TurnWorker + Send,
    G: Gate + Sync,
>(
    rt: &R,
    alloc: Global,
    monitor: &Monitor<P>,
    gate: &G,
    n: u8,
    feed: &mut F,
    workers: Vec<W>,
) -> Result<Vec<W>, NoMemory>
where
    W::Guard: Send,
    requires log { N.log ≡ (P.planned (plan_of monitor.now)).log }
    requires n { 1 ≤ n }
    requires crew { IsFreshCrew P.planned W.view monitor.now workers.items }
    requires feed { F.rest feed.old ≡ lines_of P.planned monitor.now }
    ensures ready { IfOk result (λ ws. IsReadyCrew P.planned W.view monitor.now ws.items) }
    ensures same { IfOk result (λ ws. EachLed IsSameWorker W.view workers.items ws.items) }
    ensures rest { OnOk result (F.rest feed.new ≡ []) }
{
    let Opened {
        rings,
        sends,
        takes,
    } = rings_of_run::<P, N>(alloc, monitor)?;
    let outlets = outlets_of(alloc, rings.as_slice(), sends)?;
    let row = readers_of(alloc, monitor, &rings, takes, workers)?;
    match in_scope(rt, alloc, monitor, &rings, gate, n, feed, outlets, row) {
        Some((outlets, row, _fed)) => ready_workers(
            rt,
            alloc,
            monitor,
            &rings,
            row,
            outlets.as_slice(),
        ),
        None => Err(NoMemory),
    }
}

// The same, where the call picks the run's name.
fn fed_as<
    R: Threads + Wait + Sync,
    P: Plan + Sync,
    J: Naming + Send + Sync,
    F: Feed,
    W: TurnWorker + Send,
    G: Gate + Sync,
>(
    rt: &R,
    alloc: Global,
    monitor: &Monitor<P>,
    gate: &G,
    n: u8,
    feed: &mut F,
    workers: Vec<W>,
) -> Result<Vec<W>, NoMemory>
where
    W::Guard: Send,
    requires log { J.log ≡ (P.planned (plan_of monitor.now)).log }
    requires n { 1 ≤ n }
    requires crew { IsFreshCrew P.planned W.view monitor.now workers.items }
    requires feed { F.rest feed.old ≡ lines_of P.planned monitor.now }
    ensures ready { IfOk result (λ ws. IsReadyCrew P.planned W.view monitor.now ws.items) }
    ensures same { IfOk result (λ ws. EachLed IsSameWorker W.view workers.items ws.items) }
    ensures rest { OnOk result (F.rest feed.new ≡ []) }
{
    fed_crew::<R, P, Named<J>, F, W, G>(rt, alloc, monitor, gate, n, feed, workers)
}

/// Feeds the workers the lines of the run through rings, while they are turned on n threads: that of hart h on thread
/// h mod n. The caller feeds.
///
/// A ring has room for 16 chunks of 64 records, so a worker is fed at most so far ahead. A worker is turned by one
/// record at a time, after it has passed the gate with the number of its next record. The caller turns the workers of a
/// thread that does not start. With `n` 0 there is one thread beside the caller's. After an `Ok` the feed is used up.
///
/// # Errors
///
/// `NoMemory` where the feed or a worker answers it, or none is left for a list. The workers and their seats are gone.
pub fn run_online<
    R: Threads + Wait + Sync,
    P: Plan + Sync,
    F: Feed,
    W: TurnWorker + Send,
    G: Gate + Sync,
>(
    rt: &R,
    alloc: Global,
    monitor: &Monitor<P>,
    feed: &mut F,
    workers: Vec<W>,
    n: u8,
    gate: &G,
) -> Result<Finished, NoMemory>
where
    W::Guard: Send,
    requires crew { IsFreshCrew P.planned W.view monitor.now workers.items }
    requires feed { F.rest feed.old ≡ lines_of P.planned monitor.now }
    ensures finished { IfOk result (IsFinished P.planned W.view monitor.now workers.items) }
    ensures rest { OnOk result (F.rest feed.new ≡ []) }
{
    let ready = fed_as::<R, P, Brand, F, W, G>(rt, alloc, monitor, gate, n.max(1), feed, workers)?;
    let finished = run_one_thread(alloc, monitor, ready)?;
    Ok(finished)
}
