//! The driver of several threads, each with a row of its own.
ghost use Rattle.std.specs.Prelude.{◌≡◌, ◌<◌, ◌≤◌, ◌∷◌, [], IfErr, IfOk, IfSome, IsTrue, length, map};
ghost use Rattle.pl_base.specs.declared.layout.TheConstants.{MAX_HARTS};
ghost use Rattle.lifeguard_crew.specs.Drivers.{IsReadyCrew, IsFinished};
ghost use Rattle.lifeguard_crew.specs.inner.Slots.{manned, AreAtRest, AllMayTurn};
ghost use Rattle.lifeguard_crew.specs.inner.Rows.{IsBack, HasRow, Each, Passes};

use crate::finished::Finished;
use crate::row::{collect, man, part, put_back};
use crate::slot::Slot;
use crate::turns::run_row;
use crossbeam_utils::atomic::AtomicCell;
use guard_table::Monitor;
use order_core::Plan;
use pl_base::{Gate, NoMemory};
use std::alloc::Global;
use std::snapshot::Snapshot;
use std::sync::Wait;
use std::thread;
use std::thread::{Promise, PromisedHandle, Scope, Threads};
use turn_worker::TurnWorker;

type Thread<P, W> = PromisedHandle<Option<Vec<Slot<W>>>, Took<P, W>>;

// The row that a thread takes, and the monitor, as they are when it starts.
#[derive(Drop)]
pub(crate) struct Took<P: Plan, W> {
    monitor: Snapshot<Monitor<P>>,
    row: Snapshot<Vec<Slot<W>>>,
}

impl<P: Plan, W: TurnWorker> Promise<Option<Vec<Slot<W>>>> for Took<P, W> {
    ghost use Rattle.std.specs.Prelude.{IfSome};
    ghost use Rattle.lifeguard_crew.specs.inner.Rows.{IsBack};

    ghost kept_by = { λ p r. IfSome r (λ row.
        IsBack P.planned W.view p.monitor.value p.row.value.items row.items) };
}

// Runs a row to its end, unless it is called back. None: a worker found no memory, here or elsewhere.
fn shift<P: Plan, W: TurnWorker, G: Gate, R: Wait>(
    rt: &R,
    monitor: &Monitor<P>,
    gate: &G,
    stop: &AtomicCell<u64>,
    called_back: bool,
    mut row: Vec<Slot<W>>,
) -> Option<Vec<Slot<W>>>
    requires few { length row.items ≤ MAX_HARTS }
    requires may { AllMayTurn P.planned W.view monitor.now row.items }
    ensures { IfSome result (λ r. IsBack P.planned W.view monitor.now row.items r.items) }
{
    if called_back {
        return Some(row);
    }
    if run_row(rt, monitor, gate, stop, row.as_mut_slice()) {
        Some(row)
    } else {
        None
    }
}

// Starts a thread that runs the row. Err: there is none, and the row is back.
fn start<
    's,
    E: 's,
    P: Plan + Sync + 's,
    W: TurnWorker + Send + 's,
    G: Gate + Sync + 's,
    R: Wait + Sync + 's,
>(
    scope: &'s Scope<'s, E>,
    rt: &'s R,
    monitor: &'s Monitor<P>,
    gate: &'s G,
    stop: &'s AtomicCell<u64>,
    back: &'s AtomicCell<u64>,
    i: u8,
    theirs: Vec<Slot<W>>,
) -> Result<Thread<P, W>, Option<Vec<Slot<W>>>>
where
    W::Guard: Send,
    requires few { length theirs.items ≤ MAX_HARTS }
    requires may { AllMayTurn P.planned W.view monitor.now theirs.items }
    ensures ok { IfOk result (λ t.
        (t.promise.monitor.value ≡ monitor.now) × (t.promise.row.value.items ≡ theirs.items)) }
    ensures err { IfErr result (λ o. IfSome o (λ r. IsBack P.planned W.view monitor.now theirs.items r.items)) }
{
    let took = Took {
        monitor: Snapshot::of(monitor),
        row: Snapshot::of(&theirs),
    };
    let started = scope.spawn_with(
        took,
        move || -> Option<Vec<Slot<W>>>
            requires { (length theirs.items ≤ MAX_HARTS) × AllMayTurn P.planned W.view monitor.now theirs.items }
            ensures { IfSome result (λ r.
                IsBack P.planned W.view monitor.entry.now theirs.items r.items) }
        { shift(rt, monitor, gate, stop, back.load() == u64::from(i), theirs) },
    );
    match started {
        Ok(thread) => Ok(thread),
        Err(refused) => {
            back.store(u64::from(i));
            Err((refused.value)())
        }
    }
}

// Gives the row to a thread, or puts it back where there is none. False: no memory.
fn give<
    's,
    E: 's,
    P: Plan + Sync + 's,
    W: TurnWorker + Send + 's,
    G: Gate + Sync + 's,
    R: Wait + Sync + 's,
>(
    scope: &'s Scope<'s, E>,
    rt: &'s R,
    monitor: &'s Monitor<P>,
    gate: &'s G,
    stop: &'s AtomicCell<u64>,
    back: &'s AtomicCell<u64>,
    i: u8,
    theirs: Vec<Slot<W>>,
    row: &mut [Slot<W>],
    threads: &mut Vec<Thread<P, W>>,
) -> bool
where
    W::Guard: Send,
    requires few { length row.old ≤ MAX_HARTS }
    requires len { length theirs.items ≡ length row.old }
    requires theirs { AllMayTurn P.planned W.view monitor.now theirs.items }
    requires threads { Each (λ t. HasRow monitor.now (length row.old)
        t.promise.monitor.value t.promise.row.value.items) threads.old.items }
    ensures threads { IsTrue result → Each (λ t. HasRow monitor.now (length row.old)
        t.promise.monitor.value t.promise.row.value.items) threads.new.items }
    ensures passes { IsTrue result → Passes P.planned W.view monitor.now
        (theirs.items ∷ row.old ∷ map (λ t. t.promise.row.value.items) threads.old.items)
        (row.new ∷ map (λ t. t.promise.row.value.items) threads.new.items) }
{
    if threads.reserve(1).is_err() {
        return false;
    }
    match start(scope, rt, monitor, gate, stop, back, i, theirs) {
        Ok(thread) => {
            threads.push_reserved(thread);
            true
        }
        Err(None) => false,
        Err(Some(theirs)) => {
            put_back(row, theirs);
            true
        }
    }
}

// Has threads run the workers of harts h with h mod n above 0. False: no memory.
fn hand_out<
    's,
    E: 's,
    P: Plan + Sync + 's,
    W: TurnWorker + Send + 's,
    G: Gate + Sync + 's,
    R: Wait + Sync + 's,
>(
    scope: &'s Scope<'s, E>,
    rt: &'s R,
    alloc: Global,
    monitor: &'s Monitor<P>,
    gate: &'s G,
    stop: &'s AtomicCell<u64>,
    back: &'s AtomicCell<u64>,
    n: u8,
    row: &mut [Slot<W>],
    threads: &mut Vec<Thread<P, W>>,
) -> bool
where
    W::Guard: Send,
    requires n { 1 ≤ n }
    requires few { length row.old ≤ MAX_HARTS }
    requires may { AllMayTurn P.planned W.view monitor.now row.old }
    requires none { threads.old.items ≡ [] }
    ensures threads { IsTrue result → Each (λ t. HasRow monitor.now (length row.old)
        t.promise.monitor.value t.promise.row.value.items) threads.new.items }
    ensures passes { IsTrue result → Passes P.planned W.view monitor.now
        (row.old ∷ []) (row.new ∷ map (λ t. t.promise.row.value.items) threads.new.items) }
{
    for i in 1..n {
        let Ok(theirs) = part(alloc, row, usize::from(i), usize::from(n)) else {
            return false;
        };
        if !give(
            scope, rt, monitor, gate, stop, back, i, theirs, row, threads,
        ) {
            return false;
        }
    }
    true
}

// Joins the threads, and takes their rows back. False: a worker found no memory.
fn gather<P: Plan, W: TurnWorker, R: Threads>(
    rt: &R,
    monitor: &Monitor<P>,
    row: &mut [Slot<W>],
    mut threads: Vec<Thread<P, W>>,
) -> bool
    requires threads { Each (λ t. HasRow monitor.now (length row.old)
        t.promise.monitor.value t.promise.row.value.items) threads.items }
    ensures passes { IsTrue result → Passes P.planned W.view monitor.now
        (row.old ∷ map (λ t. t.promise.row.value.items) threads.items) (row.new ∷ []) }
{
    while let Some(thread) = threads.pop() {
        let Some(theirs) = thread.join(rt) else {
            return false;
        };
        put_back(row, theirs);
    }
    true
}

// Runs the workers of a row on n threads. False: a worker found no memory.
fn run_apart<
    's,
    E: 's,
    P: Plan + Sync + 's,
    W: TurnWorker + Send + 's,
    G: Gate + Sync + 's,
    R: Threads + Wait + Sync + 's,
>(
    scope: &'s Scope<'s, E>,
    rt: &'s R,
    alloc: Global,
    monitor: &'s Monitor<P>,
    gate: &'s G,
    stop: &'s AtomicCell<u64>,
    back: &'s AtomicCell<u64>,
    n: u8,
    row: &mut [Slot<W>],
) -> bool
where
    W::Guard: Send,
    requires n { 1 ≤ n }
    requires few { length row.old ≤ MAX_HARTS }
    requires may { AllMayTurn P.planned W.view monitor.now row.old }
    ensures passes { IsTrue result → Passes P.planned W.view monitor.now (row.old ∷ []) (row.new ∷ []) }
    ensures rests { IsTrue result → AreAtRest row.new }
{
    let mut threads = Vec::new(alloc);
    if !hand_out(
        scope,
        rt,
        alloc,
        monitor,
        gate,
        stop,
        back,
        n,
        row,
        &mut threads,
    ) {
        stop.store(1);
        return false;
    }
    if !run_row(rt, monitor, gate, stop, row) {
        return false;
    }
    if !gather(rt, monitor, row, threads) {
        return false;
    }
    run_row(rt, monitor, gate, stop, row)
}

fn run_all<
    's,
    E: 's,
    P: Plan + Sync + 's,
    W: TurnWorker + Send + 's,
    G: Gate + Sync + 's,
    R: Threads + Wait + Sync + 's,
>(
    scope: &'s Scope<'s, E>,
    rt: &'s R,
    alloc: Global,
    monitor: &'s Monitor<P>,
    gate: &'s G,
    stop: &'s AtomicCell<u64>,
    back: &'s AtomicCell<u64>,
    n: u8,
    mut row: Vec<Slot<W>>,
) -> Option<Vec<Slot<W>>>
where
    W::Guard: Send,
    requires n { 1 ≤ n }
    requires few { length row.items ≤ MAX_HARTS }
    requires may { AllMayTurn P.planned W.view monitor.now row.items }
    ensures len { IfSome result (λ r. length r.items ≡ length row.items) }
    ensures passes { IfSome result (λ r. Passes P.planned W.view monitor.now (row.items ∷ []) (r.items ∷ [])) }
    ensures rests { IfSome result (λ r. AreAtRest r.items) }
{
    if run_apart(
        scope,
        rt,
        alloc,
        monitor,
        gate,
        stop,
        back,
        n,
        row.as_mut_slice(),
    ) {
        Some(row)
    } else {
        None
    }
}

// Runs the workers of a row on n threads, in a scope. None: a worker found no memory.
fn in_scope<R: Threads + Wait + Sync, P: Plan + Sync, W: TurnWorker + Send, G: Gate + Sync>(
    rt: &R,
    alloc: Global,
    monitor: &Monitor<P>,
    n: u8,
    gate: &G,
    row: Vec<Slot<W>>,
) -> Option<Vec<Slot<W>>>
where
    W::Guard: Send,
    requires n { 1 ≤ n }
    requires few { length row.items ≤ MAX_HARTS }
    requires may { AllMayTurn P.planned W.view monitor.now row.items }
    ensures len { IfSome result (λ r. length r.items ≡ length row.items) }
    ensures passes { IfSome result (λ r. Passes P.planned W.view monitor.now (row.items ∷ []) (r.items ∷ [])) }
    ensures rests { IfSome result (λ r. AreAtRest r.items) }
{
    let stop_cell = AtomicCell::new(0u64);
    let back_cell = AtomicCell::new(0u64);
    let stop = &stop_cell;
    let back = &back_cell;
    thread::scope(
        thread::scope_env(),
        rt,
        move |scope| -> Option<Vec<Slot<W>>>
            requires { (1 ≤ n) × (length row.items ≤ MAX_HARTS)
                × AllMayTurn P.planned W.view monitor.now row.items }
            ensures len { IfSome result (λ r. length r.items ≡ length row.items) }
            ensures passes { IfSome result (λ r.
                Passes P.planned W.view monitor.entry.now (row.items ∷ []) (r.items ∷ [])) }
            ensures rests { IfSome result (λ r. AreAtRest r.items) }
        { run_all(scope, rt, alloc, monitor, gate, stop, back, n, row) },
    )
}

// A row with every worker of a crew in its slot.
fn man_crew<P: Plan, W: TurnWorker>(
    alloc: Global,
    _monitor: &Monitor<P>,
    workers: Vec<W>,
) -> Result<Vec<Slot<W>>, NoMemory>
    requires { IsReadyCrew P.planned W.view _monitor.now workers.items }
    ensures row { IfOk result (λ row. row.items ≡ map manned workers.items) }
    ensures few { IfOk result (λ row. length row.items ≤ MAX_HARTS) }
{
    man(alloc, workers)
}

/// Runs the workers of all harts on n threads, of which the caller's is one: that of hart h on thread h mod n.
///
/// A worker is turned by one record at a time, after it has passed the gate with the number of its next record. The
/// caller runs the workers of a thread that does not start. With `n` 0 there is one thread.
///
/// # Errors
///
/// `NoMemory` where a worker answers it, or none is left for a list. The workers and their seats are gone.
pub fn run_threads<R: Threads + Wait + Sync, P: Plan + Sync, W: TurnWorker + Send, G: Gate + Sync>(
    rt: &R,
    alloc: Global,
    monitor: &Monitor<P>,
    workers: Vec<W>,
    n: u8,
    gate: &G,
) -> Result<Finished, NoMemory>
where
    W::Guard: Send,
    requires { IsReadyCrew P.planned W.view monitor.now workers.items }
    ensures { IfOk result (IsFinished P.planned W.view monitor.now workers.items) }
{
    let row = man_crew(alloc, monitor, workers)?;
    let Some(ended) = in_scope(rt, alloc, monitor, n.max(1), gate, row) else {
        return Err(NoMemory);
    };
    collect(alloc, ended)
}
