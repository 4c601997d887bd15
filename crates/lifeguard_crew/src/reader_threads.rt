//! Threads that turn readers, each with a row of its own.
ghost use Rattle.std.specs.Prelude.{◌≡◌, ◌<◌, ◌≤◌, ◌∷◌, [], IfErr, IfOk, IfSome, IsTrue, length, map};
ghost use Rattle.pl_base.specs.declared.layout.TheConstants.{MAX_HARTS};
ghost use Rattle.lifeguard_crew.specs.inner.Readers.{AllMayRead, AreBack, HasReaders, ReadersPass};
ghost use Rattle.lifeguard_crew.specs.inner.Rows.{Each};

use crate::reader::Reader;
use crate::reading::read_row;
use crate::row::{part, put_back};
use crate::slot::Slot;
use crossbeam_utils::atomic::AtomicCell;
use guard_table::Monitor;
use order_core::Plan;
use pl_base::Gate;
use std::alloc::Global;
use std::snapshot::Snapshot;
use std::sync::Wait;
use std::thread::{Promise, PromisedHandle, Scope, Threads};
use stream_ring::{Ring, RunName};
use turn_worker::TurnWorker;

pub(crate) type Row<N, W> = Vec<Slot<Reader<N, W>>>;

pub(crate) type Thread<P, N, W> = PromisedHandle<Option<Row<N, W>>, Lent<P, N, W>>;

// The row that a thread takes, the monitor and the rings, as they are when it starts.
#[derive(Drop)]
pub(crate) struct Lent<P: Plan, N: RunName, W> {
    monitor: Snapshot<Monitor<P>>,
    rings: Snapshot<Vec<Ring<N>>>,
    row: Snapshot<Row<N, W>>,
}

impl<P: Plan, N: RunName, W: TurnWorker> Promise<Option<Row<N, W>>> for Lent<P, N, W> {
    ghost use Rattle.std.specs.Prelude.{IfSome};
    ghost use Rattle.lifeguard_crew.specs.inner.Readers.{AreBack};

    ghost kept_by = { λ p r. IfSome r (λ row.
        AreBack P.planned W.view p.monitor.value N.log p.rings.value.items p.row.value.items row.items) };
}

// Turns the readers of a row to the end of what is offered, unless it is called back. None: no memory, here or
// elsewhere.
fn shift<P: Plan, N: RunName, W: TurnWorker, G: Gate, R: Wait>(
    rt: &R,
    monitor: &Monitor<P>,
    rings: &Vec<Ring<N>>,
    gate: &G,
    stop: &AtomicCell<u64>,
    offered: &AtomicCell<u64>,
    called_back: bool,
    mut row: Row<N, W>,
) -> Option<Row<N, W>>
    requires few { length row.items ≤ MAX_HARTS }
    requires may { AllMayRead P.planned W.view monitor.now N.log rings.now.items row.items }
    ensures { IfSome result (λ r. AreBack P.planned W.view monitor.now N.log rings.now.items row.items r.items) }
{
    if called_back {
        return Some(row);
    }
    if read_row(rt, monitor, rings, gate, stop, offered, row.as_mut_slice()) {
        Some(row)
    } else {
        None
    }
}

// Starts a thread that turns the readers of the row. Err: there is none, and the row is back.
fn start<
    's,
    E: 's,
    P: Plan + Sync + 's,
    N: RunName + Send + Sync + 's,
    W: TurnWorker + Send + 's,
    G: Gate + Sync + 's,
    R: Wait + Sync + 's,
>(
    scope: &'s Scope<'s, E>,
    rt: &'s R,
    monitor: &'s Monitor<P>,
    rings: &'s Vec<Ring<N>>,
    gate: &'s G,
    stop: &'s AtomicCell<u64>,
    offered: &'s AtomicCell<u64>,
    back: &'s AtomicCell<u64>,
    i: u8,
    theirs: Row<N, W>,
) -> Result<Thread<P, N, W>, Option<Row<N, W>>>
where
    W::Guard: Send,
    requires few { length theirs.items ≤ MAX_HARTS }
    requires may { AllMayRead P.planned W.view monitor.now N.log rings.now.items theirs.items }
    ensures ok { IfOk result (λ t.
        (t.promise.monitor.value ≡ monitor.now) × (t.promise.rings.value.items ≡ rings.now.items)
        × (t.promise.row.value.items ≡ theirs.items)) }
    ensures err { IfErr result (λ o. IfSome o (λ r.
        AreBack P.planned W.view monitor.now N.log rings.now.items theirs.items r.items)) }
{
    let lent = Lent {
        monitor: Snapshot::of(monitor),
        rings: Snapshot::of(rings),
        row: Snapshot::of(&theirs),
    };
    let started = scope.spawn_with(
        lent,
        move || -> Option<Row<N, W>>
            requires { (length theirs.items ≤ MAX_HARTS)
                × AllMayRead P.planned W.view monitor.now N.log rings.now.items theirs.items }
            ensures { IfSome result (λ r.
                AreBack P.planned W.view monitor.entry.now N.log rings.entry.now.items theirs.items r.items) }
        {
            shift(
                rt,
                monitor,
                rings,
                gate,
                stop,
                offered,
                back.load() == u64::from(i) + 1,
                theirs,
            )
        },
    );
    match started {
        Ok(thread) => Ok(thread),
        Err(refused) => {
            back.store(u64::from(i) + 1);
            Err((refused.value)())
        }
    }
}

// Gives the row to a thread, or puts it back where there is none. False: no memory.
fn give<
    's,
    E: 's,
    P: Plan + Sync + 's,
    N: RunName + Send + Sync + 's,
    W: TurnWorker + Send + 's,
    G: Gate + Sync + 's,
    R: Wait + Sync + 's,
>(
    scope: &'s Scope<'s, E>,
    rt: &'s R,
    monitor: &'s Monitor<P>,
    rings: &'s Vec<Ring<N>>,
    gate: &'s G,
    stop: &'s AtomicCell<u64>,
    offered: &'s AtomicCell<u64>,
    back: &'s AtomicCell<u64>,
    i: u8,
    theirs: Row<N, W>,
    row: &mut [Slot<Reader<N, W>>],
    threads: &mut Vec<Thread<P, N, W>>,
) -> bool
where
    W::Guard: Send,
    requires few { length row.old ≤ MAX_HARTS }
    requires len { length theirs.items ≡ length row.old }
    requires theirs { AllMayRead P.planned W.view monitor.now N.log rings.now.items theirs.items }
    requires threads { Each (λ t. HasReaders monitor.now rings.now.items (length row.old) t.promise) threads.old.items }
    ensures threads { IsTrue result →
        Each (λ t. HasReaders monitor.now rings.now.items (length row.old) t.promise) threads.new.items }
    ensures passes { IsTrue result → ReadersPass P.planned W.view monitor.now N.log rings.now.items
        (theirs.items ∷ row.old ∷ map (λ t. t.promise.row.value.items) threads.old.items)
        (row.new ∷ map (λ t. t.promise.row.value.items) threads.new.items) }
{
    if threads.reserve(1).is_err() {
        return false;
    }
    match start(
        scope, rt, monitor, rings, gate, stop, offered, back, i, theirs,
    ) {
        Ok(thread) => {
            threads.push_reserved(thread);
            true
        }
        Err(None) => false,
        Err(Some(theirs)) => {
            put_back(row, theirs);
            true
        }
    }
}

// Has n threads turn the readers: thread i those of harts h with h mod n = i. False: no memory.
pub(crate) fn hand_out<
    's,
    E: 's,
    P: Plan + Sync + 's,
    N: RunName + Send + Sync + 's,
    W: TurnWorker + Send + 's,
    G: Gate + Sync + 's,
    R: Wait + Sync + 's,
>(
    scope: &'s Scope<'s, E>,
    rt: &'s R,
    alloc: Global,
    monitor: &'s Monitor<P>,
    rings: &'s Vec<Ring<N>>,
    gate: &'s G,
    stop: &'s AtomicCell<u64>,
    offered: &'s AtomicCell<u64>,
    back: &'s AtomicCell<u64>,
    n: u8,
    row: &mut [Slot<Reader<N, W>>],
    threads: &mut Vec<Thread<P, N, W>>,
) -> bool
where
    W::Guard: Send,
    requires n { 1 ≤ n }
    requires few { length row.old ≤ MAX_HARTS }
    requires may { AllMayRead P.planned W.view monitor.now N.log rings.now.items row.old }
    requires none { threads.old.items ≡ [] }
    ensures threads { IsTrue result →
        Each (λ t. HasReaders monitor.now rings.now.items (length row.old) t.promise) threads.new.items }
    ensures passes { IsTrue result → ReadersPass P.planned W.view monitor.now N.log rings.now.items
        (row.old ∷ []) (row.new ∷ map (λ t. t.promise.row.value.items) threads.new.items) }
{
    for i in 0..n {
        let Ok(theirs) = part(alloc, row, usize::from(i), usize::from(n)) else {
            return false;
        };
        if !give(
            scope, rt, monitor, rings, gate, stop, offered, back, i, theirs, row, threads,
        ) {
            return false;
        }
    }
    true
}

// Joins the threads, and takes their rows back. False: a thread found no memory.
pub(crate) fn gather<P: Plan, N: RunName, W: TurnWorker, R: Threads>(
    rt: &R,
    monitor: &Monitor<P>,
    rings: &Vec<Ring<N>>,
    row: &mut [Slot<Reader<N, W>>],
    mut threads: Vec<Thread<P, N, W>>,
) -> bool
    requires threads { Each (λ t. HasReaders monitor.now rings.now.items (length row.old) t.promise) threads.items }
    ensures passes { IsTrue result → ReadersPass P.planned W.view monitor.now N.log rings.now.items
        (row.old ∷ map (λ t. t.promise.row.value.items) threads.items) (row.new ∷ []) }
{
    while let Some(thread) = threads.pop() {
        let Some(theirs) = thread.join(rt) else {
            return false;
        };
        put_back(row, theirs);
    }
    true
}
