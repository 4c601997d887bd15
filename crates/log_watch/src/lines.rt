//! A log passed once, each line to the worker of its hart.
ghost use Rattle.std.specs.Prelude.{◌≡◌, ◌+◌, ◌^◌, ◌<◌, ◌≤◌, ℕ, [], List, length, IfOk, OnOk, map};
ghost use mathlib.Core.Option.{some};
ghost use lib.ListN.{get_elem?};
ghost use Rattle.pl_event.specs.Edges.{IsFlow};
ghost use Rattle.pl_event.specs.Feeds.{feds_of};
ghost use Rattle.pl_event.specs.Heads.{Tells};
ghost use Rattle.turn_worker.specs.Workers.{WorkerView, stream_of};
ghost use Rattle.log_watch.specs.Feeding.{AreEmpty, AreFedUpTo, AreFedWhole, AreUnfed, IsFedWhole, IsPushed, MayPush};

use crate::feeding::Feeding;
use pl_base::NoMemory;
use pl_event::{Fed, Heads, Lines, Log, record_hart};
use std::alloc::Global;
use turn_worker::TurnWorker;

// Passes a record to the worker of its hart.
fn push_to<W: TurnWorker>(
    alloc: Global,
    feedings: &mut [Feeding<W>],
    hart: u8,
    fed: Fed,
) -> Result<(), NoMemory>
    requires hart { hart < length feedings.old }
    requires may { MayPush (λ f. W.view f.worker) (λ f. f.piece.items) hart fed feedings.old }
    ensures { OnOk result
        (IsPushed (λ f. W.view f.worker) (λ f. f.piece.items) hart fed feedings.old feedings.new) }
{
    feedings[hart as usize].push(alloc, fed)?;
    Ok(())
}

// Passes the line at a position to the worker of its hart.
fn pass_line<W: TurnWorker>(
    alloc: Global,
    lines: &Lines,
    at: usize,
    heads: &mut Heads,
    feedings: &mut [Feeding<W>],
) -> Result<(), NoMemory>
    requires flow { IsFlow (length feedings.old) lines.now }
    requires harts { length feedings.old ≤ 8 }
    requires few { length lines.now < 2 ^ 32 }
    requires at { at < length lines.now }
    requires heads { Tells heads.old lines.now at }
    requires fed { (starts : List WorkerView)
        × AreFedUpTo (λ f. W.view f.worker) (λ f. f.piece.items) lines.now starts at feedings.old }
    ensures heads { OnOk result (Tells heads.new lines.now (at + 1)) }
    ensures size { OnOk result (length feedings.new ≡ length feedings.old) }
    ensures fed { (starts : List WorkerView) →
        AreFedUpTo (λ f. W.view f.worker) (λ f. f.piece.items) lines.now starts at feedings.old →
        OnOk result
        (AreFedUpTo (λ f. W.view f.worker) (λ f. f.piece.items) lines.now starts (at + 1) feedings.new) }
{
    let line = lines.get(at);
    let hart = record_hart(&line.what);
    let fed = heads.fed(&line);
    push_to(alloc, feedings, hart, fed)?;
    heads.pass(&line);
    Ok(())
}

// Passes all lines to the workers of their harts.
fn pass_lines<W: TurnWorker>(
    alloc: Global,
    lines: &Lines,
    feedings: &mut [Feeding<W>],
) -> Result<(), NoMemory>
    requires flow { IsFlow (length feedings.old) lines.now }
    requires harts { length feedings.old ≤ 8 }
    requires few { length lines.now < 2 ^ 32 }
    requires fed { (starts : List WorkerView)
        × AreFedUpTo (λ f. W.view f.worker) (λ f. f.piece.items) lines.now starts 0 feedings.old }
    ensures { (starts : List WorkerView) →
        AreFedUpTo (λ f. W.view f.worker) (λ f. f.piece.items) lines.now starts 0 feedings.old →
        OnOk result (AreFedUpTo (λ f. W.view f.worker) (λ f. f.piece.items) lines.now starts (length lines.now)
        feedings.new) }
{
    let mut heads = Heads::new();
    for at in 0..lines.len() {
        pass_line(alloc, lines, at, &mut heads, feedings)?;
    }
    Ok(())
}

// The workers, none of which was fed anything, with their pieces.
fn begun<W: TurnWorker>(alloc: Global, workers: Vec<W>) -> Result<Vec<Feeding<W>>, NoMemory>
    ensures workers { IfOk result (λ fs. map (λ f. f.worker) fs.items ≡ workers.items) }
    ensures pieces { IfOk result (λ fs. AreEmpty (λ f. f.piece.items) fs.items) }
{
    let mut feedings = Vec::with_capacity(alloc, workers.len())?;
    for worker in workers {
        feedings.push(Feeding::new(alloc, worker))?;
    }
    Ok(feedings)
}

// The workers, each after its whole stream.
fn finished<W: TurnWorker>(
    alloc: Global,
    lines: &Lines,
    feedings: Vec<Feeding<W>>,
) -> Result<Vec<W>, NoMemory>
    requires { (starts : List WorkerView) × AreFedUpTo (λ f. W.view f.worker) (λ f. f.piece.items) lines.now starts
        (length lines.now) feedings.items }
    ensures { (starts : List WorkerView) → AreFedUpTo (λ f. W.view f.worker) (λ f. f.piece.items) lines.now starts
        (length lines.now) feedings.items →
        IfOk result (λ ws. (length ws.items ≡ length feedings.items)
        × ((k : ℕ) (start : WorkerView) (w : W) → get_elem? starts k ≡ some start → get_elem? ws.items k ≡ some w →
        IsFedWhole start (W.view w))) }
{
    let mut workers = Vec::with_capacity(alloc, feedings.len())?;
    for feeding in feedings {
        workers.push(feeding.finish(alloc)?)?;
    }
    Ok(workers)
}

/// Feeds each worker the whole stream of its hart, in one pass over the log.
pub(crate) fn feed_all<W: TurnWorker>(
    alloc: Global,
    log: &Log,
    workers: Vec<W>,
) -> Result<Vec<W>, NoMemory>
    requires flow { IsFlow log.now.harts log.now.lines }
    requires harts { log.now.harts ≤ 8 }
    requires few { length log.now.lines < 2 ^ 32 }
    requires size { length workers.items ≡ log.now.harts }
    requires unfed { AreUnfed W.view log.now.lines workers.items }
    ensures { IfOk result (λ fed. AreFedWhole W.view workers.items fed.items) }
{
    let mut feedings = begun(alloc, workers)?;
    pass_lines(alloc, &log.lines, feedings.as_mut_slice())?;
    let fed = finished(alloc, &log.lines, feedings)?;
    Ok(fed)
}
