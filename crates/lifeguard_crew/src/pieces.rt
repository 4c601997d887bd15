//! Records taken from a feed in pieces, each record handed to the worker of its hart.
ghost use Rattle.std.specs.Prelude.{◌≡◌, ◌++◌, ◌<◌, [], List, length, IfOk, OnOk};
ghost use Rattle.pl_event.specs.declared.fed.Fed.{Fed};
ghost use Rattle.lifeguard_crew.specs.inner.Online.{Every, EachLed, IsFed, IsFedUpTo, IsTold};
ghost use Rattle.ring_feed.specs.Streams.{records_on};

use pl_base::NoMemory;
use pl_event::{Fed, Feed, record_hart};
use ring_feed::PIECE_RECORDS;
use std::alloc::Global;
use turn_worker::TurnWorker;

// The next records of a feed; none where none is left.
pub(crate) fn take_piece<F: Feed>(alloc: Global, feed: &mut F) -> Result<Vec<Fed>, NoMemory>
    ensures taken { IfOk result (λ piece. F.rest feed.old ≡ piece.items ++ F.rest feed.new) }
    ensures none { IfOk result (λ piece. length piece.items ≡ 0 → F.rest feed.old ≡ []) }
{
    let mut piece = Vec::new(alloc);
    for _ in 0..PIECE_RECORDS {
        match feed.next()? {
            Some(fed) => piece.push(fed)?,
            None => return Ok(piece),
        }
    }
    Ok(piece)
}

// Those of some records that are of the hart.
fn part_of(alloc: Global, piece: &[Fed], hart: u8) -> Result<Vec<Fed>, NoMemory>
    ensures { IfOk result (λ part. part.items ≡ records_on hart piece.now) }
{
    let mut part = Vec::new(alloc);
    for fed in piece {
        if record_hart(&fed.line.what) == hart {
            part.push(*fed)?;
        }
    }
    Ok(part)
}

// Feeds a worker those of the records that are of its hart.
fn feed_own<W: TurnWorker>(alloc: Global, piece: &[Fed], worker: &mut W) -> Result<(), NoMemory>
    requires { (rest : List Fed) × IsFedUpTo (piece.now ++ rest) (W.view worker.old) }
    ensures { OnOk result (IsFed piece.now (W.view worker.old) (W.view worker.new)) }
{
    let part = part_of(alloc, piece, worker.hart())?;
    match worker.feed(part) {
        Ok(()) => Ok(()),
        Err(_) => Err(NoMemory),
    }
}

// Feeds each worker those of the records that are of its hart.
pub(crate) fn share<W: TurnWorker>(
    alloc: Global,
    piece: &[Fed],
    workers: &mut [W],
) -> Result<(), NoMemory>
    requires { (rest : List Fed) × Every (IsFedUpTo (piece.now ++ rest)) W.view workers.old }
    ensures { OnOk result (EachLed (IsFed piece.now) W.view workers.old workers.new) }
{
    for i in 0..workers.len() {
        feed_own(alloc, piece, &mut workers[i])?;
    }
    Ok(())
}

// Tells each worker that its stream has ended.
pub(crate) fn end_streams<W: TurnWorker>(workers: &mut [W])
    requires { Every (IsFedUpTo []) W.view workers.old }
    ensures { EachLed IsTold W.view workers.old workers.new }
{
    for i in 0..workers.len() {
        workers[i].no_more();
    }
}
