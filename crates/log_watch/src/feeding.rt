//! A worker that is fed its stream in pieces.
ghost use Rattle.std.specs.Prelude.{◌≡◌, ◌++◌, ◌∷◌, [], List, OnOk, IfOk, true};
ghost use Rattle.turn_worker.specs.Workers.{WorkerView, stream_of};
ghost use Rattle.log_watch.specs.Feeding.{Begins, IsFedBy};

use pl_base::NoMemory;
use pl_event::Fed;
use std::alloc::Global;
use std::mem;
use turn_worker::TurnWorker;

/// How many records a worker is fed at a time.
const PIECE_RECORDS: usize = 64;

/// A worker, and the next records of its stream, which it is fed once they are a whole piece.
#[derive(Drop)]
pub(crate) struct Feeding<W: TurnWorker> {
    worker: W,
    piece: Vec<Fed>,
}

impl<W: TurnWorker> Feeding<W> {
    /// A worker that was fed nothing yet.
    pub(crate) fn new(alloc: Global, worker: W) -> Feeding<W>
        ensures worker { result.worker ≡ worker }
        ensures piece { result.piece.items ≡ [] }
    {
        let piece = Vec::new(alloc);
        Feeding { worker, piece }
    }

    // Feeds the worker the piece.
    fn hand_over(&mut self, alloc: Global) -> Result<(), NoMemory>
        requires { (start : WorkerView) × (told : List Fed)
            × IsFedBy start (W.view self.old.worker) self.old.piece.items told × Begins told (stream_of start) }
        ensures piece { OnOk result (self.new.piece.items ≡ []) }
        ensures fed { (start : WorkerView) (told : List Fed) →
            IsFedBy start (W.view self.old.worker) self.old.piece.items told →
            OnOk result (IsFedBy start (W.view self.new.worker) [] told) }
    {
        let next = Vec::with_capacity(alloc, PIECE_RECORDS)?;
        let piece = mem::replace(&mut self.piece, next);
        if self.worker.feed(piece).is_err() {
            return Err(NoMemory);
        }
        Ok(())
    }

    /// One more record of the worker's stream.
    pub(crate) fn push(&mut self, alloc: Global, fed: Fed) -> Result<(), NoMemory>
        requires { (start : WorkerView) × (told : List Fed)
            × IsFedBy start (W.view self.old.worker) self.old.piece.items told
            × Begins (told ++ fed ∷ []) (stream_of start) }
        ensures { (start : WorkerView) (told : List Fed) →
            IsFedBy start (W.view self.old.worker) self.old.piece.items told →
            OnOk result (IsFedBy start (W.view self.new.worker) self.new.piece.items (told ++ fed ∷ [])) }
    {
        self.piece.push(fed)?;
        if self.piece.len() >= PIECE_RECORDS {
            self.hand_over(alloc)?;
        }
        Ok(())
    }

    /// The worker, after its whole stream.
    pub(crate) fn finish(mut self, alloc: Global) -> Result<W, NoMemory>
        requires { (start : WorkerView) × IsFedBy start (W.view self.worker) self.piece.items (stream_of start) }
        ensures { (start : WorkerView) → IsFedBy start (W.view self.worker) self.piece.items (stream_of start) →
            IfOk result (λ worker. W.view worker ≡ record start { fed = stream_of start; ended = true }) }
    {
        self.hand_over(alloc)?;
        let Feeding {
            mut worker,
            piece: _,
        } = self;
        worker.no_more();
        Ok(worker)
    }
}
