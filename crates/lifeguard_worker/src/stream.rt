//! The records that a worker is fed, and forgets.
ghost use Rattle.std.specs.Prelude.{◌≡◌, ◌+◌, ◌≤◌, ◌++◌, List, OnOk, length, map, take};
ghost use Rattle.lifeguard_worker.specs.Rows.{Item, item_of};

use crate::rows::Rows;
use crate::worker::Worker;
use lifeguard::Lifeguard;
use pl_event::Fed;
use std::alloc::AllocError;
use turn_worker::TurnWorker;

/// Adds the records that follow the first `from` ones of a stream, where they are not there yet.
pub(crate) fn add_fed(stream: &mut Rows, from: usize, fed: &[Fed]) -> Result<(), AllocError>
    requires next { (whole : List Item) × (take (length stream.old) whole ≡ stream.old)
        × (take (from + length fed.now) whole ≡ take from stream.old ++ map item_of fed.now) }
    requires inside { from ≤ length stream.old }
    ensures begins { (whole : List Item) → take (length stream.old) whole ≡ stream.old
        → take (from + length fed.now) whole ≡ take from stream.old ++ map item_of fed.now
        → take (length stream.new) whole ≡ stream.new }
    ensures more { length stream.old ≤ length stream.new }
    ensures all { OnOk result (from + length fed.now ≤ length stream.new) }
{
    for i in 0..fed.len() {
        let len = stream.len();
        if from + i < len {
            continue;
        }
        stream.push(&fed[i])?;
    }
    Ok(())
}

impl<L: Lifeguard> Worker<L> {
    /// Forgets the records that it has, once all that it was fed are taken. Others of them came in a list that was
    /// refused, and will be fed again.
    pub(crate) fn forget(&mut self)
        ensures { let view = ⟦<Worker<L> as TurnWorker>⟧.view in view self.new ≡ view self.old }
    {
        if self.state.taken as usize == self.fed {
            self.before = self.fed;
            self.stream.clear();
        }
    }
}
