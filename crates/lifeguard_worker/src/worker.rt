//! The worker of one hart.
ghost use Rattle.guard_table.specs.Seats.{seat_view};
ghost use Rattle.lifeguard_worker.specs.Workers.{IsWorker};

use crate::rows::Rows;
use guard_table::GuardSeat;
use lifeguard::Lifeguard;
use worker_records::State;

/// The worker of one hart under a lifeguard.
#[derive(Drop)]
pub struct Worker<L: Lifeguard> {
    pub(crate) guard: L,
    pub(crate) seat: GuardSeat,
    pub(crate) state: State,
    /// The hart's progress word.
    pub(crate) told: u64,
    /// How many first records of the hart's stream are forgotten.
    pub(crate) before: usize,
    /// The records after these. Those from `fed` on came in a list that was refused.
    pub(crate) stream: Rows,
    /// How many records of the hart's stream were fed.
    pub(crate) fed: usize,
    pub(crate) ended: bool,
    ghost is: { IsWorker (L.rules guard) (seat_view seat) state told before stream fed ended },
}
