//! Where a driver keeps a worker, or what it has found.
use guard_table::GuardSeat;
use turn_worker::HartResult;

/// The slot of a hart in a row, which has a slot for each hart.
#[derive(Drop)]
pub(crate) enum Slot<W> {
    /// Another row has the worker of this hart.
    Idle,
    /// The worker, and the number of its next record.
    Works { worker: W, number: u32 },
    /// What the worker found, and its seat.
    Ended { result: HartResult, seat: GuardSeat },
}
