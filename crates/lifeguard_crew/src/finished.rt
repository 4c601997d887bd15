//! What a driver has found.
use guard_table::GuardSeat;
use turn_worker::HartResult;

/// The results and the seats of all harts, by rising hart.
#[derive(Drop)]
pub struct Finished {
    pub results: Vec<HartResult>,
    pub seats: Vec<GuardSeat>,
}
