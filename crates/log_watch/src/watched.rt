//! What the workers of a log found.

use turn_worker::HartResult;

/// What the worker of each hart found, by rising hart, and the words of the shared table after the last record.
#[derive(Drop)]
pub struct Watched {
    pub results: Vec<HartResult>,
    pub words: Vec<u64>,
}
