//! The rings of a run when they are made.
use stream_ring::{Ring, RunName, SendPass, TakePass};

/// A ring for each hart of a run, and by number the right to offer to it and the right to take from it.
#[derive(Drop)]
pub struct Opened<N: RunName> {
    pub rings: Vec<Ring<N>>,
    pub sends: Vec<SendPass<N>>,
    pub takes: Vec<TakePass<N>>,
}
