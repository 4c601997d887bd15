//! Reading the state of the core beside its feeder.
ghost use Rattle.std.specs.Prelude.{◌≡◌, length};
ghost use Rattle.order_core.specs.FedStates.{fed_of};

use crate::fed_state::FedState;
use crate::state::CoreState;

impl FedState {
    /// The state of the core. A cursor counts the records that the hart has taken and passed.
    pub fn core(&self) -> &CoreState
        ensures { result.now ≡ self.now.core }
    {
        &self.core
    }

    /// How many lines of the log the feeder has produced.
    pub fn produced(&self) -> u32
        ensures { result ≡ (fed_of self.now).produced }
    {
        self.produced
    }

    /// How many records the partial chunk of a hart has: none for a number that is no hart of the run.
    pub fn partial(&self, hart: u8) -> u32
        ensures { result ≡ ((fed_of self.now).feed hart).partial }
    {
        match self.feeds.get(hart as usize) {
            None => 0,
            Some(feed) => feed.partial,
        }
    }

    /// How many chunks are in the ring of a hart: none for a number that is no hart of the run.
    pub fn ring(&self, hart: u8) -> u32
        ensures { result ≡ length ((fed_of self.now).feed hart).ring }
    {
        match self.feeds.get(hart as usize) {
            None => 0,
            Some(feed) => feed.count,
        }
    }

    /// How many records a hart took: none for a number that is no hart of the run.
    pub fn taken(&self, hart: u8) -> u32
        ensures { result ≡ ((fed_of self.now).feed hart).taken }
    {
        match self.feeds.get(hart as usize) {
            None => 0,
            Some(feed) => feed.taken,
        }
    }
}
