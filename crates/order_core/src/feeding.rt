//! The core and the chunks of its harts, between two steps.
ghost use Rattle.std.specs.Prelude.{◌≡◌, ◌↔◌, IsTrue};
ghost use Rattle.order_core.specs.FedCore.{IsUpTo};
ghost use Rattle.order_core.specs.HartFeeds.{feed_in};

use crate::feed::HartFeed;
use crate::state::CoreState;
use crate::steps::{Act, CoreStep};

/// The state of the core, and what the feeder has done.
#[derive(Drop)]
pub(crate) struct Feeding {
    pub(crate) core: CoreState,
    /// How many lines of the log were produced.
    pub(crate) produced: u32,
    pub(crate) feeds: [HartFeed; 8],
}

impl Feeding {
    // How many records a hart took: none for a number that is no hart.
    fn taken(&self, hart: u8) -> u32
        ensures { result ≡ (feed_in self.now.feeds hart).taken }
    {
        match self.feeds.get(hart as usize) {
            None => 0,
            Some(feed) => feed.taken,
        }
    }

    // Whether the hart took the records that its step is for.
    pub(crate) fn has_taken(&self, step: CoreStep) -> bool
        ensures { IsTrue result ↔ IsUpTo (feed_in self.now.feeds step.hart).taken step.act }
    {
        match step.act {
            Act::See { of: _ } => true,
            Act::Advertise { upto } => upto <= self.taken(step.hart),
            Act::Perform { number, op: _ } => number <= self.taken(step.hart),
        }
    }
}
