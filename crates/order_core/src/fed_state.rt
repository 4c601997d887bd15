//! The state of the core beside its feeder.
ghost use Rattle.order_core.specs.inner.KeptFeeds.{AreKeptFeeds};

use crate::feed::HartFeed;
use crate::state::CoreState;

/// Where a list of steps of the core and its feeder leads.
#[derive(Drop)]
pub struct FedState {
    pub(crate) core: CoreState,
    pub(crate) produced: u32,
    pub(crate) feeds: [HartFeed; 8],
    ghost kept: { AreKeptFeeds feeds },
}
