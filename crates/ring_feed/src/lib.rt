//! The feeder of a run: it takes the lines of the run from a feed and offers them in chunks to the rings of its harts.
//!
//! Each hart has an outlet: the right to offer to its ring, and the records that are not offered yet. A record is
//! appended to the outlet of its hart, and 64 of them are offered as a chunk. Before the feeder says that a ring is
//! full, and at the end of the feed, it offers what the other outlets have too. What was offered, what is in the outlet and
//! what of the rest is of the hart are at each time the hart's whole stream.
#![tactic(auto)]

mod feeder;
mod feeding;
mod opened;
mod outlet;
mod rings;

pub use feeder::{PIECE_RECORDS, feed_on};
pub use feeding::Feeding;
pub use opened::Opened;
pub use outlet::Outlet;
pub use rings::{open_rings, outlets_of};
