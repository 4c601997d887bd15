//! How far a call of the feeder came.

/// How far a call of the feeder came.
#[derive(Clone, Copy, Debug, PartialEq, Eq)]
pub enum Feeding {
    /// Records were taken from the feed, and more may be left.
    Fed,
    /// A ring was full. What the other parts had was offered too.
    Full,
    /// The feed is at its end, and all was offered.
    Ended,
}
