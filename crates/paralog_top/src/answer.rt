//! What a command answers to its input.

use pl_event::Point;

/// What an answer says.
#[derive(Clone, Copy, Debug, PartialEq, Eq)]
pub enum Verdict {
    /// Nothing bad was found.
    Clean,
    /// The lifeguard has a report.
    Reports,
    /// The first two conflicting records of the log that are not ordered.
    Unordered { earlier: Point, later: Point },
}

/// What a command writes, and what that says.
#[derive(Drop)]
pub struct Answer {
    pub text: Vec<u8>,
    pub verdict: Verdict,
}
