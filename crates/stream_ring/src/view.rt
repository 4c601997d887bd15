//! What a pass of a ring knows.
use pl_event::Fed;
use std::collections::LinkedList;

/// What a pass knows. No value of it is made.
pub struct View {
    /// Whether it may offer.
    pub offers: bool,
    /// Whether it may take.
    pub takes: bool,
    pub hart: u8,
    /// The records that it has offered.
    pub sent: LinkedList<Fed>,
    /// The records that it has taken.
    pub got: LinkedList<Fed>,
}
