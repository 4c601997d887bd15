//! What the seat of a hart, the head or a note knows of the table.
use order_core::Course;
use std::collections::LinkedList;

/// Whose view it is.
pub enum Role {
    /// The head's, which makes the seats of the harts and takes them back.
    OfHead,
    /// A hart's.
    OfHart,
    /// A note's, which tells of the progress word of a hart.
    OfNote,
    /// Nobody's: it was joined into another.
    Spent,
}

/// What a seat knows. No value of it is made.
pub struct View {
    pub role: Role,
    /// The run, on which all views agree.
    pub course: Course,
    pub hart: u8,
    /// How many writes the hart has performed.
    pub written: u32,
    /// The hart's progress word; in a note, what it was.
    pub progress: u64,
    /// For each hart the progress word that was loaded last.
    pub seen: LinkedList<u64>,
    /// For each hart the greatest number that a note told.
    pub learnt: LinkedList<u64>,
    /// For each hart how often its progress word was loaded.
    pub looks: LinkedList<u64>,
    /// The harts whose seats the head has made.
    pub made: LinkedList<u8>,
    /// The harts whose seats the head has taken back.
    pub freed: LinkedList<u8>,
}
