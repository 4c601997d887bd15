//! The steps of harts.
/// What a hart does in one step of the core.
#[derive(Clone, Copy, Debug, PartialEq, Eq)]
pub enum Act {
    /// Takes over the progress word of hart `of`.
    See { of: u8 },
    /// Sets its own progress word.
    Advertise { upto: u32 },
    /// Performs operation `op`, from 0, of its record `number`.
    Perform { number: u32, op: u32 },
}

/// A step of a hart.
#[derive(Clone, Copy, Debug, PartialEq, Eq)]
pub struct CoreStep {
    pub hart: u8,
    pub act: Act,
}
