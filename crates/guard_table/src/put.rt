//! How a write changes its word.
/// How a write changes its word.
#[derive(Clone, Copy, Debug, PartialEq, Eq)]
pub enum Put {
    /// The word becomes the value.
    Store { value: u64 },
    /// These bits of the word change, and the others stay as they are by then.
    Flip { bits: u64 },
}
