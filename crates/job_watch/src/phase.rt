//! How far a feed is.

/// Whether more lines can come.
#[derive(Clone, Copy)]
pub enum Phase {
    /// The run goes on, or lines of its last step are left.
    Going,
    /// All lines were handed out.
    Over,
    /// No memory was left, so none comes any more.
    Failed,
}
