//! What a command comes to.

/// The status, the bytes written, and how many bytes of the input were not read.
#[derive(Drop)]
pub struct Outcome {
    pub status: u8,
    pub output: Vec<u8>,
    pub note: Vec<u8>,
    pub left: usize,
}

impl Outcome {
    ghost use Rattle.std.specs.Prelude.{◌↔◌, IsTrue};
    ghost use Rattle.cases.specs.Outcome.{IsSame};

    /// Whether both are the same in all parts.
    pub fn is_same(&self, other: &Outcome) -> bool
        ensures { IsTrue result ↔ IsSame self.now other.now }
    {
        self.status == other.status
            && self.output == other.output
            && self.note == other.note
            && self.left == other.left
    }
}
