//! What a call of the kernel reads, and what it came to.
use pl_event::Kind;

/// The registers that a call of the kernel reads: a7 has its number, the others its arguments.
#[derive(Clone, Copy, Debug, PartialEq, Eq)]
pub struct CallArgs {
    pub a7: u32,
    pub a0: u32,
    pub a1: u32,
    pub a2: u32,
}

/// What a call of the kernel came to.
#[derive(Clone, Copy, Debug, PartialEq, Eq)]
pub enum KernelStep {
    /// The hart has ended with this code.
    Ended { code: u32 },
    /// The hart goes on with this answer in a0; `kind` is the kind of its event.
    Went { a0: u32, kind: Kind },
}
