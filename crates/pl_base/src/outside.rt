//! Where bytes come from and go to, and the gate that workers pass.
ghost use Rattle.std.specs.Prelude.{◌≡◌, ◌↔◌, ◌≤◌, ◌<◌, List, [], ℕ, length, IfOk, IfSome};
ghost use Rattle.std.specs.declared.option.Option.{Option};
ghost use Rattle.std.specs.Io.{ReadsAtMost};
ghost use Rattle.std.specs.Io.KnownBytes.{ReadConsumes, WriteAppends};
ghost use Rattle.pl_base.specs.Causes.{HasCause};

use std::alloc::{AllocError, AllocFailed};

/// A read or a write that failed.
#[derive(Clone, Copy, Debug, PartialEq, Eq)]
pub struct Failed;

/// No memory was left.
#[derive(Clone, Copy, Debug, PartialEq, Eq)]
pub struct NoMemory;

impl From<AllocError> for NoMemory {
    ghost from_gives = { λ _ e. e ≡ record {} };

    fn from(_error: AllocError) -> NoMemory {
        NoMemory
    }
}

impl<T: Drop> From<AllocFailed<T>> for NoMemory {
    ghost from_gives = { λ _ e. e ≡ record {} };

    fn from(_refused: AllocFailed<T>) -> NoMemory {
        NoMemory
    }
}

/// Where bytes come from.
pub trait Source {
    /// The bytes that are left, where it tells them.
    ghost left: { Self → Option (List ℕ) };

    /// How many reads have failed: a number of 64 bits that never falls, and stays at its last value.
    ghost faults: { Self → ℕ };

    /// Reads the next bytes to the beginning of a slice that is not empty, and says how many: at most
    /// the slice's length, and zero at the end alone. A read that succeeds counts no fault.
    ///
    /// # Errors
    ///
    /// `Failed` where the read failed. Then nothing was taken, the fault was counted, and what the
    /// slice holds is not known.
    fn read(&mut self, into: &mut [u8]) -> Result<usize, Failed>
        requires { 0 < length into.old }
        ensures bound { ReadsAtMost result into.new }
        ensures bytes { ReadConsumes (left self.old) (left self.new) result into.new }
        ensures end { IfOk result (λ n. IfSome (left self.old) (λ bytes. (n ≡ 0) ↔ (bytes ≡ []))) }
        ensures cause { HasCause (faults self.old) (faults self.new) result };
}

/// Where bytes go.
pub trait Sink {
    /// The bytes that were written, where it tells them.
    ghost written: { Self → Option (List ℕ) };

    /// How many writes have failed: a number of 64 bits that never falls, and stays at its last value.
    ghost faults: { Self → ℕ };

    /// Appends the first bytes of a piece that is not empty, and says how many: at least one. A write that
    /// succeeds counts no fault.
    ///
    /// # Errors
    ///
    /// `Failed` where the write failed, and where the sink can take nothing. Then nothing was
    /// appended, and the fault was counted.
    fn write(&mut self, piece: &[u8]) -> Result<usize, Failed>
        requires { 0 < length piece.now }
        ensures bound { IfOk result (λ n. (0 < n) × (n ≤ length piece.now)) }
        ensures bytes { WriteAppends (written self.old) (written self.new) result piece.now }
        ensures cause { HasCause (faults self.old) (faults self.new) result };
}

/// What a worker passes before each of its turns. A test can hold workers there.
pub trait Gate {
    /// Lets the worker of a hart pass, whose next record has this number.
    fn pass(&self, hart: u8, number: u32);
}

/// The gate that is always open.
#[derive(Clone, Copy, Debug, Default, PartialEq, Eq)]
pub struct OpenGate;

impl Gate for OpenGate {
    fn pass(&self, _hart: u8, _number: u32) {}
}
