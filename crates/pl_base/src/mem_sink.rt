//! A sink that keeps what is written in memory.
ghost use Rattle.std.specs.Prelude.{◌≡◌, ◌≤◌, ◌<◌, ◌↔◌, length, Some, IsErr, IfOk, OnErr};
ghost use Rattle.std.specs.Io.KnownBytes.{WriteAppends};
ghost use Rattle.pl_base.specs.Causes.{HasCause};
ghost use Rattle.pl_base.specs.MemSink.{new_output, FailsNext, taken, after_write, after_failed_write};

use crate::fault_plan::FaultPlan;
use crate::{Failed, NoMemory, Sink};
use std::alloc::Global;
use std::marker::Model;

/// A sink that keeps the bytes in memory, and fails at the calls that it is told and where no room is left.
///
/// It counts calls up to the last value of `u64`, and none from there on is named.
#[derive(Drop)]
pub struct MemSink {
    bytes: Vec<u8>,
    room: usize,
    piece: u32,
    plan: FaultPlan,
}

impl Model for MemSink {
    ghost use Rattle.std.specs.Prelude.{◌+◌, ◌≤◌, ◌<◌, vec_len, vec_capacity};
    ghost use Rattle.pl_base.specs.MemSink.{Output};

    ghost Value = { Output };

    ghost view = { λ s. record { written = s.bytes.items; room = s.room; piece = s.piece; plan = s.plan } };

    ghost invariant = { λ s. (vec_len s.bytes + s.room ≤ vec_capacity s.bytes) × (0 < s.piece) };
}

impl MemSink {
    /// A sink with memory for `room` bytes that takes at most `piece` of them a call, and fails at
    /// the calls whose numbers, from 1, are in `fails`.
    ///
    /// # Errors
    ///
    /// `NoMemory` where there was no memory for `room` bytes.
    pub fn new(alloc: Global, room: u32, piece: u32, fails: Vec<u32>) -> Result<MemSink, NoMemory>
        requires { 0 < piece }
        ensures { IfOk result (λ sink. sink ≡ new_output room piece fails.items) }
    {
        let bytes = Vec::with_capacity(alloc, room as usize)?;
        Ok(MemSink {
            bytes,
            room: room as usize,
            piece,
            plan: FaultPlan::new(fails),
        })
    }

    /// The bytes that were written.
    pub fn written(&self) -> &[u8]
        ensures { result.now ≡ self.now.written }
    {
        self.bytes.as_slice()
    }
}

impl Sink for MemSink {
    ghost written = { λ s. Some s.written };

    ghost faults = { λ s. s.plan.faults };

    fn write(&mut self, piece: &[u8]) -> Result<usize, Failed>
        requires { 0 < length piece.now }
        ensures bound { IfOk result (λ n. (0 < n) × (n ≤ length piece.now)) }
        ensures bytes { WriteAppends (Some self.old.written) (Some self.new.written) result piece.now }
        ensures cause { HasCause self.old.plan.faults self.new.plan.faults result }

        ensures fails { IsErr result ↔ FailsNext self.old }
        ensures taken { IfOk result (λ n. n ≡ taken self.old (length piece.now)) }
        ensures written { IfOk result (λ n. self.new ≡ after_write self.old piece.now n) }
        ensures failed { OnErr result (self.new ≡ after_failed_write self.old) }
    {
        if self.plan.names_next() || self.room == 0 {
            self.plan.count_fault();
            return Err(Failed);
        }
        self.plan.count_call();
        let count = self.room.min(self.piece as usize).min(piece.len());
        self.bytes.extend_from_slice(&piece[..count]).unwrap();
        self.room -= count;
        Ok(count)
    }
}
