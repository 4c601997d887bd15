//! A source over bytes in memory.
ghost use Rattle.std.specs.Prelude.{◌≡◌, ◌≤◌, ◌<◌, ◌↔◌, length, Some, IsErr, IfOk, OnErr, IfSome, []};
ghost use Rattle.std.specs.Io.{ReadsAtMost};
ghost use Rattle.std.specs.Io.KnownBytes.{ReadConsumes};
ghost use Rattle.pl_base.specs.Causes.{HasCause};
ghost use Rattle.pl_base.specs.FaultPlan.{NamesNext, new_plan};
ghost use Rattle.pl_base.specs.MemSource.{Input, given, after_read, after_failed_read};

use crate::fault_plan::FaultPlan;
use crate::unread::Unread;
use crate::{Failed, Source};
use std::marker::Model;

/// A source over bytes in memory that fails at the calls that it is told.
///
/// It counts calls up to the last value of `u64`, and fails at none from there on.
#[derive(Drop)]
pub struct MemSource {
    unread: Unread,
    piece: u32,
    plan: FaultPlan,
}

impl Model for MemSource {
    ghost use Rattle.std.specs.Prelude.{◌<◌};
    ghost use Rattle.pl_base.specs.MemSource.{Input};

    ghost Value = { Input };

    ghost view = { λ s. record { left = s.unread; piece = s.piece; plan = s.plan } };

    ghost invariant = { λ s. 0 < s.piece };
}

impl MemSource {
    /// A source of these bytes that gives at most `piece` of them a call, and fails at the calls
    /// whose numbers, from 1, are in `fails`.
    pub fn new(bytes: Vec<u8>, piece: u32, fails: Vec<u32>) -> MemSource
        requires { 0 < piece }
        ensures { result ≡ record { left = bytes.items; piece = piece; plan = new_plan fails.items } }
    {
        MemSource {
            unread: Unread::new(bytes),
            piece,
            plan: FaultPlan::new(fails),
        }
    }
}

impl Source for MemSource {
    ghost left = { λ s. Some s.left };

    ghost faults = { λ s. s.plan.faults };

    fn read(&mut self, into: &mut [u8]) -> Result<usize, Failed>
        requires { 0 < length into.old }
        ensures bound { ReadsAtMost result into.new }
        ensures bytes { ReadConsumes (Some self.old.left) (Some self.new.left) result into.new }
        ensures end { IfOk result (λ n. (n ≡ 0) ↔ (self.old.left ≡ [])) }
        ensures cause { HasCause self.old.plan.faults self.new.plan.faults result }

        ensures named { IsErr result ↔ NamesNext self.old.plan }
        ensures given { IfOk result (λ n. n ≡ given self.old (length into.old)) }
        ensures read { IfOk result (λ n. self.new ≡ after_read self.old n) }
        ensures failed { OnErr result (self.new ≡ after_failed_read self.old) }
    {
        if self.plan.names_next() {
            self.plan.count_fault();
            return Err(Failed);
        }
        self.plan.count_call();
        Ok(self.unread.read(into, self.piece as usize))
    }
}
