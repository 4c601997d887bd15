//! A source and a sink that never fail.
ghost use Rattle.std.specs.Prelude.{◌≡◌, ◌≤◌, ◌<◌, ◌↔◌, ◌+◌, [], length, drop, min, Some, None, IsOkAnd, IfOk};
ghost use Rattle.std.specs.Io.{ReadsAtMost};
ghost use Rattle.std.specs.Io.KnownBytes.{ReadConsumes, WriteAppends};
ghost use Rattle.pl_base.specs.Causes.{HasCause};

use crate::unread::Unread;
use crate::{Failed, Sink, Source};
use std::marker::Model;

/// A source over bytes in memory that never fails.
#[derive(Drop)]
pub struct CleanSource {
    unread: Unread,
}

impl Model for CleanSource {
    ghost use Rattle.std.specs.Prelude.{ℕ, List};

    ghost Value = { List ℕ };

    ghost view = { λ s. s.unread };
}

impl CleanSource {
    /// A source of these bytes.
    pub fn new(bytes: Vec<u8>) -> CleanSource
        ensures { result ≡ bytes.items }
    {
        CleanSource {
            unread: Unread::new(bytes),
        }
    }
}

impl Source for CleanSource {
    ghost left = { λ bytes. Some bytes };

    ghost faults = { λ _. 0 };

    /// Reads as many of the next bytes as fit.
    fn read(&mut self, into: &mut [u8]) -> Result<usize, Failed>
        requires { 0 < length into.old }
        ensures bound { ReadsAtMost result into.new }
        ensures bytes { ReadConsumes (Some self.old) (Some self.new) result into.new }
        ensures end { IfOk result (λ n. (n ≡ 0) ↔ (self.old ≡ [])) }
        ensures cause { HasCause 0 0 result }

        ensures given { IsOkAnd result (λ n. n ≡ min (length self.old) (length into.old)) }
    {
        let room = into.len();
        Ok(self.unread.read(into, room))
    }
}

/// A sink that takes each piece whole, keeps nothing and never fails.
#[derive(Clone, Copy, Debug, Default, PartialEq, Eq)]
pub struct CleanSink;

impl CleanSink {
    /// A sink.
    pub fn new() -> CleanSink {
        CleanSink
    }
}

impl Sink for CleanSink {
    ghost written = { λ _. None };

    ghost faults = { λ _. 0 };

    fn write(&mut self, piece: &[u8]) -> Result<usize, Failed>
        requires { 0 < length piece.now }
        ensures bound { IfOk result (λ n. (0 < n) × (n ≤ length piece.now)) }
        ensures bytes { WriteAppends None None result piece.now }
        ensures cause { HasCause 0 0 result }

        ensures taken { IsOkAnd result (λ n. n ≡ length piece.now) }
    {
        Ok(piece.len())
    }
}
