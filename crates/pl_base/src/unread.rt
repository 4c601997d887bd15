//! Bytes in memory that are read in their order.
ghost use Rattle.std.specs.Prelude.{◌≡◌, ◌++◌, length, take, drop, min};

use std::marker::Model;

/// Bytes in memory that are read in their order. Contracts see those that are left.
#[derive(Drop)]
pub(crate) struct Unread {
    bytes: Vec<u8>,
    at: usize,
}

impl Model for Unread {
    ghost use Rattle.std.specs.Prelude.{ℕ, List, drop, ◌≤◌, vec_len};

    ghost Value = { List ℕ };

    ghost view = { λ u. drop u.at u.bytes.items };

    ghost invariant = { λ u. u.at ≤ vec_len u.bytes };
}

impl Unread {
    pub(crate) fn new(bytes: Vec<u8>) -> Unread
        ensures { result ≡ bytes.items }
    {
        Unread { bytes, at: 0 }
    }

    /// Moves the next bytes to the beginning of a slice, as many as fit and at most `most`.
    pub(crate) fn read(&mut self, into: &mut [u8], most: usize) -> usize
        ensures count { result ≡ min (min (length self.old) most) (length into.old) }
        ensures bytes { self.old ≡ take result into.new ++ self.new }
        ensures rest { self.new ≡ drop result self.old }
    {
        let count = (self.bytes.len() - self.at).min(most).min(into.len());
        into[..count].copy_from_slice(&self.bytes[self.at..self.at + count]);
        self.at += count;
        count
    }
}
