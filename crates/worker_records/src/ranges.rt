//! Ranges of bytes, block by block.
ghost use Rattle.std.specs.Prelude.{◌≡◌, ◌+◌, ◌/◌, ◌%◌, ◌<◌, ◌≤◌};
ghost use Rattle.pl_base.specs.declared.layout.TheConstants.{BLOCK_BYTES, MEMORY_BYTES};
ghost use Rattle.pl_event.specs.Valid.{IsByteRange};
ghost use Rattle.shadow_layout.specs.Operations.{blocks_of, changed_word};
ghost use Rattle.worker_records.specs.Blocks.{part_of};
ghost use Rattle.worker_records.specs.Words.{HasLowNibbles};

use lifeguard::{Lifeguard, RangeKind};
use pl_base::layout::BLOCK_BYTES;
use shadow_frames::{nibble, with_nibble};

/// A range of bytes: its first address and how many there are.
#[derive(Clone, Copy)]
pub struct ByteRange {
    pub addr: u32,
    pub len: u32,
}

impl ByteRange {
    /// How many blocks it reaches.
    pub fn blocks(self) -> u32
        requires { IsByteRange self.addr self.len }
        ensures { result ≡ blocks_of self.addr self.len }
    {
        let bytes = u32::from(BLOCK_BYTES);
        (self.addr % bytes + self.len + bytes - 1) / bytes
    }

    /// Its bytes in a block that it reaches.
    pub fn in_block(self, block: u32) -> ByteRange
        requires range { IsByteRange self.addr self.len }
        requires from { self.addr / BLOCK_BYTES ≤ block }
        requires until { block < self.addr / BLOCK_BYTES + blocks_of self.addr self.len }
        ensures { result ≡ part_of self block }
    {
        let bytes = u32::from(BLOCK_BYTES);
        let start = block * bytes;
        let from = self.addr.max(start);
        let until = (self.addr + self.len).min(start + bytes);
        ByteRange {
            addr: from,
            len: until - from,
        }
    }

    /// The word of a block after an event changes the nibbles of these bytes of it.
    pub fn word_after<L: Lifeguard>(self, guard: L, kind: RangeKind, word: u64) -> u64
        requires near { self.addr < MEMORY_BYTES }
        requires narrow { self.addr % BLOCK_BYTES + self.len ≤ BLOCK_BYTES }
        requires low { HasLowNibbles word self.addr self.len }
        ensures { let block = self.addr / BLOCK_BYTES in
            result ≡ changed_word (λ i old. (L.rules guard).range_state kind old) self.addr self.len block word }
    {
        let mut after = word;
        let first = (self.addr % u32::from(BLOCK_BYTES)) as u8;
        for i in 0..self.len as u8 {
            let new = guard.range_state(kind, nibble(after, first + i));
            after = with_nibble(after, first + i, new);
        }
        after
    }
}
