//! Blocks whose nibbles are read or changed.
ghost use Rattle.std.specs.Prelude.{◌≡◌, ◌≢◌, ℕ, ◌+◌, ◌*◌, ◌/◌, ◌^◌, ◌<◌, ◌≤◌, OnOk};
ghost use Rattle.pl_base.specs.declared.layout.TheConstants.{BLOCK_BYTES, MAX_MAPPED_PAGES, MEMORY_BYTES};
ghost use Rattle.lifeguard.specs.Plain.{mask_bit};
ghost use Rattle.shadow_frames.specs.declared.words.TheConstants.{SHADOW_START, TABLE_WORDS};
ghost use Rattle.shadow_frames.specs.Words as words;
ghost use Rattle.shadow_frames.specs.Frames.{pages_from};
ghost use Rattle.shadow_layout.specs.Operations.{blocks_of, changed_word, load_shapes, not_addr, not_taint, only, store_shapes};
ghost use Rattle.shadow_layout.specs.Operations as layout;
ghost use Rattle.list_plan.specs.inner.Changes.{changed_nibble};
ghost use Rattle.list_plan.specs.inner.Fills.{Fills, words_of};
ghost use Rattle.list_plan.specs.inner.Tables.{HasNibbles};

use crate::filler::Filler;
use lifeguard::{Lifeguard, Name, RangeKind};
use pl_base::NoMemory;
use pl_base::layout::{BLOCK_BYTES, PAGE_BYTES, SMALL_BLOCK_BYTES};
use shadow_frames::words::{DIRECTORY_START, FRAME_WORDS, SHADOW_START};
use shadow_frames::{nibble, with_nibble};

/// What becomes of the nibbles of a range.
#[derive(Clone, Copy)]
pub(crate) enum Change {
    /// A register with this mask is stored there.
    Store { mask: u8 },
    /// An event of this kind.
    Range { kind: RangeKind },
}

// Whether bit `i` of a mask is set.
fn has_mask_bit(mask: u8, i: u32) -> bool
    ensures { result ≡ mask_bit mask i }
{
    if i >= 8 {
        return false;
    }
    (mask >> i) % 2 == 1
}

// What becomes of the old nibble of byte `i` of a range.
fn nibble_after<L: Lifeguard>(guard: L, change: Change, i: u32, old: u8) -> u8
    requires { old < 8 }
    ensures value { result ≡ changed_nibble (L.rules guard) change i old }
    ensures small { result < 8 }
{
    match change {
        Change::Store { mask } => guard.store_nibble(old, has_mask_bit(mask, i)),
        Change::Range { kind } => guard.range_state(kind, old),
    }
}

// The word of a block after the bytes of a range in it are changed.
fn word_after<L: Lifeguard>(
    guard: L,
    change: Change,
    addr: u32,
    len: u32,
    block: u32,
    word: u64,
) -> u64
    requires range { addr + len ≤ MEMORY_BYTES }
    requires block { block < 2 ^ 20 }
    requires nibbles { HasNibbles word }
    ensures value { result ≡ changed_word (changed_nibble (L.rules guard) change) addr len block word }
    ensures nibbles { HasNibbles result }
{
    let mut after = word;
    for i in 0..BLOCK_BYTES {
        let at = BLOCK_BYTES as u32 * block + u32::from(i);
        if addr <= at && at < addr + len {
            let new = nibble_after(guard, change, at - addr, nibble(after, i));
            after = with_nibble(after, i, new);
        }
    }
    after
}

// The shadow word of a block, where the directory's word of its page is this one.
fn shadow_word(directory: u64, block: u32) -> u32
    requires some { directory ≢ 0 }
    requires frame { directory ≤ MAX_MAPPED_PAGES }
    requires block { block < 2 ^ 20 }
    ensures word { result ≡ words.shadow_word directory (BLOCK_BYTES * block) }
    ensures low { SHADOW_START ≤ result }
    ensures high { result < TABLE_WORDS }
{
    let bytes = BLOCK_BYTES as u32;
    SHADOW_START + FRAME_WORDS * (directory as u32 - 1) + bytes * block % PAGE_BYTES / bytes
}

// The lanes of a load or a store.
fn lanes_of(size: u8, addr: u32) -> u8
    ensures value { result ≡ layout.lanes_of size addr }
{
    if size != SMALL_BLOCK_BYTES {
        return 15;
    }
    match addr % BLOCK_BYTES as u32 / SMALL_BLOCK_BYTES as u32 {
        0 => 1,
        1 => 2,
        2 => 4,
        _ => 8,
    }
}

// Whether the lifeguard checks accesses.
fn checks_accesses(name: Name) -> bool
    ensures { result ≡ not_taint name }
{
    match name {
        Name::Addr | Name::Mem => true,
        Name::Taint => false,
    }
}

// Whether the lifeguard follows values.
fn follows_values(name: Name) -> bool
    ensures { result ≡ not_addr name }
{
    match name {
        Name::Taint | Name::Mem => true,
        Name::Addr => false,
    }
}

impl Filler {
    // The bytes of a range in a block are changed.
    fn change_block<L: Lifeguard>(
        &mut self,
        guard: L,
        change: Change,
        addr: u32,
        len: u32,
        block: u32,
    ) -> Result<(), NoMemory>
        requires range { addr + len ≤ MEMORY_BYTES }
        requires block { block < 2 ^ 20 }
        ensures { OnOk result (Fills self.old self.new
            (layout.change_block (changed_nibble (L.rules guard) change) addr len (words_of self.old) block)) }
    {
        let directory = self.read(DIRECTORY_START + block / FRAME_WORDS, 15, false)?;
        if directory == 0 {
            return Ok(());
        }
        let word = shadow_word(directory, block);
        let old = self.read(word, 15, false)?;
        self.write(word, 15, word_after(guard, change, addr, len, block, old))?;
        Ok(())
    }

    // The bytes of a block are read.
    fn read_block(&mut self, block: u32) -> Result<(), NoMemory>
        requires { block < 2 ^ 20 }
        ensures { OnOk result (Fills self.old self.new (layout.read_block (words_of self.old) block)) }
    {
        let directory = self.read(DIRECTORY_START + block / FRAME_WORDS, 15, false)?;
        if directory == 0 {
            return Ok(());
        }
        self.read(shadow_word(directory, block), 15, false)?;
        Ok(())
    }

    // The bytes of a range are changed.
    pub(crate) fn change_range<L: Lifeguard>(
        &mut self,
        guard: L,
        change: Change,
        addr: u32,
        len: u32,
    ) -> Result<(), NoMemory>
        requires { addr + len ≤ MEMORY_BYTES }
        ensures { OnOk result (Fills self.old self.new
            (pages_from (layout.change_block (changed_nibble (L.rules guard) change) addr len) (words_of self.old)
            (addr / BLOCK_BYTES) (blocks_of addr len))) }
    {
        let bytes = BLOCK_BYTES as u32;
        let first = addr / bytes;
        for i in 0..(addr % bytes + len + 15) / bytes {
            self.change_block(guard, change, addr, len, first + i)?;
        }
        Ok(())
    }

    // The bytes of a range are read.
    pub(crate) fn read_range(&mut self, addr: u32, len: u32) -> Result<(), NoMemory>
        requires { addr + len ≤ MEMORY_BYTES }
        ensures { OnOk result (Fills self.old self.new
            (pages_from layout.read_block (words_of self.old) (addr / BLOCK_BYTES) (blocks_of addr len))) }
    {
        let bytes = BLOCK_BYTES as u32;
        let first = addr / bytes;
        for i in 0..(addr % bytes + len + 15) / bytes {
            self.read_block(first + i)?;
        }
        Ok(())
    }

    // The word of an address is read, for the check and for the value.
    pub(crate) fn load<L: Lifeguard>(
        &mut self,
        guard: L,
        size: u8,
        addr: u32,
    ) -> Result<(), NoMemory>
        requires { addr < MEMORY_BYTES }
        ensures { OnOk result (Fills self.old self.new (load_shapes (L.rules guard) size (words_of self.old) addr)) }
    {
        let block = addr / BLOCK_BYTES as u32;
        let directory = self.read(DIRECTORY_START + block / FRAME_WORDS, 15, false)?;
        if directory == 0 {
            return Ok(());
        }
        let word = shadow_word(directory, block);
        let lanes = lanes_of(size, addr);
        self.read_if(checks_accesses(guard.name()), word, lanes, true)?;
        self.read_if(follows_values(guard.name()), word, lanes, false)?;
        Ok(())
    }

    // The word of an address is read for the check, and its bytes are changed.
    pub(crate) fn store<L: Lifeguard>(
        &mut self,
        guard: L,
        size: u8,
        addr: u32,
        len: u32,
        mask: u8,
    ) -> Result<(), NoMemory>
        requires some { 1 ≤ len }
        requires range { addr + len ≤ MEMORY_BYTES }
        ensures { OnOk result (Fills self.old self.new
            (store_shapes (L.rules guard) size (words_of self.old) addr len mask)) }
    {
        let block = addr / BLOCK_BYTES as u32;
        let directory = self.read(DIRECTORY_START + block / FRAME_WORDS, 15, false)?;
        if directory == 0 {
            return Ok(());
        }
        let word = shadow_word(directory, block);
        let lanes = lanes_of(size, addr);
        self.read_if(checks_accesses(guard.name()), word, lanes, true)?;
        if !follows_values(guard.name()) {
            return Ok(());
        }
        let old = self.read(word, lanes, false)?;
        let new = word_after(guard, Change::Store { mask }, addr, len, block, old);
        self.write(word, lanes, new)?;
        Ok(())
    }
}
