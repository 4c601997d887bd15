//! The longest runs of the bytes that words represent, page by page through the directory.
ghost use Rattle.std.specs.Prelude.{◌≡◌, ℕ, ◌+◌, ◌%◌, ◌<◌, ◌≤◌, true, length, slice_index, IfOk};
ghost use Rattle.pl_base.specs.declared.layout.TheConstants.{MAX_MAPPED_PAGES, MEMORY_BYTES, PAGE_BYTES, PAGE_COUNT};
ghost use Rattle.lifeguard.specs.State.{Bytes};
ghost use Rattle.shadow_frames.specs.declared.words.TheConstants.{TABLE_WORDS};
ghost use Rattle.shadow_frames.specs.Words.{WordsRepresent, byte_of, directory_word, nibble_of};
ghost use Rattle.report_text.specs.Runs.{runs_of, AreLongestRuns};
ghost use Rattle.report_text.specs.FrameWords.{mapped_word, IsAlikeFor};

use crate::runs::{ByteRun, Nibbles, runs_below};
use pl_base::NoMemory;
use pl_base::layout::{BLOCK_BYTES, MEMORY_BYTES, PAGE_BYTES};
use shadow_frames::words::{DIRECTORY_START, FRAME_WORDS, SHADOW_START};
use shadow_frames::{all_nibbles, nibble, slot_of};
use std::alloc::Global;

/// The words of the table, whose directory names frames of the table.
#[derive(Clone, Copy)]
struct Frames<'a> {
    words: &'a [u64],
    ghost size: { length words.now ≡ TABLE_WORDS },
    ghost low: { (p : ℕ) → p < PAGE_COUNT → slice_index words.now (directory_word p) ≤ MAX_MAPPED_PAGES },
}

/// The shadow word of an address; none for a byte of no mapped page.
#[inline]
fn mapped_word(words: &[u64], addr: u32) -> Option<u64>
    requires size { length words.now ≡ TABLE_WORDS }
    requires low { (p : ℕ) → p < PAGE_COUNT → slice_index words.now (directory_word p) ≤ MAX_MAPPED_PAGES }
    requires inside { addr < MEMORY_BYTES }
    ensures { result ≡ mapped_word (slice_index words.now) addr }
{
    let slot = slot_of(addr);
    let entry = words[(DIRECTORY_START + slot.page as u32) as usize];
    if entry == 0 {
        None
    } else {
        let first = SHADOW_START + FRAME_WORDS * (entry as u32 - 1);
        Some(words[(first + slot.word as u32) as usize])
    }
}

/// Whether all nibbles of the word are seen to be the same.
#[inline]
fn is_word_alike(word: u64) -> bool
    ensures { result ≡ true → (i : ℕ) → i < 16 → nibble_of word i ≡ nibble_of word 0 }
{
    let first = nibble(word, 0);
    first < 8 && word == all_nibbles(first)
}

/// How many bytes from an address on are seen at one look to have the same nibble: all that are left of a page that is
/// not mapped, a block, or one.
#[inline]
fn bytes_alike(word: Option<u64>, addr: u32) -> u32
    requires inside { addr < MEMORY_BYTES }
    ensures some { 0 < result }
    ensures inside { addr % PAGE_BYTES + result ≤ PAGE_BYTES }
    ensures alike { IsAlikeFor word addr result }
{
    match word {
        None => PAGE_BYTES - addr % PAGE_BYTES,
        Some(word) => {
            if addr % BLOCK_BYTES as u32 == 0 && is_word_alike(word) {
                BLOCK_BYTES as u32
            } else {
                1
            }
        }
    }
}

impl<'a> Nibbles for Frames<'a> {
    ghost bytes = { λ nibbles. byte_of (slice_index nibbles.words.now) };

    ghost count = { λ nibbles. MEMORY_BYTES };

    #[inline]
    fn nibble(&self, addr: u32) -> u8 {
        match mapped_word(self.words, addr) {
            None => 0,
            Some(word) => nibble(word, slot_of(addr).byte),
        }
    }

    #[inline]
    fn alike_end(&self, addr: u32, size: u32) -> u32 {
        size.min(addr + bytes_alike(mapped_word(self.words, addr), addr))
    }
}

/// The longest runs of bytes with one nibble that is not 0, over all memory, by address. Each entry of the words'
/// directory is 0 or names a frame of the table. Where the words represent bytes, these are the runs of those bytes.
pub fn runs_of_words(alloc: Global, words: &[u64]) -> Result<Vec<ByteRun>, NoMemory>
    requires size { length words.now ≡ TABLE_WORDS }
    requires low { (p : ℕ) → p < PAGE_COUNT → slice_index words.now (directory_word p) ≤ MAX_MAPPED_PAGES }
    ensures runs { IfOk result (λ runs. runs.items ≡ runs_of (byte_of (slice_index words.now))) }
    ensures longest { let bytes = byte_of (slice_index words.now) in
        IfOk result (λ runs. AreLongestRuns bytes 0 MEMORY_BYTES runs.items) }
    ensures represented { (bytes : Bytes) → WordsRepresent (slice_index words.now) bytes →
        IfOk result (λ runs. runs.items ≡ runs_of bytes) }
{
    runs_below(alloc, Frames { words }, MEMORY_BYTES)
}
