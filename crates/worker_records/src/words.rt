//! Where the words of an access are, and what a word tells of its bytes.
ghost use Rattle.std.specs.Prelude.{◌≡◌, ℕ, ◌+◌, ◌%◌, ◌^◌, ◌<◌, ◌≤◌, find};
ghost use Rattle.pl_base.specs.declared.layout.TheConstants.{BLOCK_BYTES, MAX_MAPPED_PAGES, MEMORY_BYTES};
ghost use Rattle.pl_base.specs.declared.layout.TheConstants.{SMALL_BLOCK_BYTES};
ghost use Rattle.pl_base.specs.Widths.{load_bytes, store_bytes};
ghost use Rattle.lifeguard.specs.Plain.{mask_bit};
ghost use Rattle.lifeguard.specs.State.{Bytes, nibble_at, span};
ghost use Rattle.shadow_frames.specs.Words as words;
ghost use Rattle.shadow_layout.specs.Operations.{changed_word};
ghost use Rattle.worker_laws.specs.Reads.{directory_of, mask_in, stored_word, value_at};
ghost use Rattle.worker_records.specs.Words.{HasLowNibbles, TellsOf};

use lifeguard::{Lifeguard, Name, load_mask};
use pl_base::layout::{BLOCK_BYTES, PAGE_BYTES};
use pl_base::{LoadWidth, StoreWidth};
use shadow_frames::words::{DIRECTORY_START, FRAME_WORDS, SHADOW_START};
use shadow_frames::{nibble, with_nibble};

/// The directory's word of the page of an address.
#[inline]
pub fn directory_word(addr: u32) -> u32
    requires { addr < MEMORY_BYTES }
    ensures { result ≡ directory_of addr }
{
    DIRECTORY_START + addr / PAGE_BYTES
}

/// The word with the nibble of an address, where the directory's word of its page is this one.
#[inline]
pub fn shadow_word(directory: u64, addr: u32) -> u32
    requires some { 1 ≤ directory }
    requires frame { directory ≤ MAX_MAPPED_PAGES }
    ensures { result ≡ words.shadow_word directory addr }
{
    SHADOW_START + FRAME_WORDS * (directory as u32 - 1) + addr % PAGE_BYTES / BLOCK_BYTES as u32
}

/// Which operation of a load or a store the read of its value is.
#[inline]
pub fn value_op(name: Name) -> u32
    ensures { result ≡ value_at name }
{
    match name {
        Name::Addr | Name::Taint => 1,
        Name::Mem => 2,
    }
}

/// The nibble of byte `i` of an access.
#[inline]
fn nibble_in(word: u64, addr: u32, i: u8) -> u8
    requires { addr % BLOCK_BYTES + i < 16 }
    ensures { result ≡ words.nibble_of word (addr % BLOCK_BYTES + i) }
{
    nibble(word, (addr % BLOCK_BYTES as u32) as u8 + i)
}

/// The mask of a load that finds the word.
pub fn word_mask<L: Lifeguard>(guard: L, word: u64, width: LoadWidth, addr: u32) -> u8
    requires narrow { addr % SMALL_BLOCK_BYTES + load_bytes width ≤ SMALL_BLOCK_BYTES }
    requires low { HasLowNibbles word addr (load_bytes width) }
    ensures value { result ≡ mask_in (L.rules guard) width word addr }
    ensures small { result < 16 }
{
    let a = nibble_in(word, addr, 0);
    match width {
        LoadWidth::B | LoadWidth::Bu => load_mask(&guard, [a, 0, 0, 0], width),
        LoadWidth::H | LoadWidth::Hu => {
            load_mask(&guard, [a, nibble_in(word, addr, 1), 0, 0], width)
        }
        LoadWidth::W => {
            let b = nibble_in(word, addr, 1);
            let c = nibble_in(word, addr, 2);
            load_mask(&guard, [a, b, c, nibble_in(word, addr, 3)], width)
        }
    }
}

/// The first of so many bytes from `addr` on that may not be touched, where the word tells of them.
pub fn first_bad<L: Lifeguard>(guard: L, word: u64, addr: u32, len: u8) -> Option<u32>
    requires near { addr < MEMORY_BYTES }
    requires narrow { addr % BLOCK_BYTES + len ≤ BLOCK_BYTES }
    requires low { HasLowNibbles word addr len }
    ensures { (bytes : Bytes) → TellsOf word bytes addr len
        → result ≡ find (λ a. (L.rules guard).bad_access (nibble_at bytes a)) (span addr len) }
{
    for i in 0..len {
        if guard.bad_access(nibble_in(word, addr, i)) {
            return Some(addr + u32::from(i));
        }
    }
    None
}

/// The first of so many bytes from `addr` on that may not go outside, where the word tells of them.
pub fn first_undefined<L: Lifeguard>(guard: L, word: u64, addr: u32, len: u8) -> Option<u32>
    requires near { addr < MEMORY_BYTES }
    requires narrow { addr % BLOCK_BYTES + len ≤ BLOCK_BYTES }
    requires low { HasLowNibbles word addr len }
    ensures { (bytes : Bytes) → TellsOf word bytes addr len
        → result ≡ find (λ a. (L.rules guard).bad_value (nibble_at bytes a)) (span addr len) }
{
    for i in 0..len {
        if guard.bad_value(nibble_in(word, addr, i)) {
            return Some(addr + u32::from(i));
        }
    }
    None
}

// Whether bit `i` of a mask is set.
#[inline]
fn has_mask_bit(mask: u8, i: u8) -> bool
    requires { i < 4 }
    ensures { result ≡ mask_bit mask i }
{
    (mask >> i) % 2 == 1
}

/// The word after a register with this mask is stored to so many bytes from `addr` on.
pub fn word_after<L: Lifeguard>(guard: L, word: u64, mask: u8, width: StoreWidth, addr: u32) -> u64
    requires near { addr < MEMORY_BYTES }
    requires narrow { addr % SMALL_BLOCK_BYTES + store_bytes width ≤ SMALL_BLOCK_BYTES }
    requires low { HasLowNibbles word addr (store_bytes width) }
    ensures { result ≡ stored_word (L.rules guard) mask width addr word }
{
    let mut after = word;
    for i in 0..width.bytes() {
        let old = nibble_in(after, addr, i);
        let new = guard.store_nibble(old, has_mask_bit(mask, i));
        after = with_nibble(after, (addr % BLOCK_BYTES as u32) as u8 + i, new);
    }
    after
}
