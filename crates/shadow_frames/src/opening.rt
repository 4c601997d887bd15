//! The words of the table at the start of a run.
ghost use Rattle.std.specs.Prelude.{◌≡◌, ℕ, ◌+◌, ◌*◌, ◌<◌, ◌≤◌, All, IfOk, fold, length, slice_index};
ghost use Rattle.pl_base.specs.declared.layout.TheConstants.{MAX_MAPPED_PAGES, PAGE_COUNT};
ghost use Rattle.pl_event.specs.OpeningPages.{RiseFrom, pages_in};
ghost use Rattle.order_core.specs.Shapes.{after_shapes};
ghost use Rattle.shadow_frames.specs.declared.words.TheConstants.{TABLE_WORDS, FRAME_WORDS};
ghost use Rattle.shadow_frames.specs.Words.{AreFirstFrames, frame_word};
ghost use Rattle.shadow_frames.specs.Frames.{map_page, pages_from};
ghost use Rattle.shadow_frames.specs.Opening.{after_page, opening_words, state_in};
ghost use Rattle.shadow_frames.specs.Opening as opening;

use crate::bits::with_bit;
use crate::nibbles::all_nibbles;
use crate::words::{DIRECTORY_START, FRAME_MAP_START, FRAME_WORDS, SHADOW_START, TABLE_WORDS};
use pl_base::NoMemory;
use pl_event::{PageKind, PageRun};
use std::alloc::Global;

/// The words at a start: those of these pages, each with the nibble of its kind, of which `states` has three.
pub fn initial(alloc: Global, pages: &[PageRun], states: [u8; 3]) -> Result<Vec<u64>, NoMemory>
    requires rising { RiseFrom 0 pages.now }
    requires room { pages_in pages.now ≤ MAX_MAPPED_PAGES }
    requires states { All (λ state. state < 8) states }
    ensures size { IfOk result (λ words. length words.items ≡ TABLE_WORDS) }
    ensures words { IfOk result (λ words. slice_index words.items ≡ opening_words (state_in states) pages.now) }
{
    let mut words = vec![in alloc; 0; TABLE_WORDS as usize]?;
    map_runs(&mut words, pages, states);
    Ok(words)
}

// The pages of runs get the first frames, in their order.
fn map_runs(words: &mut [u64], pages: &[PageRun], states: [u8; 3])
    requires size { length words.now ≡ TABLE_WORDS }
    requires rising { RiseFrom 0 pages.now }
    requires room { pages_in pages.now ≤ MAX_MAPPED_PAGES }
    requires states { All (λ state. state < 8) states }
    requires first { AreFirstFrames (slice_index words.now) 0 }
    ensures size { length words.new ≡ TABLE_WORDS }
    ensures words { slice_index words.new ≡ fold (opening.map_run (state_in states)) (slice_index words.old) pages.now }
{
    let mut used = 0;
    for run in pages {
        map_run(words, *run, used, all_nibbles(state_of(states, run.kind)));
        used += run.count as u32;
    }
}

// The nibble of a kind of page.
fn state_of(states: [u8; 3], kind: PageKind) -> u8
    requires { All (λ state. state < 8) states }
    ensures is { result ≡ state_in states kind }
    ensures small { result < 8 }
{
    match kind {
        PageKind::Data => states[0],
        PageKind::Heap => states[1],
        PageKind::Stack => states[2],
    }
}

// The pages of a run get the frames from `used` on.
fn map_run(words: &mut [u64], run: PageRun, used: u32, filling: u64)
    requires size { length words.now ≡ TABLE_WORDS }
    requires inside { run.first + run.count ≤ PAGE_COUNT }
    requires room { used + run.count ≤ MAX_MAPPED_PAGES }
    requires first { AreFirstFrames (slice_index words.now) used }
    ensures size { length words.new ≡ TABLE_WORDS }
    ensures words { let old = slice_index words.old in
        slice_index words.new ≡ after_shapes old (pages_from (map_page filling) old run.first run.count) }
    ensures frames { AreFirstFrames (slice_index words.new) (used + run.count) }
{
    for i in 0..run.count as u32 {
        place_page(words, run.first as u32 + i, used + i, filling);
    }
}

// A page gets a frame that is free.
fn place_page(words: &mut [u64], page: u32, frame: u32, filling: u64)
    requires size { length words.now ≡ TABLE_WORDS }
    requires page { page < PAGE_COUNT }
    requires frame { frame < MAX_MAPPED_PAGES }
    requires first { AreFirstFrames (slice_index words.now) frame }
    ensures size { length words.new ≡ TABLE_WORDS }
    ensures words { slice_index words.new ≡ after_page (slice_index words.old) page frame filling }
{
    let map = (FRAME_MAP_START + frame / 64) as usize;
    words[map] = with_bit(words[map], frame % 64);
    words[(DIRECTORY_START + page) as usize] = (frame + 1) as u64;
    fill_frame(words, frame, filling);
}

// All words of a frame are written.
fn fill_frame(words: &mut [u64], frame: u32, filling: u64)
    requires size { length words.now ≡ TABLE_WORDS }
    requires frame { frame < MAX_MAPPED_PAGES }
    ensures size { length words.new ≡ TABLE_WORDS }
    ensures inside { (u : ℕ) → frame_word frame ≤ u → u < frame_word frame + FRAME_WORDS
        → slice_index words.new u ≡ filling }
    ensures outside { (u : ℕ) → (frame_word frame ≤ u → u < frame_word frame + FRAME_WORDS → ⊥)
        → slice_index words.new u ≡ slice_index words.old u }
{
    let first = SHADOW_START + FRAME_WORDS * frame;
    for i in 0..FRAME_WORDS {
        words[(first + i) as usize] = filling;
    }
}
