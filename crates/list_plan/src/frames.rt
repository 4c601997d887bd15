//! Pages that get frames, and frames that are freed.
ghost use Rattle.std.specs.Prelude.{◌≡◌, ℕ, ◌+◌, ◌-◌, ◌^◌, ◌<◌, ◌≤◌, false, IfOk, OnOk, slice_index};
ghost use Rattle.pl_base.specs.declared.layout.TheConstants.{MAX_MAPPED_PAGES, PAGE_COUNT};
ghost use Rattle.shadow_frames.specs.declared.words.TheConstants.{FRAME_MAP_START, FRAME_WORDS};
ghost use Rattle.shadow_frames.specs.Words.{frame_word, is_used};
ghost use Rattle.shadow_frames.specs.Frames.{lowest_free, pages_from};
ghost use Rattle.shadow_frames.specs.Frames as shapes;
ghost use Rattle.list_plan.specs.inner.Fills.{Fills, words_of};
ghost use Rattle.list_plan.specs.inner.Pieces.{placed, word_filled, word_read};
ghost use Rattle.list_plan.specs.inner.Rooms.{HasFrames};
ghost use Rattle.list_plan.specs.inner.Tables.{HasNibbles};

use crate::filler::Filler;
use pl_base::NoMemory;
use shadow_frames::words::{DIRECTORY_START, FRAME_MAP_START, FRAME_WORDS, SHADOW_START};
use shadow_frames::{free_frame, with_bit};

// The difference; 0 where it would be less.
fn less(a: u64, b: u64) -> u64
    ensures { result ≡ a - b }
{
    a.saturating_sub(b)
}

// The word in which this bit alone is set.
fn power(at: u32) -> u64
    requires { at < 64 }
    ensures { result ≡ 2 ^ at }
{
    1 << at
}

impl Filler {
    // Reads the words of the frame map.
    fn read_map(&mut self) -> Result<[u64; 8], NoMemory>
        ensures fills { OnOk result (Fills self.old self.new
            (pages_from word_read (words_of self.old) FRAME_MAP_START 8)) }
        ensures words { IfOk result (λ map. (i : ℕ) → i < 8
            → words_of self.old (FRAME_MAP_START + i) ≡ slice_index map i) }
    {
        let mut map = [0; 8];
        for i in 0..8u32 {
            map[i as usize] = self.read(FRAME_MAP_START + i, 15, false)?;
        }
        Ok(map)
    }

    // Fills the words of a frame.
    fn fill_frame(&mut self, frame: u32, filling: u64) -> Result<(), NoMemory>
        requires frame { frame < MAX_MAPPED_PAGES }
        requires filling { HasNibbles filling }
        ensures { OnOk result (Fills self.old self.new
            (pages_from (word_filled filling) (words_of self.old) (frame_word frame) FRAME_WORDS)) }
    {
        let first = SHADOW_START + FRAME_WORDS * frame;
        for i in 0..FRAME_WORDS {
            self.write(first + i, 15, filling)?;
        }
        Ok(())
    }

    // A page gets a frame that is not in use.
    fn place_page(&mut self, page: u32, frame: u32, filling: u64) -> Result<(), NoMemory>
        requires page { page < PAGE_COUNT }
        requires frame { frame < MAX_MAPPED_PAGES }
        requires free { is_used (words_of self.old) frame ≡ false }
        requires filling { HasNibbles filling }
        ensures { OnOk result (Fills self.old self.new (placed frame page filling)) }
    {
        let map = FRAME_MAP_START + frame / 64;
        let bits = self.word(map);
        self.write(map, 15, with_bit(bits, frame % 64))?;
        self.write(DIRECTORY_START + page, 15, (frame + 1) as u64)?;
        self.fill_frame(frame, filling)?;
        Ok(())
    }

    // A page gets the lowest free frame.
    fn map_page(&mut self, page: u32, filling: u64) -> Result<(), NoMemory>
        requires page { page < PAGE_COUNT }
        requires free { lowest_free (words_of self.old) < MAX_MAPPED_PAGES }
        requires filling { HasNibbles filling }
        ensures { OnOk result (Fills self.old self.new (shapes.map_page filling (words_of self.old) page)) }
    {
        let map = self.read_map()?;
        match free_frame(&map) {
            None => Err(NoMemory),
            Some(frame) => {
                self.place_page(page, frame as u32, filling)?;
                Ok(())
            }
        }
    }

    // The frame of a page is freed.
    fn unmap_page(&mut self, page: u32) -> Result<(), NoMemory>
        requires { page < PAGE_COUNT }
        ensures { OnOk result (Fills self.old self.new (shapes.unmap_page (words_of self.old) page)) }
    {
        let directory = self.read(DIRECTORY_START + page, 15, false)?;
        let before = less(directory, 1);
        let frame = before as u32;
        let map = FRAME_MAP_START + frame / 64;
        let bits = self.read(map, 15, false)?;
        let bit = power(frame % 64);
        let cleared = less(bits, bit);
        self.write(map, 15, cleared)?;
        self.write(DIRECTORY_START + page, 15, 0)?;
        Ok(())
    }

    // Pages get frames, each the lowest that is free.
    pub(crate) fn map_pages(&mut self, page: u32, count: u32, filling: u64) -> Result<(), NoMemory>
        requires inside { page + count ≤ PAGE_COUNT }
        requires frames { HasFrames filling (words_of self.old) page count }
        requires filling { HasNibbles filling }
        ensures { OnOk result (Fills self.old self.new
            (pages_from (shapes.map_page filling) (words_of self.old) page count)) }
    {
        for i in 0..count {
            self.map_page(page + i, filling)?;
        }
        Ok(())
    }

    // The frames of pages are freed.
    pub(crate) fn unmap_pages(&mut self, page: u32, count: u32) -> Result<(), NoMemory>
        requires { page + count ≤ PAGE_COUNT }
        ensures { OnOk result (Fills self.old self.new
            (pages_from shapes.unmap_page (words_of self.old) page count)) }
    {
        for i in 0..count {
            self.unmap_page(page + i)?;
        }
        Ok(())
    }
}
