//! A search of the frame map.
ghost use Rattle.std.specs.Prelude.{◌≡◌, ℕ, ◌+◌, ◌<◌, slice_index};
ghost use Rattle.shadow_frames.specs.declared.words.TheConstants.{FRAME_MAP_START};
ghost use Rattle.shadow_frames.specs.Frames.{frame_or_none, lowest_free};

use crate::bits::has_bit;
use pl_base::layout::MAX_MAPPED_PAGES;

/// The lowest frame that is not in use, where the frame map has these words; none where all frames are in use.
pub fn free_frame(map: &[u64; 8]) -> Option<u16>
    ensures { (w : ℕ → ℕ) → ((i : ℕ) → i < 8 → w (FRAME_MAP_START + i) ≡ slice_index map.now i)
        → result ≡ frame_or_none (lowest_free w) }
{
    for frame in 0..MAX_MAPPED_PAGES as u16 {
        if !has_bit(map[(frame / 64) as usize], (frame % 64) as u32) {
            return Some(frame);
        }
    }
    None
}
