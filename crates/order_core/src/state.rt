//! The state of the core.
ghost use Rattle.std.specs.Prelude.{◌≡◌, ◌<◌, ◌≤◌};
ghost use Rattle.order_core.specs.Core.{table_word};
ghost use Rattle.order_core.specs.States.{core_of, cursor_of, word_count};

use crate::course::FIRST_WORD;
use crate::place::Place;

/// How far a hart is.
#[derive(Clone, Copy, Debug)]
pub(crate) struct HartState {
    /// Its progress word.
    pub(crate) progress: u32,
    /// How many of its writes are performed.
    pub(crate) written: u32,
    /// The first write that is not performed; where all are, the place after its last record.
    pub(crate) next: Place,
    /// How many of its first records were found to have needs that it has seen.
    pub(crate) met: u32,
    /// What it has seen of each hart.
    pub(crate) seen: [u32; 8],
}

/// Where a list of steps leads.
#[derive(Drop)]
pub struct CoreState {
    pub(crate) harts: [HartState; 8],
    /// The cursor of each hart, set when the last step is made.
    pub(crate) cursors: [u32; 8],
    pub(crate) words: Vec<u64>,
}

impl CoreState {
    /// How many records of a hart are passed: 0 for a number that is no hart of the run.
    pub fn cursor(&self, hart: u8) -> u32
        ensures { result ≡ cursor_of self.now hart }
    {
        match self.cursors.get(hart as usize) {
            None => 0,
            Some(cursor) => *cursor,
        }
    }

    /// The progress word of a hart: 0 for a number that is no hart of the run.
    pub fn progress(&self, hart: u8) -> u32
        ensures { result ≡ (core_of self.now).progress hart }
    {
        match self.harts.get(hart as usize) {
            None => 0,
            Some(own) => own.progress,
        }
    }

    /// How many of its writes a hart has performed: none for a number that is no hart of the run.
    pub fn written(&self, hart: u8) -> u32
        ensures { result ≡ (core_of self.now).written hart }
    {
        match self.harts.get(hart as usize) {
            None => 0,
            Some(own) => own.written,
        }
    }

    /// Word `i` of the table, other than word 0: words 1 to 8 are the progress words of harts 0 to 7.
    pub fn word(&self, i: u32) -> u64
        requires from_one { 1 ≤ i }
        requires inside { i < word_count self.now }
        ensures { result ≡ table_word (core_of self.now) i }
    {
        if i < FIRST_WORD {
            return self.harts[(i - 1) as usize].progress as u64;
        }
        self.words[i as usize]
    }
}
