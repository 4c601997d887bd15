//! The text of a job, read once.
ghost use Rattle.std.specs.Prelude.{◌≡◌, IfOk, map};
ghost use Rattle.rv_isa.specs.Table.{instruction_of};

use pl_base::NoMemory;
use pl_base::layout::TEXT_START;
use rv_isa::{Instr, decode};
use std::alloc::Global;
use std::marker::Model;

/// A text that was read once: its words, and beside each the instruction that it is, or none.
#[derive(Drop)]
pub struct Text {
    words: Vec<u32>,
    instructions: Vec<Option<Instr>>,
}

impl Model for Text {
    ghost use Rattle.std.specs.Prelude.{◌≡◌, List, ℕ, map};
    ghost use Rattle.rv_isa.specs.Table.{instruction_of};

    ghost Value = { List ℕ };

    ghost view = { λ text. text.words.items };

    ghost invariant = { λ text. text.instructions.items ≡ map instruction_of text.words.items };
}

impl Text {
    ghost use Rattle.std.specs.Prelude.{◌≡◌, ◌<◌, IfOk, IfSome, IfNone, Some, None, length, slice_index};
    ghost use Rattle.rv_isa.specs.Table.{instruction_of};
    ghost use Rattle.rv_isa.specs.Valid.{IsValid};
    ghost use Rattle.core_sim.specs.Doing.{IsPlace};
    ghost use Rattle.core_sim.specs.Steps.{word_at};

    /// Reads each word of a text.
    pub fn read(alloc: Global, words: &[u32]) -> Result<Text, NoMemory>
        ensures { IfOk result (λ text. text ≡ words.now) }
    {
        Ok(Text {
            words: words.to_vec(alloc)?,
            instructions: instructions(alloc, words)?,
        })
    }

    /// The number of the word that an address names.
    #[inline]
    pub fn place(&self, pc: u32) -> Option<usize>
        ensures some { IfSome result (IsPlace self.now pc) }
        ensures none { IfNone result (word_at self.now pc ≡ None) }
    {
        if pc % 4 != 0 || pc < TEXT_START {
            return None;
        }
        let place = ((pc - TEXT_START) / 4) as usize;
        if place < self.words.len() {
            Some(place)
        } else {
            None
        }
    }

    /// The instruction that a word is.
    #[inline]
    pub fn instruction(&self, place: usize) -> &Option<Instr>
        requires { place < length self.now }
        ensures value { result.now ≡ instruction_of (slice_index self.now place) }
        ensures valid { IfSome result.now IsValid }
    {
        &self.instructions[place]
    }
}

/// The instruction that each word is.
fn instructions(alloc: Global, words: &[u32]) -> Result<Vec<Option<Instr>>, NoMemory>
    ensures { IfOk result (λ list. list.items ≡ map instruction_of words.now) }
{
    let mut list = Vec::with_capacity(alloc, words.len())?;
    for word in words {
        list.push(decode(*word))?;
    }
    Ok(list)
}
