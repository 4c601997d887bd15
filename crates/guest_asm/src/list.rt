//! The words of a job in writing.
ghost use Rattle.std.specs.Prelude.{◌≡◌, ◌≤◌, ◌++◌, length, IfOk, OnOk, string_bytes};
ghost use Rattle.core_sim.specs.Valid.{IsValidJob};
ghost use Rattle.guest_asm.specs.Listing.{word_text, line_text, lines_from, listing_of};
ghost use Rattle.pl_base.specs.declared.layout.TheConstants.{MAX_TEXT_WORDS};

use core_sim::Job;
use pl_base::NoMemory;
use pl_base::layout::TEXT_START;
use rv_isa::{decode, render};
use std::alloc::Global;

/// The text of a word in a listing: its instruction, and `.word` where it is none.
pub fn word_text(alloc: Global, word: u32) -> Result<String, NoMemory>
    ensures { IfOk result (λ shown. string_bytes shown ≡ word_text word) }
{
    match decode(word) {
        Some(instr) => render(alloc, &instr),
        None => Ok(String::from_str(alloc, ".word")?),
    }
}

fn push_line(out: &mut String, alloc: Global, address: u32, word: u32) -> Result<(), NoMemory>
    ensures { OnOk result (string_bytes out.new ≡ string_bytes out.old ++ line_text address word) }
{
    let text = word_text(alloc, word)?;
    write!(out, "{address:x} {word:08x} {text}\n")?;
    Ok(())
}

fn lines(alloc: Global, words: &[u32]) -> Result<String, NoMemory>
    requires { length words.now ≤ MAX_TEXT_WORDS }
    ensures { IfOk result (λ shown. string_bytes shown ≡ lines_from TEXT_START words.now) }
{
    let mut out = String::new(alloc);
    let mut address = TEXT_START;
    'words: for word in words {
        push_line(&mut out, alloc, address, *word)?;
        address += 4;
    }
    Ok(out)
}

/// The words of the text of a job, one on a line: its address, the word in eight digits, and its instruction.
pub fn listing(alloc: Global, job: &Job) -> Result<Vec<u8>, NoMemory>
    requires { IsValidJob job.now }
    ensures { IfOk result (λ text. text.items ≡ listing_of job.now) }
{
    let text = lines(alloc, job.words.as_slice())?;
    Ok(text.into_bytes())
}
