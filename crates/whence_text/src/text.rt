//! The text of the answers.
ghost use Rattle.std.specs.Prelude.{◌≡◌, ◌++◌, IfOk, OnOk, string_bytes, codes};
ghost use Rattle.core_sim.specs.Steps.{word_at};
ghost use Rattle.whence_text.specs.Text.{hart_event, site, origin_line, freed_line, block_lines, near_lines, found_lines, answer_lines, all_lines, whence_text as text_of};

use guest_asm::{LinedJob, word_text};
use pl_base::NoMemory;
use pl_base::layout::TEXT_START;
use std::alloc::Global;
use whence_trail::{Answer, Block, Found, Near, Origin};

/// The item of the word that an address names, in a list with one for each word of the text.
fn item_at(items: &[u32], pc: u32) -> Option<u32>
    ensures { result ≡ word_at items.now pc }
{
    if pc % 4 != 0 || pc < TEXT_START {
        return None;
    }
    items.get(((pc - TEXT_START) / 4) as usize).copied()
}

/// The line of a word and its instruction.
fn write_word(out: &mut String, alloc: Global, line: u32, word: u32) -> Result<(), NoMemory>
    ensures { OnOk result (string_bytes out.new ≡ string_bytes out.old ++ site (Some line) (Some word)) }
{
    let text = word_text(alloc, word)?;
    write!(out, "{line} {text}")?;
    Ok(())
}

fn write_site(out: &mut String, alloc: Global, lined: &LinedJob, pc: u32) -> Result<(), NoMemory>
    ensures { OnOk result (string_bytes out.new ≡ string_bytes out.old ++
        site (word_at lined.now.lines.items pc) (word_at lined.now.job.words pc)) }
{
    let Some(line) = item_at(&lined.lines, pc) else {
        return Ok(out.push_str("- -")?);
    };
    let Some(word) = item_at(lined.job.words.as_slice(), pc) else {
        return Ok(out.push_str("- -")?);
    };
    write_word(out, alloc, line, word)
}

fn write_origin(
    out: &mut String,
    alloc: Global,
    lined: &LinedJob,
    origin: Origin,
) -> Result<(), NoMemory>
    ensures { OnOk result (string_bytes out.new ≡ string_bytes out.old ++ origin_line lined.now origin) }
{
    let Origin { hart, number, pc } = origin;
    write!(out, "h{hart} {number} {pc:x} line ")?;
    write_site(out, alloc, lined, pc)?;
    out.push_str("\n")?;
    Ok(())
}

fn write_freed(
    out: &mut String,
    alloc: Global,
    lined: &LinedJob,
    freed: Option<Origin>,
) -> Result<(), NoMemory>
    ensures { OnOk result (string_bytes out.new ≡ string_bytes out.old ++ freed_line lined.now freed) }
{
    match freed {
        Some(origin) => {
            out.push_str("fr ")?;
            write_origin(out, alloc, lined, origin)
        }
        None => Ok(()),
    }
}

fn write_block(
    out: &mut String,
    alloc: Global,
    lined: &LinedJob,
    block: Block,
) -> Result<(), NoMemory>
    ensures { OnOk result (string_bytes out.new ≡ string_bytes out.old ++ block_lines lined.now block) }
{
    out.push_str("al ")?;
    write_origin(out, alloc, lined, block.allocated)?;
    write_freed(out, alloc, lined, block.freed)
}

fn write_in(
    out: &mut String,
    alloc: Global,
    lined: &LinedJob,
    block: Block,
    byte: u64,
) -> Result<(), NoMemory>
    ensures { OnOk result (string_bytes out.new ≡ string_bytes out.old
        ++ near_lines lined.now (Some (Near.In block byte))) }
{
    let (addr, len) = (block.addr, block.len);
    write!(out, "in {addr:x} byte {byte} of {len}\n")?;
    write_block(out, alloc, lined, block)
}

fn write_after(
    out: &mut String,
    alloc: Global,
    lined: &LinedJob,
    block: Block,
    by: u64,
) -> Result<(), NoMemory>
    ensures { OnOk result (string_bytes out.new ≡ string_bytes out.old
        ++ near_lines lined.now (Some (Near.After block by))) }
{
    let (addr, len) = (block.addr, block.len);
    write!(out, "after {addr:x} by {by} of {len}\n")?;
    write_block(out, alloc, lined, block)
}

fn write_near(
    out: &mut String,
    alloc: Global,
    lined: &LinedJob,
    near: Option<Near>,
) -> Result<(), NoMemory>
    ensures { OnOk result (string_bytes out.new ≡ string_bytes out.old ++ near_lines lined.now near) }
{
    match near {
        Some(Near::In { block, byte }) => write_in(out, alloc, lined, block, byte),
        Some(Near::After { block, by }) => write_after(out, alloc, lined, block, by),
        None => Ok(()),
    }
}

fn write_found(
    out: &mut String,
    alloc: Global,
    lined: &LinedJob,
    found: Found,
) -> Result<(), NoMemory>
    ensures { OnOk result (string_bytes out.new ≡ string_bytes out.old ++ found_lines lined.now found) }
{
    write_origin(out, alloc, lined, found.origin)?;
    write_near(out, alloc, lined, found.near)
}

fn write_answer(
    out: &mut String,
    alloc: Global,
    lined: &LinedJob,
    answer: Answer,
) -> Result<(), NoMemory>
    ensures { OnOk result (string_bytes out.new ≡ string_bytes out.old ++ answer_lines lined.now answer) }
{
    match answer.found {
        Some(found) => write_found(out, alloc, lined, found),
        None => {
            let (hart, number) = (answer.pair.hart, answer.pair.number);
            write!(out, "h{hart} {number} none\n")?;
            Ok(())
        }
    }
}

fn write_answers(
    out: &mut String,
    alloc: Global,
    lined: &LinedJob,
    answers: &[Answer],
) -> Result<(), NoMemory>
    ensures { OnOk result (string_bytes out.new ≡ string_bytes out.old ++ all_lines lined.now answers.now) }
{
    'each: for answer in answers {
        write_answer(out, alloc, lined, *answer)?;
    }
    Ok(())
}

/// The text of the answers about the run of a job.
pub fn whence_text(alloc: Global, lined: &LinedJob, answers: &[Answer]) -> Result<Vec<u8>, NoMemory>
    ensures { IfOk result (λ text. text.items ≡ text_of lined.now answers.now) }
{
    let mut out = String::new(alloc);
    let harts = lined.job.harts;
    write!(out, "PWHE 1 harts {harts}\n")?;
    write_answers(&mut out, alloc, lined, answers)?;
    out.push_str("end\n")?;
    Ok(out.into_bytes())
}
