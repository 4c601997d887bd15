//! Whole commands, tested by rows of data: plays each row of each file `*.rows` of the folder that it runs in, and
//! tells the rows that come to something else than they say.
//!
//! A file has blocks of lines, parted by empty lines; a line that begins with `#` is a comment. A block is a row:
//!
//! ```text
//! row a byte past a block is reported
//! words replay addrcheck
//! status 1
//! > PLOG 1 harts 1 block 16
//! > page 1024 1 heap
//! > h0 al 400000 32
//! > h0 st b 5 6 400020
//! < PREP 1 addrcheck harts 1
//! < reports 1
//! < h0 2 access 400020
//! < mem 400000 40001f 1
//! < end
//! ```
//!
//! What the row shows, the words of the command and its status come first; `whence 1 2` in the place of the words calls
//! the program `whence` with the words `1 2`. After them come, in any order, as many of these lines as the row needs:
//!
//! | Line | Means |
//! |---|---|
//! | `> TEXT` | the input goes on with this text and a line feed |
//! | `< TEXT`, `! TEXT` | so does the output, and so does the note on standard error |
//! | `>- TEXT` | the same without a line feed |
//! | `>9 TEXT`, `>9- TEXT` | nine times the text, each time with a line feed, or without |
//! | `>x 0d 0a00` | these bytes, two hex digits each |
//! | `use NAME` | the input goes on with the text of this name |
//! | `left 24` | so many bytes of the input are not read; none where there is no such line |
//! | `source pieces 4 fails 2 5` | a read gives at most 4 bytes; the second and the fifth read fail |
//! | `sink room 100 pieces 10 fails 2` | room for 100 bytes of output, a write takes at most 10, the second fails |
//! | `notes room 100 pieces 10 fails 2` | the same of the note |
//!
//! A block that begins with `text NAME` names the text of its other lines, which begin with `>`, for the rows after it.
#![tactic(auto)]

mod device;
mod outcome;
mod play;
mod report;
mod row;
mod tally;
mod texts;

use crate::play::play;
use crate::report::print_difference;
use crate::row::{Row, RowLine};
use crate::tally::Tally;
use crate::texts::Texts;
use anyhow::{Context, Result, ensure};
use pl_base::NoMemory;
use std::alloc::AllocError;
use std::fs;

/// The names of the files of rows, in order.
fn file_names(rt: &HostRuntime) -> Result<Vec<String>> {
    let alloc = rt.alloc();
    let mut names = Vec::new(alloc);
    for entry in fs::read_dir(rt, ".")? {
        let entry = entry?;
        if entry.file_name().ends_with(".rows") {
            names.push(String::from_str(alloc, entry.file_name())?)?;
        }
    }
    names.sort()?;
    Ok(names)
}

/// Plays the row of a block, and tells how it differs.
fn play_row(
    rt: &HostRuntime,
    file: &str,
    block: &[RowLine<'_>],
    texts: &Texts,
    tally: &mut Tally,
) -> Result<()> {
    let row = Row::read(rt.alloc(), block, texts)?;
    let found = play(rt.alloc(), &row).map_err(|_: NoMemory| AllocError)?;
    let as_said = found.is_same(&row.wanted);
    if !as_said {
        print_difference(rt, file, &row, &found)?;
    }
    tally.count(as_said);
    Ok(())
}

/// Plays the row of a block, or keeps its text.
fn take_block(
    rt: &HostRuntime,
    file: &str,
    block: &[RowLine<'_>],
    texts: &mut Texts,
    tally: &mut Tally,
) -> Result<()> {
    let alloc = rt.alloc();
    let Some((first, others)) = block.split_first() else {
        return Ok(());
    };
    let taken = match first.text.strip_prefix("text ") {
        Some(name) => texts.keep(alloc, name, others),
        None => play_row(rt, file, block, texts, tally),
    };
    taken.context(format_args!("the block at line {}", first.number))
}

/// Plays the rows of a file.
fn play_file(rt: &HostRuntime, file: &str, tally: &mut Tally) -> Result<()> {
    let alloc = rt.alloc();
    let text = fs::read_to_string(rt, file)?;
    let mut texts = Texts::new(alloc);
    let mut block = Vec::new(alloc);
    let mut number = 0u32;
    for text in text.split('\n').chain([""]) {
        number = number.saturating_add(1);
        if text.is_empty() {
            take_block(rt, file, &block, &mut texts, tally)?;
            block.clear();
        } else if !text.starts_with('#') {
            block.push(RowLine { number, text })?;
        }
    }
    Ok(())
}

fn main(rt: HostRuntime) -> Result<()> {
    let mut tally = Tally::new();
    for file in file_names(&rt)?.iter() {
        play_file(&rt, file.as_str(), &mut tally).context(format_args!("{file}"))?;
    }
    println!(rt; "{} rows, {} differ", tally.rows, tally.differ)?;
    ensure!(tally.differ == 0, "{} rows differ", tally.differ);
    Ok(())
}
