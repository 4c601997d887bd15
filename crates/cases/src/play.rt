//! Plays a row: its words on its input.

use crate::outcome::Outcome;
use crate::row::{Program, Row};
use pl_base::{Failed, MemSource, NoMemory, Source};
use standard_top::standard_top;
use std::alloc::Global;
use whence_top::whence_top;

/// How many bytes the source has left, whichever reads fail.
fn bytes_left(source: &mut MemSource) -> usize {
    let mut piece = [0u8; 4096];
    let mut left = 0usize;
    for _ in 0..u64::MAX {
        match source.read(&mut piece) {
            Ok(0) => break,
            Ok(count) => left = left.saturating_add(count),
            Err(Failed) => {}
        }
    }
    left
}

/// What the row's words come to on its input.
pub fn play(alloc: Global, row: &Row) -> Result<Outcome, NoMemory> {
    let mut source = row.source.source(row.input.clone()?)?;
    let mut out = row.sink.sink(alloc)?;
    let mut notes = row.notes.sink(alloc)?;
    let status = match row.program {
        Program::Paralog => standard_top(alloc, &row.words, &mut source, &mut out, &mut notes)?,
        Program::Whence => whence_top(alloc, &row.words, &mut source, &mut out, &mut notes),
    };
    Ok(Outcome {
        status: status.code(),
        output: out.written().to_vec(alloc)?,
        note: notes.written().to_vec(alloc)?,
        left: bytes_left(&mut source),
    })
}
