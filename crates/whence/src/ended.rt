//! How the process ends.
ghost use Rattle.std.specs.Prelude.{◌≡◌, codes, map, string_bytes, MatchResult};
ghost use Rattle.std.specs.Process.{exit_status};
ghost use Rattle.paralog_top.specs.Asked.{told};
ghost use Rattle.paralog_top.specs.Notes.{IsNoted};
ghost use Rattle.paralog_top.specs.Statuses.{status_code};
ghost use Rattle.whence.specs.Ended.{IsNotBegun};
ghost use Rattle.whence_top.specs.Notes.{memory_note};
ghost use Rattle.whence_top.specs.Statuses.{Says};

use paralog_top::{Status, note};
use pl_base::{NoMemory, Sink, Source};
use std::alloc::Global;
use std::process::ExitCode;
use whence_top::whence_top;

/// What the words come to, where there was memory for them.
pub fn status_of<S: Source, K: Sink, E: Sink>(
    alloc: Global,
    words: Result<Vec<String>, NoMemory>,
    source: &mut S,
    out: &mut K,
    notes: &mut E,
) -> Status
    ensures { let input = told (S.left source.old) (S.left source.new) (S.faults source.old) (S.faults source.new) in
        let output = told (K.written out.old) (K.written out.new) (K.faults out.old) (K.faults out.new) in
        let noted = told (E.written notes.old) (E.written notes.new) (E.faults notes.old) (E.faults notes.new) in
        MatchResult words (λ all. Says (map string_bytes all.items) input output noted result)
        (λ _. IsNotBegun input output noted result) }
{
    match words {
        Ok(words) => whence_top(alloc, &words, source, out, notes),
        Err(NoMemory) => {
            note(notes, b"whence: out of memory\n");
            Status::NoMemory
        }
    }
}

/// The number that the process ends with.
pub fn exit_code(status: Status) -> ExitCode
    ensures { exit_status result ≡ status_code status }
{
    ExitCode::from(status.code())
}
