//! How the process ends.
ghost use Rattle.std.specs.Prelude.{◌≡◌, codes, map, string_bytes, MatchResult};
ghost use Rattle.std.specs.Process.{exit_status};
ghost use Rattle.paralog_top.specs.Asked.{told};
ghost use Rattle.paralog_top.specs.Notes.{IsNoted};
ghost use Rattle.paralog_top.specs.Statuses.{status_code};
ghost use Rattle.paralog.specs.Ended.{Ends, IsNotBegun};

use paralog_top::Status;
use pl_base::{NoMemory, OpenGate, Sink, Source, write_all_counted};
use standard_top::standard_paralog;
use std::alloc::Global;
use std::process::ExitCode;
use std::sync::Wait;
use std::thread::Threads;

/// What the words come to, where there was memory for them.
pub fn status_of<R: Threads + Wait + Sync, S: Source, K: Sink, E: Sink>(
    rt: &R,
    alloc: Global,
    words: Result<Vec<String>, NoMemory>,
    source: &mut S,
    out: &mut K,
    notes: &mut E,
) -> Status
    ensures { let input = told (S.left source.old) (S.left source.new) (S.faults source.old) (S.faults source.new) in
        let output = told (K.written out.old) (K.written out.new) (K.faults out.old) (K.faults out.new) in
        let noted = told (E.written notes.old) (E.written notes.new) (E.faults notes.old) (E.faults notes.new) in
        MatchResult words (λ all. Ends (map string_bytes all.items) input output noted result)
        (λ _. IsNotBegun input output noted result) }
{
    match words {
        Ok(words) => match standard_paralog(rt, alloc, &words, source, out, notes, &OpenGate) {
            Ok(status) => status,
            Err(NoMemory) => without_memory(notes),
        },
        Err(NoMemory) => without_memory(notes),
    }
}

/// The status where no memory is left before the call.
fn without_memory<E: Sink>(notes: &mut E) -> Status
    ensures status { result ≡ Status.NoMemory }
    ensures noted { IsNoted (told (E.written notes.old) (E.written notes.new) (E.faults notes.old) (E.faults notes.new))
        (codes "paralog: out of memory\n") }
{
    let _ = write_all_counted(notes, b"paralog: out of memory\n");
    Status::NoMemory
}

/// The number that the process ends with.
pub fn exit_code(status: Status) -> ExitCode
    ensures { exit_status result ≡ status_code status }
{
    ExitCode::from(status.code())
}
