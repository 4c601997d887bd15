//! How a call ends: what an answer or a refusal writes, and the status that it has.
ghost use Rattle.std.specs.Prelude.{◌≡◌};
ghost use Rattle.paralog_top.specs.Asked.{tells};
ghost use Rattle.paralog_top.specs.Notes.{IsNoted, memory_note, write_note};
ghost use Rattle.paralog_top.specs.Statuses.{Delivers, Tells};

use crate::answer::{Answer, Verdict};
use crate::notes::{job_line, log_line, note, unordered_line};
use crate::refusal::Refusal;
use crate::status::Status;
use pl_base::{Failed, Sink, write_all_counted};
use pl_event::Point;
use std::alloc::Global;

/// Writes an answer, and its note where it has one. Memory for the note is taken before anything is written.
pub fn deliver<K: Sink, E: Sink>(
    alloc: Global,
    answer: &Answer,
    out: &mut K,
    notes: &mut E,
) -> Status
    ensures { Delivers answer.now (tells K.written K.faults out.old out.new)
        (tells E.written E.faults notes.old notes.new) result }
{
    match answer.verdict {
        Verdict::Clean => match write_all_counted(out, &answer.text) {
            Ok(()) => Status::Clean,
            Err(Failed) => write_fault(notes),
        },
        Verdict::Reports => match write_all_counted(out, &answer.text) {
            Ok(()) => Status::Reports,
            Err(Failed) => write_fault(notes),
        },
        Verdict::Unordered { earlier, later } => {
            deliver_pair(alloc, answer, earlier, later, out, notes)
        }
    }
}

/// The same of an answer that names a pair of records.
fn deliver_pair<K: Sink, E: Sink>(
    alloc: Global,
    answer: &Answer,
    earlier: Point,
    later: Point,
    out: &mut K,
    notes: &mut E,
) -> Status
    requires { answer.now.verdict ≡ Verdict.Unordered earlier later }
    ensures { Delivers answer.now (tells K.written K.faults out.old out.new)
        (tells E.written E.faults notes.old notes.new) result }
{
    let Ok(line) = unordered_line(alloc, earlier, later) else {
        return out_of_memory(notes);
    };
    match write_all_counted(out, &answer.text) {
        Ok(()) => {
            note(notes, line.as_bytes());
            Status::Unordered
        }
        Err(Failed) => write_fault(notes),
    }
}

/// Tells a refusal. Where there is no memory for its line, the status says so.
pub fn refuse<E: Sink>(alloc: Global, refusal: Refusal, notes: &mut E) -> Status
    ensures { Tells refusal (tells E.written E.faults notes.old notes.new) result }
{
    match refusal {
        Refusal::BadJob(fault) => match job_line(alloc, fault) {
            Ok(line) => {
                note(notes, line.as_bytes());
                Status::BadJob
            }
            Err(_) => out_of_memory(notes),
        },
        Refusal::BadLog(fault) => match log_line(alloc, fault) {
            Ok(line) => {
                note(notes, line.as_bytes());
                Status::BadLog
            }
            Err(_) => out_of_memory(notes),
        },
        Refusal::ReadFault => {
            note(notes, b"paralog: read fault\n");
            Status::ReadFault
        }
        Refusal::TooLong => {
            note(notes, b"paralog: too long\n");
            Status::TooLong
        }
        Refusal::NoMemory => out_of_memory(notes),
    }
}

fn write_fault<E: Sink>(notes: &mut E) -> Status
    ensures status { result ≡ Status.WriteFault }
    ensures noted { IsNoted (tells E.written E.faults notes.old notes.new) write_note }
{
    note(notes, b"paralog: write fault\n");
    Status::WriteFault
}

fn out_of_memory<E: Sink>(notes: &mut E) -> Status
    ensures status { result ≡ Status.NoMemory }
    ensures noted { IsNoted (tells E.written E.faults notes.old notes.new) memory_note }
{
    note(notes, b"paralog: out of memory\n");
    Status::NoMemory
}
