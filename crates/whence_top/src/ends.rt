//! How a call ends: what is written and noted, and the status.
ghost use Rattle.std.specs.Prelude.{◌≡◌, ◌<◌, ◌^◌, length, IfOk, string_bytes};
ghost use Rattle.paralog_top.specs.Asked.{tells};
ghost use Rattle.paralog_top.specs.Notes.{IsNoted};
ghost use Rattle.whence_top.specs.Ends.{Delivers, RefusesJob, Tells, end_note, end_status};
ghost use Rattle.whence_top.specs.Notes.{job_note, memory_note};

use crate::answer::answer;
use guest_asm::{JobFault, JobRefused};
use paralog_top::{Status, note};
use pl_base::{Failed, ReadEnd, Sink, write_all_counted};
use std::alloc::{AllocError, Global};
use whence_trail::Pair;

/// Writes what is told of these events of the run of the job that the bytes spell, or notes why nothing is.
pub fn tell<K: Sink, E: Sink>(
    alloc: Global,
    bytes: &[u8],
    pairs: &[Pair],
    out: &mut K,
    notes: &mut E,
) -> Status
    requires { length bytes.now < 2 ^ 31 }
    ensures { Tells pairs.now bytes.now (tells K.written K.faults out.old out.new)
        (tells E.written E.faults notes.old notes.new) result }
{
    match answer(alloc, bytes, pairs) {
        Ok(text) => deliver(&text, out, notes),
        Err(JobRefused::Fault(fault)) => refuse(alloc, fault, notes),
        Err(JobRefused::NoMemory) => out_of_memory(notes),
    }
}

/// Writes a text.
fn deliver<K: Sink, E: Sink>(text: &[u8], out: &mut K, notes: &mut E) -> Status
    ensures { Delivers text.now (tells K.written K.faults out.old out.new)
        (tells E.written E.faults notes.old notes.new) result }
{
    match write_all_counted(out, text) {
        Ok(()) => Status::Clean,
        Err(Failed) => {
            note(notes, b"whence: write fault\n");
            Status::WriteFault
        }
    }
}

/// Notes the fault of a job. Where there is no memory for the line, the status says so.
fn refuse<E: Sink>(alloc: Global, fault: JobFault, notes: &mut E) -> Status
    ensures { RefusesJob fault (tells E.written E.faults notes.old notes.new) result }
{
    match job_line(alloc, fault) {
        Ok(line) => {
            note(notes, line.as_bytes());
            Status::BadJob
        }
        Err(AllocError) => out_of_memory(notes),
    }
}

/// The note of a bad job.
fn job_line(alloc: Global, fault: JobFault) -> Result<String, AllocError>
    ensures { IfOk result (λ line. string_bytes line ≡ job_note fault) }
{
    let JobFault { line, cause } = fault;
    let word = cause.word();
    let mut out = String::new(alloc);
    write!(out, "whence: job line {line}: {word}\n")?;
    Ok(out)
}

/// Notes why the input was not read to its end.
pub fn not_read<E: Sink>(end: ReadEnd, notes: &mut E) -> Status
    ensures status { result ≡ end_status end }
    ensures noted { IsNoted (tells E.written E.faults notes.old notes.new) (end_note end) }
{
    match end {
        ReadEnd::Fault => {
            note(notes, b"whence: read fault\n");
            Status::ReadFault
        }
        ReadEnd::TooLong => {
            note(notes, b"whence: too long\n");
            Status::TooLong
        }
        ReadEnd::NoMemory => out_of_memory(notes),
    }
}

fn out_of_memory<E: Sink>(notes: &mut E) -> Status
    ensures status { result ≡ Status.NoMemory }
    ensures noted { IsNoted (tells E.written E.faults notes.old notes.new) memory_note }
{
    note(notes, b"whence: out of memory\n");
    Status::NoMemory
}
