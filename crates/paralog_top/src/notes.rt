//! The lines that go to the notes.
ghost use Rattle.std.specs.Prelude.{◌≡◌, IfOk, string_bytes};
ghost use Rattle.paralog_top.specs.Asked.{tells};
ghost use Rattle.paralog_top.specs.Notes.{IsNoted, job_note, log_note, unordered_note};

use guest_asm::JobFault;
use log_text::LogFault;
use pl_base::{Sink, write_all_counted};
use pl_event::Point;
use std::alloc::{AllocError, Global};

/// Writes a line to the notes, whole or up to the first fault.
pub fn note<E: Sink>(notes: &mut E, line: &[u8])
    ensures { IsNoted (tells E.written E.faults notes.old notes.new) line.now }
{
    let _ = write_all_counted(notes, line);
}

/// The note of a bad log.
pub fn log_line(alloc: Global, fault: LogFault) -> Result<String, AllocError>
    ensures { IfOk result (λ line. string_bytes line ≡ log_note fault) }
{
    let LogFault { line, cause } = fault;
    let word = cause.word();
    let mut out = String::new(alloc);
    write!(out, "paralog: log line {line}: {word}\n")?;
    Ok(out)
}

/// The note of a bad job.
pub fn job_line(alloc: Global, fault: JobFault) -> Result<String, AllocError>
    ensures { IfOk result (λ line. string_bytes line ≡ job_note fault) }
{
    let JobFault { line, cause } = fault;
    let word = cause.word();
    let mut out = String::new(alloc);
    write!(out, "paralog: job line {line}: {word}\n")?;
    Ok(out)
}

/// The note of a log that is not ordered.
pub fn unordered_line(alloc: Global, earlier: Point, later: Point) -> Result<String, AllocError>
    ensures { IfOk result (λ line. string_bytes line ≡ unordered_note earlier later) }
{
    let (u, n) = (earlier.hart, earlier.number);
    let (v, m) = (later.hart, later.number);
    let mut out = String::new(alloc);
    write!(out, "paralog: unordered {u}:{n} {v}:{m}\n")?;
    Ok(out)
}
