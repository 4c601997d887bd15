//! A whole log read from its source.
ghost use Rattle.std.specs.Prelude.{◌≡◌, ◌<◌, ◌≤◌, ◌^◌, List, ℕ, Ok, true, false, IfOk, IfErr, OnOk};
ghost use Rattle.std.specs.declared.option.Option.{Option};
ghost use Rattle.pl_event.specs.declared.log.Log.{Log};
ghost use Rattle.log_text.specs.Reading.{IsOnly};
ghost use Rattle.log_text.specs.Streaming.{IsEnd, IsStreamed, KeepsFaults, WasRead, begun_log, bytes_ahead};

use crate::stream::{LogEnd, LogStream, Opening};
use pl_base::Source;
use pl_event::{Lines, Log};
use std::alloc::Global;

/// The log that a source has, in at most `limit` bytes. No more than a piece of its text is kept.
///
/// # Errors
///
/// - `Fault` names the first line that breaks a rule and the first rule that it breaks. The source was read to its end.
/// - `Read` where the source was not read to its end.
pub fn read_source<S: Source>(alloc: Global, source: &mut S, limit: u32) -> Result<Log, LogEnd>
    requires { limit < 2 ^ 31 }
    ensures ok { IfOk result (λ log. WasRead limit (S.left source.old) (S.left source.new)
        (λ bytes. IsOnly bytes log)) }
    ensures end { IfErr result (IsEnd limit (S.left source.old) (S.left source.new)) }
    ensures faults { KeepsFaults (S.faults source.old) (S.faults source.new) result }
{
    match LogStream::open(alloc, source, limit) {
        Ok(opening) => read_opened(alloc, opening, source),
        Err(end) => Err(end),
    }
}

/// The log whose header and pages were read.
fn read_opened<S: Source>(alloc: Global, opening: Opening, source: &mut S) -> Result<Log, LogEnd>
    ensures ok { (limit : ℕ) (began : Option (List ℕ)) →
        IsStreamed limit began (S.left source.old) opening.stream (begun_log opening) →
        IfOk result (λ log. WasRead limit began (S.left source.new) (λ bytes. IsOnly bytes log)) }
    ensures end { (limit : ℕ) (began : Option (List ℕ)) →
        IsStreamed limit began (S.left source.old) opening.stream (begun_log opening) →
        IfErr result (IsEnd limit began (S.left source.new)) }
    ensures faults { KeepsFaults (S.faults source.old) (S.faults source.new) result }
{
    let Opening {
        harts,
        block,
        pages,
        mut stream,
    } = opening;
    let mut lines = Lines::new(alloc);
    match read_lines(&mut stream, source, &mut lines) {
        Ok(()) => Ok(Log {
            harts,
            block,
            pages,
            lines,
        }),
        Err(end) => Err(end),
    }
}

/// Reads all record lines.
#[inline(never)]
fn read_lines<S: Source>(
    stream: &mut LogStream,
    source: &mut S,
    lines: &mut Lines,
) -> Result<(), LogEnd>
    ensures ok { (limit : ℕ) (began : Option (List ℕ)) (log : Log) → log.lines ≡ lines.old →
        IsStreamed limit began (S.left source.old) stream.old log →
        OnOk result (WasRead limit began (S.left source.new)
        (λ bytes. IsOnly bytes (record log { lines = lines.new }))) }
    ensures end { (limit : ℕ) (began : Option (List ℕ)) (log : Log) → log.lines ≡ lines.old →
        IsStreamed limit began (S.left source.old) stream.old log →
        IfErr result (IsEnd limit began (S.left source.new)) }
    ensures faults { KeepsFaults (S.faults source.old) (S.faults source.new) result }
{
    let mut reading = true;
    'lines: while reading {
        match read_line(stream, source, lines) {
            Ok(more) => reading = more,
            Err(end) => return Err(end),
        }
    }
    Ok(())
}

/// Reads one more record line; false at the end of the log.
fn read_line<S: Source>(
    stream: &mut LogStream,
    source: &mut S,
    lines: &mut Lines,
) -> Result<bool, LogEnd>
    ensures more { (limit : ℕ) (began : Option (List ℕ)) (log : Log) → log.lines ≡ lines.old →
        IsStreamed limit began (S.left source.old) stream.old log → result ≡ Ok true →
        IsStreamed limit began (S.left source.new) stream.new (record log { lines = lines.new }) }
    ensures over { (limit : ℕ) (began : Option (List ℕ)) (log : Log) → log.lines ≡ lines.old →
        IsStreamed limit began (S.left source.old) stream.old log → result ≡ Ok false →
        WasRead limit began (S.left source.new) (λ bytes. IsOnly bytes (record log { lines = lines.new })) }
    ensures end { (limit : ℕ) (began : Option (List ℕ)) (log : Log) → log.lines ≡ lines.old →
        IsStreamed limit began (S.left source.old) stream.old log →
        IfErr result (IsEnd limit began (S.left source.new)) }
    ensures further { result ≡ Ok true → bytes_ahead stream.new.buffer < bytes_ahead stream.old.buffer }
    ensures faults { KeepsFaults (S.faults source.old) (S.faults source.new) result }
{
    match stream.next(source) {
        Ok(Some(row)) => {
            stream.push_to(lines, &row)?;
            Ok(true)
        }
        Ok(None) => Ok(false),
        Err(end) => Err(end),
    }
}
