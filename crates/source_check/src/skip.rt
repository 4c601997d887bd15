//! The rest of a log, read but not checked.
ghost use Rattle.std.specs.Prelude.{◌≡◌, ◌<◌, List, ℕ, Ok, true, false, IfErr, OnOk};
ghost use Rattle.std.specs.declared.option.Option.{Option};
ghost use Rattle.pl_event.specs.declared.log.Line.{Line};
ghost use Rattle.pl_event.specs.declared.log.Log.{Log};
ghost use Rattle.log_text.specs.Reading.{IsOnly, with_line};
ghost use Rattle.log_text.specs.Streaming.{IsEnd, IsStreamed, KeepsFaults, WasRead, bytes_ahead};
ghost use Rattle.source_check.specs.inner.Checking.{BeginsWith};

use log_text::{LogEnd, LogStream, streamed_lines};
use pl_base::Source;

/// Reads the record lines that are left: the bytes are a log's that begins with the lines so far.
#[inline(never)]
pub(crate) fn skip_lines<S: Source>(stream: &mut LogStream, source: &mut S) -> Result<(), LogEnd>
    ensures ok { (limit : ℕ) (began : Option (List ℕ)) (log : Log) →
        IsStreamed limit began (S.left source.old) stream.old log →
        OnOk result (WasRead limit began (S.left source.new) (BeginsWith log)) }
    ensures end { (limit : ℕ) (began : Option (List ℕ)) (log : Log) →
        IsStreamed limit began (S.left source.old) stream.old log →
        IfErr result (IsEnd limit began (S.left source.new)) }
    ensures faults { KeepsFaults (S.faults source.old) (S.faults source.new) result }
{
    streamed_lines();
    let mut reading = true;
    'lines: while reading {
        match skip_line(stream, source) {
            Ok(more) => reading = more,
            Err(end) => return Err(end),
        }
    }
    Ok(())
}

/// Reads one more record line; false at the end of the log.
fn skip_line<S: Source>(stream: &mut LogStream, source: &mut S) -> Result<bool, LogEnd>
    ensures more { (limit : ℕ) (began : Option (List ℕ)) (log : Log) →
        IsStreamed limit began (S.left source.old) stream.old log → result ≡ Ok true →
        (line : Line) × IsStreamed limit began (S.left source.new) stream.new (with_line log line) }
    ensures over { (limit : ℕ) (began : Option (List ℕ)) (log : Log) →
        IsStreamed limit began (S.left source.old) stream.old log → result ≡ Ok false →
        WasRead limit began (S.left source.new) (λ bytes. IsOnly bytes log) }
    ensures end { (limit : ℕ) (began : Option (List ℕ)) (log : Log) →
        IsStreamed limit began (S.left source.old) stream.old log →
        IfErr result (IsEnd limit began (S.left source.new)) }
    ensures further { result ≡ Ok true → bytes_ahead stream.new.buffer < bytes_ahead stream.old.buffer }
    ensures faults { KeepsFaults (S.faults source.old) (S.faults source.new) result }
{
    match stream.next(source) {
        Ok(Some(_)) => Ok(true),
        Ok(None) => Ok(false),
        Err(end) => Err(end),
    }
}
