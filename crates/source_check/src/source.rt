//! A log checked while it is read from its source.
ghost use Rattle.std.specs.Prelude.{◌≡◌, ◌<◌, ◌≤◌, ◌^◌, List, ℕ, IfOk, IfErr, None, Some, Ok};
ghost use Rattle.std.specs.declared.option.Option.{Option};
ghost use Rattle.pl_event.specs.declared.log.Log.{Log};
ghost use Rattle.log_text.specs.Streaming.{IsEnd, IsStreamed, KeepsFaults, WasRead, begun_log, bytes_ahead};
ghost use Rattle.source_check.specs.Answers.{HasOrder};
ghost use Rattle.source_check.specs.inner.Checking.{Brings, Follows, HasFound};

use crate::row::pass_row;
use crate::skip::skip_lines;
use log_check::{OrderCheck, UnorderedPair, grown_checks};
use log_text::{LogEnd, LogStream, Opening, streamed_lines};
use pl_base::Source;
use std::alloc::Global;

/// The order of the log that a source has, in at most `limit` bytes: none where each two conflicting events are
/// ordered, else the first pair that is not. No more than a piece of its text is kept, and no line.
///
/// # Errors
///
/// - `Fault` names the first line that breaks a rule and the first rule that it breaks, also where a pair is not ordered
///   before that line. The source was read to its end.
/// - `Read` where the source was not read to its end, or the check had no memory.
pub fn check_source<S: Source>(
    alloc: Global,
    source: &mut S,
    limit: u32,
) -> Result<Option<UnorderedPair>, LogEnd>
    requires { limit < 2 ^ 31 }
    ensures ok { IfOk result (λ found. WasRead limit (S.left source.old) (S.left source.new)
        (λ bytes. HasOrder bytes found)) }
    ensures end { IfErr result (IsEnd limit (S.left source.old) (S.left source.new)) }
    ensures faults { KeepsFaults (S.faults source.old) (S.faults source.new) result }
{
    match LogStream::open(alloc, source, limit) {
        Ok(opening) => check_opened(alloc, opening, source),
        Err(end) => Err(end),
    }
}

/// The order of the log whose header and pages were read.
fn check_opened<S: Source>(
    alloc: Global,
    opening: Opening,
    source: &mut S,
) -> Result<Option<UnorderedPair>, LogEnd>
    requires { (limit : ℕ) × (began : Option (List ℕ)) ×
        IsStreamed limit began (S.left source.old) opening.stream (begun_log opening) }
    ensures ok { (limit : ℕ) (began : Option (List ℕ)) →
        IsStreamed limit began (S.left source.old) opening.stream (begun_log opening) →
        IfOk result (λ found. WasRead limit began (S.left source.new) (λ bytes. HasOrder bytes found)) }
    ensures end { (limit : ℕ) (began : Option (List ℕ)) →
        IsStreamed limit began (S.left source.old) opening.stream (begun_log opening) →
        IfErr result (IsEnd limit began (S.left source.new)) }
    ensures faults { KeepsFaults (S.faults source.old) (S.faults source.new) result }
{
    streamed_lines();
    let mut check = OrderCheck::new(alloc, opening.block)?;
    let mut stream = opening.stream;
    check_lines(&mut stream, &mut check, source)
}

/// Checks all record lines.
#[inline(never)]
fn check_lines<S: Source>(
    stream: &mut LogStream,
    check: &mut OrderCheck,
    source: &mut S,
) -> Result<Option<UnorderedPair>, LogEnd>
    requires { (limit : ℕ) × (began : Option (List ℕ)) × (log : Log) ×
        Follows limit began (S.left source.old) stream.old check.old log }
    ensures ok { (limit : ℕ) (began : Option (List ℕ)) (log : Log) →
        Follows limit began (S.left source.old) stream.old check.old log →
        IfOk result (λ found. WasRead limit began (S.left source.new) (λ bytes. HasOrder bytes found)) }
    ensures end { (limit : ℕ) (began : Option (List ℕ)) (log : Log) →
        Follows limit began (S.left source.old) stream.old check.old log →
        IfErr result (IsEnd limit began (S.left source.new)) }
    ensures faults { KeepsFaults (S.faults source.old) (S.faults source.new) result }
{
    let mut reading = true;
    'lines: while reading {
        match check_line(stream, check, source) {
            Ok(Step::More) => {}
            Ok(Step::Over) => reading = false,
            Ok(Step::Found(pair)) => return told_last(stream, source, pair),
            Err(end) => return Err(end),
        }
    }
    Ok(None)
}

/// What one more record line brings.
#[derive(Clone, Copy)]
enum Step {
    More,
    Over,
    Found(UnorderedPair),
}

/// Checks one more record line.
#[inline(always)]
fn check_line<S: Source>(
    stream: &mut LogStream,
    check: &mut OrderCheck,
    source: &mut S,
) -> Result<Step, LogEnd>
    requires { (limit : ℕ) × (began : Option (List ℕ)) × (log : Log) ×
        Follows limit began (S.left source.old) stream.old check.old log }
    ensures step { (limit : ℕ) (began : Option (List ℕ)) (log : Log) →
        Follows limit began (S.left source.old) stream.old check.old log →
        IfOk result (Brings limit began (S.left source.new) stream.new check.new) }
    ensures end { (limit : ℕ) (began : Option (List ℕ)) (log : Log) →
        Follows limit began (S.left source.old) stream.old check.old log →
        IfErr result (IsEnd limit began (S.left source.new)) }
    ensures further { result ≡ Ok Step.More → bytes_ahead stream.new.buffer < bytes_ahead stream.old.buffer }
    ensures faults { KeepsFaults (S.faults source.old) (S.faults source.new) result }
{
    streamed_lines();
    grown_checks();
    let next = stream.next(source);
    match &next {
        Ok(Some(row)) => match pass_row(check, stream, row)? {
            None => Ok(Step::More),
            Some(pair) => Ok(Step::Found(pair)),
        },
        Ok(None) => Ok(Step::Over),
        Err(end) => Err(*end),
    }
}

/// The pair that was found, once the rest was read.
fn told_last<S: Source>(
    stream: &mut LogStream,
    source: &mut S,
    pair: UnorderedPair,
) -> Result<Option<UnorderedPair>, LogEnd>
    ensures ok { (limit : ℕ) (began : Option (List ℕ)) →
        HasFound limit began (S.left source.old) stream.old pair →
        IfOk result (λ found. WasRead limit began (S.left source.new) (λ bytes. HasOrder bytes found)) }
    ensures end { (limit : ℕ) (began : Option (List ℕ)) →
        HasFound limit began (S.left source.old) stream.old pair →
        IfErr result (IsEnd limit began (S.left source.new)) }
    ensures faults { KeepsFaults (S.faults source.old) (S.faults source.new) result }
{
    grown_checks();
    match skip_lines(stream, source) {
        Ok(()) => Ok(Some(pair)),
        Err(end) => Err(end),
    }
}
