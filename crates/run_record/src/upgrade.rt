//! A log as one of version 2, recorded anew while it is read.
//!
//! Each event goes to a recorder as its line is read, and its new lines go to the text at once: neither log is kept.
ghost use Rattle.std.specs.Prelude.{◌≡◌, [], ◌<◌, ◌≤◌, ◌^◌, ℕ, List, Ok, true, false, IfOk, IfErr, OnOk, string_bytes};
ghost use Rattle.std.specs.declared.option.Option.{Option};
ghost use Rattle.pl_base.specs.declared.layout.TheConstants.{MAX_HARTS};
ghost use Rattle.pl_event.specs.declared.log.Line.{Line};
ghost use Rattle.pl_event.specs.declared.log.Log.{Log};
ghost use Rattle.pl_event.specs.declared.log.Record.TheVariants as entry;
ghost use Rattle.log_text.specs.Reading.{with_line};
ghost use Rattle.log_text.specs.Streaming.{IsEnd, IsStreamed, KeepsFaults, WasRead, begun_log, bytes_ahead};
ghost use Rattle.run_record.specs.Texts.{IsUpgradeOf};
ghost use Rattle.run_record.specs.Upgrading.{IsUpgrading, IsUpgraded, MayTake};

use crate::written::add_lines;
use arc_capture::{Recorder, recorder_lines};
use log_text::{LogEnd, LogStream, Opening, begin_log};
use pl_base::layout::SMALL_BLOCK_BYTES;
use pl_base::{NoMemory, Source};
use pl_event::{Event, Line, PageRun, Record};
use std::alloc::Global;

/// A recorder of the events so far, and the text of their lines.
#[derive(Drop)]
struct Upgrade {
    recorder: Recorder,
    /// The lines of one event.
    more: Vec<Line>,
    text: String,
}

impl Upgrade {
    /// Of no event.
    fn new(alloc: Global, harts: u8, pages: &[PageRun]) -> Result<Upgrade, NoMemory>
        requires { harts ≤ MAX_HARTS }
        ensures { (log : Log) → log.harts ≡ harts → log.pages ≡ pages.now → log.lines ≡ [] →
            IfOk result (IsUpgraded log) }
    {
        Ok(Upgrade {
            recorder: Recorder::new(alloc, harts, SMALL_BLOCK_BYTES)?,
            more: Vec::new(alloc),
            text: begin_log(alloc, harts, SMALL_BLOCK_BYTES, pages)?,
        })
    }

    /// Writes the lines of the next event.
    fn take_event(&mut self, event: &Event) -> Result<(), NoMemory>
        requires { (log : Log) × MayTake log self.old (entry.Event event.now) }
        ensures { (log : Log) (line : Line) → line.what ≡ entry.Event event.now → MayTake log self.old (entry.Event event.now) →
            OnOk result (IsUpgraded (with_line log line) self.new) }
    {
        self.recorder.feed_into(event, &mut self.more)?;
        add_lines(&mut self.text, &self.more)
    }

    /// Takes the next record: writes the lines of its event, if it has one. A notice is passed over, since the recorder
    /// makes its own.
    #[inline(always)]
    fn take(&mut self, what: Record) -> Result<(), NoMemory>
        requires { (log : Log) × MayTake log self.old what }
        ensures { (log : Log) (line : Line) → line.what ≡ what → MayTake log self.old what →
            OnOk result (IsUpgraded (with_line log line) self.new) }
    {
        match what {
            Record::Event(event) => self.take_event(&event),
            Record::Notice { .. } => Ok(()),
        }
    }
}

/// The text of the log which a recorder of blocks of 4 bytes makes of the events of the log that a source has, in at
/// most `limit` bytes, with its pages. No more than a piece of the source is kept, and no line.
///
/// # Errors
///
/// - `Fault` names the first line that breaks a rule and the first rule that it breaks. The source was read to its end.
/// - `Read` where the source was not read to its end, or memory was out.
pub fn upgrade_source<S: Source>(
    alloc: Global,
    source: &mut S,
    limit: u32,
) -> Result<Vec<u8>, LogEnd>
    requires { limit < 2 ^ 31 }
    ensures ok { IfOk result (λ text. WasRead limit (S.left source.old) (S.left source.new)
        (λ bytes. IsUpgradeOf bytes text.items)) }
    ensures end { IfErr result (IsEnd limit (S.left source.old) (S.left source.new)) }
    ensures faults { KeepsFaults (S.faults source.old) (S.faults source.new) result }
{
    match LogStream::open(alloc, source, limit) {
        Ok(opening) => upgrade_opened(alloc, opening, source),
        Err(end) => Err(end),
    }
}

/// The text of the log whose header and pages were read.
fn upgrade_opened<S: Source>(
    alloc: Global,
    opening: Opening,
    source: &mut S,
) -> Result<Vec<u8>, LogEnd>
    requires harts { opening.harts ≤ MAX_HARTS }
    requires streamed { (limit : ℕ) × (began : Option (List ℕ))
        × IsStreamed limit began (S.left source.old) opening.stream (begun_log opening) }
    ensures ok { (limit : ℕ) (began : Option (List ℕ)) →
        IsStreamed limit began (S.left source.old) opening.stream (begun_log opening) →
        IfOk result (λ text. WasRead limit began (S.left source.new) (λ bytes. IsUpgradeOf bytes text.items)) }
    ensures end { (limit : ℕ) (began : Option (List ℕ)) →
        IsStreamed limit began (S.left source.old) opening.stream (begun_log opening) →
        IfErr result (IsEnd limit began (S.left source.new)) }
    ensures faults { KeepsFaults (S.faults source.old) (S.faults source.new) result }
{
    let Opening {
        harts,
        block: _,
        pages,
        mut stream,
    } = opening;
    let mut upgrade = Upgrade::new(alloc, harts, pages.as_slice())?;
    match upgrade_lines(&mut stream, source, &mut upgrade) {
        Ok(()) => Ok(upgrade.text.into_bytes()),
        Err(end) => Err(end),
    }
}

/// Reads all record lines, and writes those of their events.
#[inline(never)]
fn upgrade_lines<S: Source>(
    stream: &mut LogStream,
    source: &mut S,
    upgrade: &mut Upgrade,
) -> Result<(), LogEnd>
    requires { (limit : ℕ) × (began : Option (List ℕ))
        × IsUpgrading limit began (S.left source.old) stream.old upgrade.old }
    ensures ok { (limit : ℕ) (began : Option (List ℕ)) →
        IsUpgrading limit began (S.left source.old) stream.old upgrade.old →
        OnOk result (WasRead limit began (S.left source.new)
        (λ bytes. IsUpgradeOf bytes (string_bytes upgrade.new.text))) }
    ensures end { (limit : ℕ) (began : Option (List ℕ)) →
        IsUpgrading limit began (S.left source.old) stream.old upgrade.old →
        IfErr result (IsEnd limit began (S.left source.new)) }
    ensures faults { KeepsFaults (S.faults source.old) (S.faults source.new) result }
{
    let mut reading = true;
    'lines: while reading {
        match upgrade_line(stream, source, upgrade) {
            Ok(more) => reading = more,
            Err(end) => return Err(end),
        }
    }
    Ok(())
}

/// Reads one more record line, and writes those of its event; false at the end of the log.
#[inline(always)]
fn upgrade_line<S: Source>(
    stream: &mut LogStream,
    source: &mut S,
    upgrade: &mut Upgrade,
) -> Result<bool, LogEnd>
    requires { (limit : ℕ) × (began : Option (List ℕ))
        × IsUpgrading limit began (S.left source.old) stream.old upgrade.old }
    ensures more { (limit : ℕ) (began : Option (List ℕ)) →
        IsUpgrading limit began (S.left source.old) stream.old upgrade.old → result ≡ Ok true →
        IsUpgrading limit began (S.left source.new) stream.new upgrade.new }
    ensures over { (limit : ℕ) (began : Option (List ℕ)) →
        IsUpgrading limit began (S.left source.old) stream.old upgrade.old → result ≡ Ok false →
        WasRead limit began (S.left source.new) (λ bytes. IsUpgradeOf bytes (string_bytes upgrade.new.text)) }
    ensures end { (limit : ℕ) (began : Option (List ℕ)) →
        IsUpgrading limit began (S.left source.old) stream.old upgrade.old →
        IfErr result (IsEnd limit began (S.left source.new)) }
    ensures further { result ≡ Ok true → bytes_ahead stream.new.buffer < bytes_ahead stream.old.buffer }
    ensures faults { KeepsFaults (S.faults source.old) (S.faults source.new) result }
{
    recorder_lines();
    match stream.next(source) {
        Ok(Some(row)) => {
            upgrade.take(row.what)?;
            Ok(true)
        }
        Ok(None) => Ok(false),
        Err(end) => Err(end),
    }
}
