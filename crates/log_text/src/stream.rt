//! A log read line by line from a source, of which no more than a piece is kept.
//!
//! Where a line breaks a rule, the rest of the source is read too: a log is refused only once its source was read to
//! the end, so that a fault of the source and too many bytes come first.

ghost use Rattle.std.specs.Prelude.{◌≡◌, ◌≢◌, ◌≤◌, ◌<◌, ◌+◌, ◌^◌, ℕ, List, ◌++◌, ◌∷◌, [], All, length, true, false, Ok, Err, IfOk, IfErr, OnOk, IsErrOf};
ghost use Rattle.std.specs.declared.option.Option.{Option};
ghost use Rattle.std.specs.Io.KnownBytes.{IsAtEnd};
ghost use Rattle.pl_base.specs.declared.layout.TheConstants.{PAGE_COUNT};
ghost use Rattle.pl_base.specs.Causes.{Rose, HasReadCause};
ghost use Rattle.log_text.specs.declared.cause.LogFault.{LogFault};
ghost use Rattle.pl_base.specs.Fronts.{TakesFront};
ghost use Rattle.pl_event.specs.declared.log.Log.{Log};
ghost use Rattle.log_text.specs.Reading.{IsOnly, IsNoLog, line_of};
ghost use Rattle.log_text.specs.Streaming.{Streams, IsBegun, IsStreamed, StreamsRow, WasRead, IsEnd, IsCaused, KeepsFaults, HasTold, IsReady, IfNext, IfOver, begun_log, bytes_ahead};

use crate::cause::{LogFault, LogRefused};
use crate::reader::{Header, LogReader, Pages, Row};
use pl_base::{LineBuffer, NoMemory, ReadEnd, Source};
use pl_event::{Line, Lines, PageRuns};
use std::alloc::{AllocError, Global};

/// Why a log was not read from its source.
#[derive(Clone, Copy, Debug, PartialEq, Eq)]
pub enum LogEnd {
    /// The source was read to its end, and this line is the first that breaks a rule.
    Fault(LogFault),
    /// The source was not read to its end.
    Read(ReadEnd),
}

impl From<ReadEnd> for LogEnd {
    ghost use Rattle.std.specs.Prelude.{◌≡◌};
    ghost use Rattle.log_text.specs.declared.stream.LogEnd.TheVariants as log_end;

    ghost from_gives = { λ read e. e ≡ log_end.Read read };

    fn from(read: ReadEnd) -> LogEnd {
        LogEnd::Read(read)
    }
}

impl From<NoMemory> for LogEnd {
    ghost use Rattle.std.specs.Prelude.{◌≡◌};
    ghost use Rattle.pl_base.specs.declared.loops.ReadEnd.TheVariants as read_end;
    ghost use Rattle.log_text.specs.declared.stream.LogEnd.TheVariants as log_end;

    ghost from_gives = { λ _ e. e ≡ log_end.Read read_end.NoMemory };

    fn from(_error: NoMemory) -> LogEnd {
        LogEnd::Read(ReadEnd::NoMemory)
    }
}

impl From<AllocError> for LogEnd {
    ghost use Rattle.std.specs.Prelude.{◌≡◌};
    ghost use Rattle.pl_base.specs.declared.loops.ReadEnd.TheVariants as read_end;
    ghost use Rattle.log_text.specs.declared.stream.LogEnd.TheVariants as log_end;

    ghost from_gives = { λ _ e. e ≡ log_end.Read read_end.NoMemory };

    fn from(_error: AllocError) -> LogEnd {
        LogEnd::Read(ReadEnd::NoMemory)
    }
}

/// A log between two lines: what is at hand of its source, and the reader of its lines.
#[derive(Drop)]
pub struct LogStream {
    buffer: LineBuffer,
    reader: LogReader,
}

/// The header and the pages of a log, and the stream after them.
#[derive(Drop)]
pub struct Opening {
    pub harts: u8,
    pub block: u8,
    pub pages: PageRuns,
    pub stream: LogStream,
}

/// Reads the rest of a source, whose bytes so far begin no log. It takes no memory, and reads nothing at the end.
fn refused<S: Source>(buffer: &mut LineBuffer, source: &mut S, fault: LogFault) -> LogEnd
    ensures end { (limit : ℕ) (began : Option (List ℕ)) →
        Streams limit began (S.left source.old) buffer.old (λ bytes rest. IsNoLog bytes fault) →
        IsEnd limit began (S.left source.new) result }
    ensures again { buffer.old.ended ≡ true → (result ≡ LogEnd.Fault fault) × (source.new ≡ source.old) }
    ensures told { (other : LogFault) → result ≡ LogEnd.Fault other → (other ≡ fault) × (buffer.new.ended ≡ true) }
    ensures memory { result ≢ LogEnd.Read ReadEnd.NoMemory }
    ensures faults { IsCaused (S.faults source.old) (S.faults source.new) result }
    ensures fault { result ≡ LogEnd.Read ReadEnd.Fault → Rose (S.faults source.old) (S.faults source.new) }
    ensures later { S.faults source.old ≤ S.faults source.new }
{
    if buffer.is_ended() {
        return LogEnd::Fault(fault);
    }
    match buffer.skip_rest(source) {
        Ok(()) => LogEnd::Fault(fault),
        Err(end) => LogEnd::Read(end),
    }
}

impl LogStream {
    /// Reads the header and the pages of a log from a source, which has at most `limit` bytes.
    pub fn open<S: Source>(alloc: Global, source: &mut S, limit: u32) -> Result<Opening, LogEnd>
        requires { limit < 2 ^ 31 }
        ensures harts { IfOk result (λ opening. (1 ≤ opening.harts) × (opening.harts ≤ 8)) }
        ensures pages { IfOk result (λ opening. All (λ run. run.first + run.count ≤ PAGE_COUNT) opening.pages) }
        ensures ok { IfOk result (λ opening.
            IsStreamed limit (S.left source.old) (S.left source.new) opening.stream (begun_log opening)) }
        ensures end { IfErr result (IsEnd limit (S.left source.old) (S.left source.new)) }
        ensures faults { KeepsFaults (S.faults source.old) (S.faults source.new) result }
        ensures fault { IsErrOf result (LogEnd.Read ReadEnd.Fault) → Rose (S.faults source.old) (S.faults source.new) }
        ensures later { S.faults source.old ≤ S.faults source.new }
    {
        let mut buffer = LineBuffer::new(alloc, limit)?;
        buffer.fill(source)?;
        let Header {
            harts,
            block,
            len,
            reader,
        } = match LogReader::open(alloc, buffer.front()) {
            Ok(header) => header,
            Err(LogRefused::Fault(fault)) => return Err(refused(&mut buffer, source, fault)),
            Err(LogRefused::NoMemory) => return Err(LogEnd::Read(ReadEnd::NoMemory)),
        };
        buffer.pass(len);
        let mut stream = LogStream { buffer, reader };
        let mut pages = PageRuns::new(alloc);
        stream.read_pages(source, &mut pages)?;
        Ok(Opening {
            harts,
            block,
            pages,
            stream,
        })
    }

    /// Reads the runs of pages.
    fn read_pages<S: Source>(&mut self, source: &mut S, pages: &mut PageRuns) -> Result<(), LogEnd>
        ensures ok { (limit : ℕ) (began : Option (List ℕ)) (log : Log) → log.lines ≡ [] → log.pages ≡ pages.old →
            IsBegun limit began (S.left source.old) self.old log
            → OnOk result (IsStreamed limit began (S.left source.new) self.new (record log { pages = pages.new })) }
        ensures end { (limit : ℕ) (began : Option (List ℕ)) (log : Log) → log.lines ≡ [] → log.pages ≡ pages.old →
            IsBegun limit began (S.left source.old) self.old log
            → IfErr result (IsEnd limit began (S.left source.new)) }
        ensures faults { KeepsFaults (S.faults source.old) (S.faults source.new) result }
        ensures fault { IsErrOf result (LogEnd.Read ReadEnd.Fault) → Rose (S.faults source.old) (S.faults source.new) }
        ensures later { S.faults source.old ≤ S.faults source.new }
    {
        let mut reading = true;
        'pages: while reading {
            match self.read_run(source, pages) {
                Ok(more) => reading = more,
                Err(end) => return Err(end),
            }
        }
        Ok(())
    }

    /// Reads one more run of pages; false where there is none.
    fn read_run<S: Source>(&mut self, source: &mut S, pages: &mut PageRuns) -> Result<bool, LogEnd>
        ensures more { (limit : ℕ) (began : Option (List ℕ)) (log : Log) → log.lines ≡ [] → log.pages ≡ pages.old →
            IsBegun limit began (S.left source.old) self.old log
            → result ≡ Ok true → IsBegun limit began (S.left source.new) self.new (record log { pages = pages.new }) }
        ensures over { (limit : ℕ) (began : Option (List ℕ)) (log : Log) → log.lines ≡ [] → log.pages ≡ pages.old →
            IsBegun limit began (S.left source.old) self.old log →
            result ≡ Ok false → IsStreamed limit began (S.left source.new) self.new (record log { pages = pages.new }) }
        ensures end { (limit : ℕ) (began : Option (List ℕ)) (log : Log) → log.lines ≡ [] → log.pages ≡ pages.old →
            IsBegun limit began (S.left source.old) self.old log
            → IfErr result (IsEnd limit began (S.left source.new)) }
        ensures further { result ≡ Ok true → bytes_ahead self.new.buffer < bytes_ahead self.old.buffer }
        ensures faults { KeepsFaults (S.faults source.old) (S.faults source.new) result }
        ensures fault { IsErrOf result (LogEnd.Read ReadEnd.Fault) → Rose (S.faults source.old) (S.faults source.new) }
        ensures later { S.faults source.old ≤ S.faults source.new }
    {
        self.get_ready(source)?;
        match self.reader.next_pages(self.buffer.front()) {
            Ok(Some(Pages { run, len })) => {
                self.buffer.pass(len);
                pages.push(run)?;
                Ok(true)
            }
            Ok(None) => Ok(false),
            Err(fault) => Err(refused(&mut self.buffer, source, fault)),
        }
    }

    /// The next record line, or none at the end of a log. A stream that has told a fault tells it again, and reads
    /// nothing more.
    #[inline(always)]
    pub fn next<S: Source>(&mut self, source: &mut S) -> Result<Option<Row>, LogEnd>
        ensures row { (limit : ℕ) (began : Option (List ℕ)) (log : Log) →
            IsStreamed limit began (S.left source.old) self.old log
            → IfNext result (StreamsRow limit began (S.left source.new) self.new log) }
        ensures over { (limit : ℕ) (began : Option (List ℕ)) (log : Log) →
            IsStreamed limit began (S.left source.old) self.old log
            → IfOver result (WasRead limit began (S.left source.new) (λ bytes. IsOnly bytes log)) }
        ensures end { (limit : ℕ) (began : Option (List ℕ)) (log : Log) →
            IsStreamed limit began (S.left source.old) self.old log →
            IfErr result (IsEnd limit began (S.left source.new)) }
        ensures further { IfNext result (λ _. bytes_ahead self.new.buffer < bytes_ahead self.old.buffer) }
        ensures told { (fault : LogFault) → result ≡ Err (LogEnd.Fault fault) → HasTold self.new fault }
        ensures again { (fault : LogFault) → HasTold self.old fault →
            (result ≡ Err (LogEnd.Fault fault)) × (source.new ≡ source.old) }
        ensures faults { KeepsFaults (S.faults source.old) (S.faults source.new) result }
        ensures fault { IsErrOf result (LogEnd.Read ReadEnd.Fault) → Rose (S.faults source.old) (S.faults source.new) }
        ensures later { S.faults source.old ≤ S.faults source.new }
    {
        self.get_ready(source)?;
        match self.reader.next(self.buffer.front()) {
            Ok(Some(row)) => {
                self.buffer.pass(row.len);
                Ok(Some(row))
            }
            Ok(None) => Ok(None),
            Err(fault) => Err(refused(&mut self.buffer, source, fault)),
        }
    }

    /// The row that was read last, with its arcs.
    pub fn line(&self, row: &Row) -> Line
        ensures { result ≡ line_of self.now.reader row.now }
    {
        self.reader.line(row)
    }

    /// Appends the row that was read last, with its arcs.
    #[inline(always)]
    pub fn push_to(&self, lines: &mut Lines, row: &Row) -> Result<(), AllocError>
        ensures { OnOk result (lines.new ≡ lines.old ++ line_of self.now.reader row.now ∷ []) }
    {
        self.reader.push_to(lines, row)
    }

    /// Sees to it that a line is at hand, unless the source is at its end.
    #[inline(always)]
    fn get_ready<S: Source>(&mut self, source: &mut S) -> Result<(), ReadEnd>
        ensures ready { OnOk result (IsReady self.new.buffer) }
        ensures reader { self.new.reader ≡ self.old.reader }
        ensures begun { (limit : ℕ) (began : Option (List ℕ)) (log : Log) →
            IsBegun limit began (S.left source.old) self.old log →
            OnOk result (IsBegun limit began (S.left source.new) self.new log) }
        ensures streamed { (limit : ℕ) (began : Option (List ℕ)) (log : Log) →
            IsStreamed limit began (S.left source.old) self.old log →
            OnOk result (IsStreamed limit began (S.left source.new) self.new log) }
        ensures not_begun { (limit : ℕ) (began : Option (List ℕ)) (log : Log) →
            IsBegun limit began (S.left source.old) self.old log →
            IfErr result (λ end. TakesFront end began (S.left source.new) limit) }
        ensures not_streamed { (limit : ℕ) (began : Option (List ℕ)) (log : Log) →
            IsStreamed limit began (S.left source.old) self.old log →
            IfErr result (λ end. TakesFront end began (S.left source.new) limit) }
        ensures same { OnOk result (bytes_ahead self.new.buffer ≡ bytes_ahead self.old.buffer) }
        ensures kept { self.old.buffer.ended ≡ true → (self.new ≡ self.old) × (source.new ≡ source.old) }
        ensures goes_on { self.old.buffer.ended ≡ true → IfErr result (λ _. ⊥) }
        ensures cause { HasReadCause (S.faults source.old) (S.faults source.new) result }
    {
        if self.buffer.is_ended() || !self.buffer.front().is_empty() {
            return Ok(());
        }
        self.buffer.fill(source)
    }
}
