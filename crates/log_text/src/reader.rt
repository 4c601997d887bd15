//! A log read line by line: a text begins with a syntactically valid line, or with none, and the rules judge that line
//! by a tally of the lines before it.
//!
//! The text need not be all that is to come: it has to hold the next line whole.

ghost use Rattle.std.specs.Prelude.{◌≡◌, ◌≤◌, ◌<◌, ◌+◌, ◌++◌, ◌%◌, ◌^◌, ℕ, List, [], ◌∷◌, length, drop, OnOk, Some, Err, IfErr, IfOk};
ghost use Rattle.pl_event.specs.declared.log.Log.{Log};
ghost use Rattle.log_grammar.specs.Begins.{BeginsWithNoRow, BeginsWithNoPage};
ghost use Rattle.log_text.specs.WellFormed.{IfFault};
ghost use Rattle.log_text.specs.Reading.{HasRead, IsReadBy, HoldsLine, HoldsNext, ReadsRow, IsOnly, IsNoLog, IfFound, IfMissed, opened, with_pages, line_of};

use crate::cause::{LogCause, LogFault, LogRefused};
use crate::judge::{judge_page, some_is_open};
use crate::take::take_row;
use crate::tally::Tally;
use log_grammar::{ArcList, header_at, page_at, row_at};
use pl_event::{Arcs, Line, Lines, PageRun, Record};
use std::alloc::{AllocError, Global};

/// A reader of a log, between two lines.
#[derive(Drop)]
pub struct LogReader {
    tally: Tally,
    /// The arcs of the last record line that has some.
    arcs: ArcList,
    /// The number of the next line, counted from 1.
    line: u32,
    /// The fault of the record line that was refused; no line is read after it.
    refused: Option<LogFault>,
}

/// The header of a log, how many bytes it has, and the reader after it.
#[derive(Drop)]
pub struct Header {
    pub harts: u8,
    pub block: u8,
    pub len: usize,
    pub reader: LogReader,
}

/// The run of pages of a line, and how many bytes the line has.
#[derive(Clone, Copy)]
pub struct Pages {
    pub run: PageRun,
    pub len: usize,
}

/// The record of a line, and how many bytes the line has. Its arcs, if it has some, stay with the reader until the next
/// line is read.
#[derive(Clone, Copy)]
pub struct Row {
    pub what: Record,
    pub has_arcs: bool,
    pub len: usize,
}

impl LogReader {
    /// Reads the header of a log.
    pub fn open(alloc: Global, text: &[u8]) -> Result<Header, LogRefused>
        ensures harts { IfOk result (λ header. (1 ≤ header.harts) × (header.harts ≤ 8)) }
        ensures len { IfOk result (λ header. (0 < header.len) × (header.len ≤ length text.now)) }
        ensures ok { (later : List ℕ) → HoldsLine text.now later →
            IfOk result (λ header. IsReadBy header.reader (text.now ++ later) (drop header.len text.now
            ++ later) (opened header)) }
        ensures fault { (later : List ℕ) → HoldsLine text.now later → IfFault result (IsNoLog (text.now ++ later)) }
    {
        let Some((harts, block, rest)) = header_at(text) else {
            return Err(LogRefused::Fault(LogFault {
                line: 1,
                cause: LogCause::Header,
            }));
        };
        let reader = LogReader {
            tally: Tally::new(alloc, harts)?,
            arcs: ArcList::new(),
            line: 2,
            refused: None,
        };
        Ok(Header {
            harts,
            block,
            len: text.len() - rest.len(),
            reader,
        })
    }

    /// The next run of pages, or none where no line of one begins the text.
    pub fn next_pages(&mut self, text: &[u8]) -> Result<Option<Pages>, LogFault>
        ensures len { IfFound result (λ pages. (0 < pages.len) × (pages.len ≤ length text.now)) }
        ensures found { (bytes later : List ℕ) (log : Log) → log.lines ≡ [] → HoldsNext bytes text.now later →
            IsReadBy self.old bytes (text.now ++ later) log →
            IfFound result
            (λ pages. IsReadBy self.new bytes (drop pages.len text.now ++ later) (with_pages log pages.run)) }
        ensures missed { (bytes later : List ℕ) (log : Log) → HoldsNext bytes text.now later →
            IsReadBy self.old bytes (text.now ++ later) log →
            IfMissed result (HasRead self.new bytes (text.now ++ later) log) }
        ensures fault { (bytes later : List ℕ) (log : Log) → HoldsNext bytes text.now later →
            IsReadBy self.old bytes (text.now ++ later) log → IfErr result (IsNoLog bytes) }
    {
        let Some((run, rest)) = page_at(text) else {
            return Ok(None);
        };
        if let Some(cause) = judge_page(&self.tally, run) {
            return Err(self.fault(cause));
        }
        self.tally.add_page(run);
        self.count_line();
        Ok(Some(Pages {
            run,
            len: text.len() - rest.len(),
        }))
    }

    /// The next record line, or none at the end of a log. A reader that has refused a line answers its fault again.
    #[inline(always)]
    pub fn next(&mut self, text: &[u8]) -> Result<Option<Row>, LogFault>
        ensures len { IfFound result (λ row. (0 < row.len) × (row.len ≤ length text.now)) }
        ensures empty { IfMissed result (text.now ≡ []) }
        ensures row { (bytes later : List ℕ) (log : Log) →
            HoldsNext bytes text.now later → HasRead self.old bytes (text.now ++ later) log →
            IfFound result (λ row. ReadsRow self.new bytes (drop row.len text.now ++ later) log row) }
        ensures end { (bytes later : List ℕ) (log : Log) →
            HoldsNext bytes text.now later → HasRead self.old bytes (text.now ++ later) log →
            IfMissed result (IsOnly bytes log) }
        ensures fault { (bytes later : List ℕ) (log : Log) →
            HoldsNext bytes text.now later → HasRead self.old bytes (text.now ++ later) log →
            IfErr result (IsNoLog bytes) }
        ensures told { IfErr result (λ fault. self.new.refused ≡ Some fault) }
        ensures again { (fault : LogFault) → self.old.refused ≡ Some fault → result ≡ Err fault }
    {
        if let Some(fault) = self.refused {
            return Err(fault);
        }
        match self.read_row(text) {
            Err(fault) => {
                self.refused = Some(fault);
                Err(fault)
            }
            Ok(row) => Ok(row),
        }
    }

    /// Reads the next record line.
    #[inline(always)]
    fn read_row(&mut self, text: &[u8]) -> Result<Option<Row>, LogFault>
        ensures len { IfFound result (λ row. (0 < row.len) × (row.len ≤ length text.now)) }
        ensures empty { IfMissed result (text.now ≡ []) }
        ensures row { (bytes later : List ℕ) (log : Log) → HoldsNext bytes text.now later →
            HasRead self.old bytes (text.now ++ later) log
            → IfFound result (λ row. ReadsRow self.new bytes (drop row.len text.now ++ later) log row) }
        ensures end { (bytes later : List ℕ) (log : Log) → HoldsNext bytes text.now later →
            HasRead self.old bytes (text.now ++ later) log → IfMissed result (IsOnly bytes log) }
        ensures fault { (bytes later : List ℕ) (log : Log) → HoldsNext bytes text.now later →
            HasRead self.old bytes (text.now ++ later) log → IfErr result (IsNoLog bytes) }
    {
        let Some((what, has_arcs, rest)) = row_at(text, &mut self.arcs) else {
            return self.finish(text);
        };
        if let Some(cause) = take_row(&mut self.tally, what, has_arcs, &self.arcs) {
            return Err(self.fault(cause));
        }
        self.count_line();
        Ok(Some(Row {
            what,
            has_arcs,
            len: text.len() - rest.len(),
        }))
    }

    /// The row that was read last, with its arcs.
    #[inline(always)]
    pub fn line(&self, row: &Row) -> Line
        ensures { result ≡ line_of self.now row.now }
    {
        Line {
            what: row.what,
            arcs: if row.has_arcs {
                self.arcs.arcs()
            } else {
                Arcs::none()
            },
        }
    }

    /// Appends the row that was read last, with its arcs.
    #[inline(always)]
    pub fn push_to(&self, lines: &mut Lines, row: &Row) -> Result<(), AllocError>
        ensures { OnOk result (lines.new ≡ lines.old ++ line_of self.now row.now ∷ []) }
    {
        if row.has_arcs {
            lines.push(self.line(row))
        } else {
            lines.push_record(row.what)
        }
    }

    /// Takes note that one more line was read.
    #[inline(always)]
    fn count_line(&mut self)
        ensures { self.new ≡ record self.old { line = (self.old.line + 1) % 2 ^ 32 } }
    {
        self.line = self.line.wrapping_add(1);
    }

    /// What it means that no record line begins the text: the end, a run of pages after a record, or no line.
    fn finish(&self, text: &[u8]) -> Result<Option<Row>, LogFault>
        ensures none { IfFound result (λ _. ⊥) }
        ensures empty { IfMissed result (text.now ≡ []) }
        ensures end { (bytes later : List ℕ) (log : Log) → HoldsNext bytes text.now later →
            HasRead self.now bytes (text.now ++ later) log → IfMissed result (IsOnly bytes log) }
        ensures fault { (bytes later : List ℕ) (log : Log) → HoldsNext bytes text.now later →
            HasRead self.now bytes (text.now ++ later) log → BeginsWithNoRow text.now → IfErr result (IsNoLog bytes) }
    {
        if text.is_empty() {
            return if some_is_open(&self.tally) {
                Err(self.fault(LogCause::Open))
            } else {
                Ok(None)
            };
        }
        if page_at(text).is_some() {
            Err(self.fault(LogCause::Page))
        } else {
            Err(self.fault(LogCause::Form))
        }
    }

    fn fault(&self, cause: LogCause) -> LogFault
        ensures { result ≡ record { line = self.now.line; cause = cause } }
    {
        LogFault {
            line: self.line,
            cause,
        }
    }
}
