//! A log read from bytes at hand.
ghost use Rattle.std.specs.Prelude.{◌≡◌, ◌<◌, ◌≤◌, ◌^◌, ◌++◌, ◌∷◌, [], List, ℕ, length, drop, IfOk, OnOk};
ghost use Rattle.pl_event.specs.declared.log.Log.{Log};
ghost use Rattle.log_text.specs.Parts.{HasValidParts};
ghost use Rattle.log_text.specs.Reading.{HasRead, IsReadBy, IsOnly, IsNoLog, opened, line_of};
ghost use Rattle.log_text.specs.WellFormed.{IsLogText, IsFirstFault, IfFault};

use crate::cause::LogRefused;
use crate::reader::{Header, LogReader, Row};
use pl_event::{Lines, Log, PageRuns};
use std::alloc::{AllocError, Global};

/// The log that the bytes spell, or the first line that breaks a rule and the first rule that it breaks. The text of a
/// log that was read is the bytes that were read.
pub fn read_log(alloc: Global, bytes: &[u8]) -> Result<Log, LogRefused>
    requires { length bytes.now < 2 ^ 31 }
    ensures ok { IfOk result (IsLogText bytes.now) }
    ensures one { IfOk result (λ log. (other : Log) → IsLogText bytes.now other → other ≡ log) }
    ensures parts { IfOk result HasValidParts }
    ensures fault { IfFault result (IsFirstFault bytes.now) }
    ensures none { IfFault result (λ _. (log : Log) → IsLogText bytes.now log → ⊥) }
{
    match LogReader::open(alloc, bytes) {
        Ok(header) => read_opened(alloc, header, bytes),
        Err(refused) => Err(refused),
    }
}

/// The log whose header was read.
fn read_opened(alloc: Global, header: Header, bytes: &[u8]) -> Result<Log, LogRefused>
    requires few { length bytes.now < 2 ^ 31 }
    requires inside { header.len ≤ length bytes.now }
    requires read { IsReadBy header.reader bytes.now (drop header.len bytes.now ++ []) (opened header) }
    ensures ok { IfOk result (IsOnly bytes.now) }
    ensures fault { IfFault result (IsNoLog bytes.now) }
{
    let Header {
        harts,
        block,
        len,
        mut reader,
    } = header;
    let (_, text) = bytes.split_at(len);
    let mut pages = PageRuns::new(alloc);
    let rest = read_pages(&mut reader, text, &mut pages)?;
    let mut lines = Lines::new(alloc);
    read_lines(&mut reader, rest, &mut lines)?;
    Ok(Log {
        harts,
        block,
        pages,
        lines,
    })
}

/// Reads the runs of pages that begin the text, and gives what follows them.
fn read_pages<'a>(
    reader: &mut LogReader,
    text: &'a [u8],
    pages: &mut PageRuns,
) -> Result<&'a [u8], LogRefused>
    ensures ok { (bytes : List ℕ) (log : Log) → length bytes < 2 ^ 31 → log.lines ≡ [] → log.pages ≡ pages.old →
        IsReadBy reader.old bytes (text.now ++ []) log
        → IfOk result (λ rest. HasRead reader.new bytes (rest.now ++ []) (record log { pages = pages.new })) }
    ensures fault { (bytes : List ℕ) (log : Log) → length bytes < 2 ^ 31 → log.lines ≡ [] → log.pages ≡ pages.old →
        IsReadBy reader.old bytes (text.now ++ []) log → IfFault result (IsNoLog bytes) }
{
    let mut rest = text;
    'pages: while let Some(found) = reader.next_pages(rest)? {
        pages.push(found.run)?;
        let (_, behind) = rest.split_at(found.len);
        rest = behind;
    }
    Ok(rest)
}

/// Reads the record lines up to the end of the text.
fn read_lines(reader: &mut LogReader, text: &[u8], lines: &mut Lines) -> Result<(), LogRefused>
    ensures ok { (bytes : List ℕ) (log : Log) → length bytes < 2 ^ 31 → log.lines ≡ lines.old →
        HasRead reader.old bytes (text.now ++ []) log →
        OnOk result (IsOnly bytes (record log { lines = lines.new })) }
    ensures fault { (bytes : List ℕ) (log : Log) → length bytes < 2 ^ 31 → log.lines ≡ lines.old →
        HasRead reader.old bytes (text.now ++ []) log → IfFault result (IsNoLog bytes) }
{
    let mut rest = text;
    'lines: while let Some(row) = reader.next(rest)? {
        reader.push_to(lines, &row)?;
        let (_, behind) = rest.split_at(row.len);
        rest = behind;
    }
    Ok(())
}
