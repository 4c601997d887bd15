//! The one spelling of a log, line after line at the end of a text.

ghost use Rattle.std.specs.Prelude.{◌≡◌, ◌<◌, ◌^◌, ◌++◌, ◌∷◌, ℕ, suc, true, List, Option, All, length, map, IfOk, OnOk, string_bytes};
ghost use Rattle.std.specs.List.{join_with_byte};
ghost use Rattle.std.specs.Fmt.{decimal};
ghost use Rattle.pl_event.specs.declared.log.Line.{Line};
ghost use Rattle.log_grammar.specs.Spelling.{hex, page, row_of, kind_words, record_words, load_word, store_word, fault_word, page_word, point_word, header_text, line_text, entry_text, entries_text, log_spelling, points_from};
ghost use Rattle.log_text.specs.WellFormed.{IsWellFormed, IsWritable, IsLogText};
ghost use Rattle.log_text.specs.Writing.{arcs_text};

use crate::digits::{push_decimal, push_hex};
use pl_base::{FaultCause, LoadWidth, NoMemory, StoreWidth};
use pl_event::{Arcs, Kind, Line, Lines, Log, PageKind, PageRun, Point, Record};
use std::alloc::{AllocError, Global};

/// The text of a log. It may have any number of records, and their numbers may be any of 32 bits; the text of a log
/// that is well-formed is read as that log, and is short enough to be read.
pub fn write_log(alloc: Global, log: &Log) -> Result<Vec<u8>, NoMemory>
    requires { IsWritable log.now }
    ensures text { IfOk result (λ text. text.items ≡ log_spelling log.now) }
    ensures back { IsWellFormed log.now → IfOk result (λ text. IsLogText text.items log.now) }
    ensures short { IsWellFormed log.now → IfOk result (λ text. length text.items < 2 ^ 31) }
{
    let mut out = String::new(alloc);
    write_header(&mut out, log.harts, log.block)?;
    write_pages(&mut out, log.pages.as_slice())?;
    write_lines(&mut out, &log.lines)?;
    Ok(out.into_bytes())
}

pub fn write_header(out: &mut String, harts: u8, block: u8) -> Result<(), AllocError>
    ensures { OnOk result (string_bytes out.new ≡ string_bytes out.old ++ line_text (header_text harts block)) }
{
    let version = if block == 16 { 1 } else { 2 };
    write!(out, "PLOG {version} harts {harts} block {block}\n")
}

pub fn write_pages(out: &mut String, pages: &[PageRun]) -> Result<(), AllocError>
    ensures { OnOk result (string_bytes out.new ≡ string_bytes out.old ++ entries_text (map page pages.now)) }
{
    'pages: for run in pages {
        write_page(out, *run)?;
    }
    Ok(())
}

fn write_page(out: &mut String, run: PageRun) -> Result<(), AllocError>
    ensures { OnOk result (string_bytes out.new ≡ string_bytes out.old ++ line_text (entry_text (page run))) }
{
    let PageRun { first, count, kind } = run;
    let word = page_word(kind);
    write!(out, "page {first} {count} {word}\n")
}

fn page_word(kind: PageKind) -> &'static str
    ensures { result.now ≡ page_word kind }
{
    match kind {
        PageKind::Data => "data",
        PageKind::Heap => "heap",
        PageKind::Stack => "stack",
    }
}

fn write_lines(out: &mut String, lines: &Lines) -> Result<(), AllocError>
    requires { All (λ line. length line.arcs ≡ 8) lines.now }
    ensures { OnOk result (string_bytes out.new ≡ string_bytes out.old ++ entries_text (map row_of lines.now)) }
{
    'lines: for i in 0..lines.len() {
        write_line(out, &lines.get(i))?;
    }
    Ok(())
}

pub fn write_line(out: &mut String, line: &Line) -> Result<(), AllocError>
    requires { length line.now.arcs ≡ 8 }
    ensures { OnOk result (string_bytes out.new ≡ string_bytes out.old ++ line_text (entry_text (row_of line.now))) }
{
    write_record(out, line.what)?;
    write_arcs(out, &line.arcs)?;
    out.push_str("\n")
}

fn write_record(out: &mut String, what: Record) -> Result<(), AllocError>
    ensures { OnOk result (string_bytes out.new ≡ string_bytes out.old ++ join_with_byte 32 (record_words what)) }
{
    match what {
        Record::Event(event) => {
            push_decimal(out, "h", u32::from(event.hart))?;
            out.push_str(" ")?;
            write_kind(out, event.kind)
        }
        Record::Notice { hart, of } => {
            push_decimal(out, "h", u32::from(hart))?;
            write_point(out, " ! ", of)
        }
    }
}

/// Text, and a point after it.
fn write_point(out: &mut String, before: &str, point: Point) -> Result<(), AllocError>
    ensures { OnOk result (string_bytes out.new ≡ string_bytes out.old ++ before.now ++ point_word point) }
{
    push_decimal(out, before, u32::from(point.hart))?;
    push_decimal(out, ":", point.number)
}

/// A word, and a register after it.
fn write_register(out: &mut String, word: &str, r: u8) -> Result<(), AllocError>
    ensures { OnOk result (string_bytes out.new ≡ string_bytes out.old ++ word.now ++ decimal r) }
{
    push_decimal(out, word, u32::from(r))
}

/// A word, and two registers after it.
fn write_registers(out: &mut String, word: &str, r: u8, other: u8) -> Result<(), AllocError>
    ensures { OnOk result (string_bytes out.new
        ≡ string_bytes out.old ++ word.now ++ decimal r ++ 32 ∷ decimal other) }
{
    write_register(out, word, r)?;
    write_register(out, " ", other)
}

/// A word, and a run of bytes after it.
fn write_run(out: &mut String, word: &str, addr: u32, len: u32) -> Result<(), AllocError>
    ensures { OnOk result (string_bytes out.new
        ≡ string_bytes out.old ++ word.now ++ hex addr ++ 32 ∷ decimal len) }
{
    push_hex(out, word, addr)?;
    push_decimal(out, " ", len)
}

/// A word, and a run of pages after it.
fn write_paging(out: &mut String, word: &str, first: u16, count: u16) -> Result<(), AllocError>
    ensures { OnOk result (string_bytes out.new
        ≡ string_bytes out.old ++ word.now ++ decimal first ++ 32 ∷ decimal count) }
{
    push_decimal(out, word, u32::from(first))?;
    push_decimal(out, " ", u32::from(count))
}

fn write_kind(out: &mut String, kind: Kind) -> Result<(), AllocError>
    ensures { OnOk result (string_bytes out.new ≡ string_bytes out.old ++ join_with_byte 32 (kind_words kind)) }
{
    match kind {
        Kind::Ld {
            width,
            rd,
            rb,
            addr,
        } => write_load(out, width, rd, rb, addr),
        Kind::St {
            width,
            rv,
            rb,
            addr,
        } => write_store(out, width, rv, rb, addr),
        Kind::Op { rd, r1, r2 } => {
            write_register(out, "op ", rd)?;
            write_registers(out, " ", r1, r2)
        }
        Kind::Mv { rd, rs } => write_registers(out, "mv ", rd, rs),
        Kind::Im { rd } => write_register(out, "im ", rd),
        Kind::Br { r1, r2 } => write_registers(out, "br ", r1, r2),
        Kind::Jr { rd, rs } => write_registers(out, "jr ", rd, rs),
        Kind::Al { addr, len } => write_run(out, "al ", addr, len),
        Kind::Fr { addr, len } => write_run(out, "fr ", addr, len),
        Kind::Bf { addr } => push_hex(out, "bf ", addr),
        Kind::Mp { page, count } => write_paging(out, "mp ", page, count),
        Kind::Um { page, count } => write_paging(out, "um ", page, count),
        Kind::Rd { addr, len } => write_run(out, "rd ", addr, len),
        Kind::Wr { addr, len } => write_run(out, "wr ", addr, len),
        Kind::Ex => out.push_str("ex"),
        Kind::Ft { cause, addr } => write_fault(out, cause, addr),
    }
}

fn write_load(
    out: &mut String,
    width: LoadWidth,
    rd: u8,
    rb: u8,
    addr: u32,
) -> Result<(), AllocError>
    ensures { OnOk result (string_bytes out.new
        ≡ string_bytes out.old ++ join_with_byte 32 (kind_words (Kind.Ld width rd rb addr))) }
{
    out.push_str("ld ")?;
    out.push_str(load_word(width))?;
    write_registers(out, " ", rd, rb)?;
    push_hex(out, " ", addr)
}

fn load_word(width: LoadWidth) -> &'static str
    ensures { result.now ≡ load_word width }
{
    match width {
        LoadWidth::B => "b",
        LoadWidth::H => "h",
        LoadWidth::W => "w",
        LoadWidth::Bu => "bu",
        LoadWidth::Hu => "hu",
    }
}

fn write_store(
    out: &mut String,
    width: StoreWidth,
    rv: u8,
    rb: u8,
    addr: u32,
) -> Result<(), AllocError>
    ensures { OnOk result (string_bytes out.new
        ≡ string_bytes out.old ++ join_with_byte 32 (kind_words (Kind.St width rv rb addr))) }
{
    out.push_str("st ")?;
    out.push_str(store_word(width))?;
    write_registers(out, " ", rv, rb)?;
    push_hex(out, " ", addr)
}

fn store_word(width: StoreWidth) -> &'static str
    ensures { result.now ≡ store_word width }
{
    match width {
        StoreWidth::B => "b",
        StoreWidth::H => "h",
        StoreWidth::W => "w",
    }
}

fn write_fault(out: &mut String, cause: FaultCause, addr: u32) -> Result<(), AllocError>
    ensures { OnOk result (string_bytes out.new
        ≡ string_bytes out.old ++ join_with_byte 32 (kind_words (Kind.Ft cause addr))) }
{
    out.push_str("ft ")?;
    out.push_str(fault_word(cause))?;
    push_hex(out, " ", addr)
}

fn fault_word(cause: FaultCause) -> &'static str
    ensures { result.now ≡ fault_word cause }
{
    match cause {
        FaultCause::Pc => "pc",
        FaultCause::Illegal => "illegal",
        FaultCause::Align => "align",
        FaultCause::Unmapped => "unmapped",
        FaultCause::ReadOnly => "readonly",
    }
}

/// The arcs that are set, by rising hart.
fn write_arcs(out: &mut String, arcs: &Arcs) -> Result<(), AllocError>
    requires { length arcs.now ≡ 8 }
    ensures { OnOk result (string_bytes out.new ≡ string_bytes out.old ++ arcs_text true (points_from 0 arcs.now)) }
{
    let mut first = true;
    'harts: for hart in 0..8 {
        first = write_arc(out, first, hart, arcs.get(hart))?;
    }
    Ok(())
}

/// One arc, if it is set, after what goes before the first one or before a further one. Tells whether the next arc is
/// still the first.
fn write_arc(
    out: &mut String,
    first: bool,
    hart: u8,
    number: Option<u32>,
) -> Result<bool, AllocError>
    ensures { (rest : List (Option ℕ)) →
        IfOk result (λ still. string_bytes out.new ++ arcs_text still (points_from (suc hart) rest)
        ≡ string_bytes out.old ++ arcs_text first (points_from hart (number ∷ rest))) }
{
    let Some(number) = number else {
        return Ok(first);
    };
    let front = if first { " < " } else { "," };
    write_point(out, front, Point { hart, number })?;
    Ok(false)
}
