//! Statements of a text line by line.
ghost use Rattle.std.specs.Prelude.{◌≡◌, ◌≤◌, ◌<◌, ◌+◌, ◌^◌, List, [], ◌∷◌, ◌++◌, length, map, is_some, false, All, IfSome, IfOk, IfErr, OnOk};
ghost use Rattle.std.specs.Option.{option_copied};
ghost use Rattle.guest_asm.specs.Texts.{lines_of};
ghost use Rattle.guest_asm.specs.Statements.{IsValidStatement};
ghost use Rattle.guest_asm.specs.Lines.{Meaning, shown, IsValidLine};
ghost use Rattle.guest_asm.specs.Rules.{address_in, section_after, after_statement, after_optional, overfills, on_statement, is_again, address_of, label_with, broken};
ghost use Rattle.guest_asm.specs.Jobs.{placed, row_with, first_pass, HasFault, IfFault};
ghost use Rattle.guest_asm.specs.Scans.{defined, IsValidRow, Keeps};
ghost use Rattle.pl_base.specs.declared.layout.TheConstants.{MAX_TEXT_WORDS, MAX_DATA_BYTES};

use crate::bytes::cut_at;
use crate::cause::{JobCause, JobRefused, refused};
use crate::line::{Line, line_of};
use crate::rules::{broken_at, bytes_of, is_incomplete, words_of};
use crate::statement::Statement;
use indexmap::IndexMap;
use pl_base::layout::{DATA_START, TEXT_START};
use std::alloc::{AllocFailed, Global};

/// Where statements put what they emit.
#[derive(Clone, Copy, PartialEq, Eq)]
pub enum Section {
    Text,
    Data,
}

/// What comes before a line: the section in force, and how many words of text and bytes of data there are.
#[derive(Clone, Copy)]
pub struct Place {
    pub section: Option<Section>,
    pub words: u32,
    pub bytes: u32,
}

/// A statement with its line, the address of the next word of the text, the section, and the label that it names.
#[derive(Drop)]
pub struct Row<'a> {
    pub line: u32,
    pub at: u32,
    pub section: Option<Section>,
    pub statement: Statement,
    pub named: Option<&'a [u8]>,
}

/// The lines so far.
#[derive(Drop)]
pub struct Scan<'a> {
    pub rows: Vec<Row<'a>>,
    /// The address of each label.
    pub labels: IndexMap<&'a [u8], u32>,
    pub place: Place,
}

/// The address of the next thing that a statement puts into the section; text begins at 10000 and data at 100000 hex.
fn address(place: Place) -> u32
    requires words { place.words ≤ MAX_TEXT_WORDS }
    requires bytes { place.bytes ≤ MAX_DATA_BYTES }
    ensures { result ≡ address_in place }
{
    if place.section == Some(Section::Data) {
        DATA_START + place.bytes
    } else {
        TEXT_START + 4 * place.words
    }
}

fn section_after(section: Option<Section>, statement: &Statement) -> Option<Section>
    ensures { result ≡ section_after section statement.now }
{
    match statement {
        Statement::Text => Some(Section::Text),
        Statement::Data => Some(Section::Data),
        _ => section,
    }
}

/// What comes after a statement.
fn after_statement(place: Place, statement: &Statement) -> Place
    requires { overfills place statement.now ≡ false }
    ensures { result ≡ after_statement place statement.now }
{
    let words = u128::from(place.words) + words_of(place.section, statement);
    let bytes = u128::from(place.bytes) + bytes_of(place.section, statement);
    Place {
        section: section_after(place.section, statement),
        words: words as u32,
        bytes: bytes as u32,
    }
}

/// Whether a label is defined already.
fn is_defined(labels: &IndexMap<&[u8], u32>, label: Option<&[u8]>) -> bool
    ensures { result ≡ is_again (defined labels.now) (option_copied label.entry) }
{
    match label {
        Some(name) => labels.get(name).is_some(),
        None => false,
    }
}

fn define_name<'a>(
    labels: &mut IndexMap<&'a [u8], u32>,
    name: &'a [u8],
    address: u32,
) -> Result<(), AllocFailed<(&'a [u8], u32)>>
    requires { is_some (address_of (defined labels.old) name.now) ≡ false }
    ensures { OnOk result (defined labels.new ≡ defined labels.old ++ (name.now, address) ∷ []) }
{
    labels.insert(name, address)?;
    Ok(())
}

/// Defines the label of a line, where it has one.
fn define<'a>(
    labels: &mut IndexMap<&'a [u8], u32>,
    label: Option<&'a [u8]>,
    address: u32,
) -> Result<(), AllocFailed<(&'a [u8], u32)>>
    requires { is_again (defined labels.old) (option_copied label) ≡ false }
    ensures { OnOk result (defined labels.new ≡ defined labels.old ++ label_with address (option_copied label.entry)) }
{
    match label {
        Some(name) => define_name(labels, name, address),
        None => Ok(()),
    }
}

/// One more row, where the line has a statement.
fn push_row<'a>(
    rows: &mut Vec<Row<'a>>,
    line: u32,
    place: Place,
    statement: Option<Statement>,
    named: Option<&'a [u8]>,
) -> Result<(), AllocFailed<Row<'a>>>
    requires words { place.words ≤ MAX_TEXT_WORDS }
    requires valid { IfSome statement IsValidStatement }
    ensures rows { OnOk result (map placed rows.new.items ≡ map placed rows.old.items ++
        row_with line place (option_copied named.entry) statement) }
    ensures valid { OnOk result (All IsValidRow rows.old.items → All IsValidRow rows.new.items) }
{
    if let Some(statement) = statement {
        rows.push(Row {
            line,
            at: TEXT_START + 4 * place.words,
            section: place.section,
            statement,
            named,
        })?;
    }
    Ok(())
}

/// What comes after a line.
fn after_line(place: Place, statement: &Option<Statement>) -> Place
    requires fits { on_statement (overfills place) statement.now ≡ false }
    requires words { place.words ≤ MAX_TEXT_WORDS }
    requires bytes { place.bytes ≤ MAX_DATA_BYTES }
    ensures value { result ≡ after_optional place statement.now }
    ensures words { result.words ≤ MAX_TEXT_WORDS }
    ensures bytes { result.bytes ≤ MAX_DATA_BYTES }
{
    match statement {
        Some(statement) => after_statement(place, statement),
        None => place,
    }
}

impl<'a> Scan<'a> {
    /// No line yet.
    fn new(alloc: Global) -> Scan<'a>
        ensures { Keeps [] result }
    {
        Scan {
            rows: Vec::new(alloc),
            labels: IndexMap::new(alloc),
            place: Place {
                section: None,
                words: 0,
                bytes: 0,
            },
        }
    }

    /// The first rule that a line breaks after those so far.
    fn broken(&self, line: &Line<'a>) -> Option<JobCause>
        ensures { (before : List Meaning) → Keeps before self.now → result ≡ broken before (shown line.now) }
    {
        let again = is_defined(&self.labels, line.label);
        broken_at(self.rows.as_slice(), self.place, again, line)
    }

    /// One more line, which breaks no rule.
    fn add(&mut self, number: u32, line: Line<'a>) -> Result<(), JobRefused>
        requires fits { on_statement (overfills self.old.place) line.statement ≡ false }
        requires new { is_again (defined self.old.labels) (option_copied line.label) ≡ false }
        requires words { self.old.place.words ≤ MAX_TEXT_WORDS }
        requires bytes { self.old.place.bytes ≤ MAX_DATA_BYTES }
        requires valid { IsValidLine line }
        ensures kept { OnOk result ((before : List Meaning) → number ≡ length before + 1 →
            Keeps before self.old → Keeps (before ++ shown line.entry ∷ []) self.new) }
        ensures memory { IfErr result (λ e. e ≡ JobRefused.NoMemory) }
    {
        let Line {
            label,
            statement,
            named,
        } = line;
        let place = self.place;
        define(&mut self.labels, label, address(place))?;
        self.place = after_line(place, &statement);
        push_row(&mut self.rows, number, place, statement, named)?;
        Ok(())
    }
}

/// The first pass: the statements and the labels of the lines, or the first line that breaks a rule.
pub fn first_pass(alloc: Global, bytes: &[u8]) -> Result<Scan<'_>, JobRefused>
    requires { length bytes.now < 2 ^ 31 }
    ensures ok { IfOk result
        (λ scan. (before : List Meaning) × (first_pass [] (lines_of bytes.now) ≡ Ok before) × Keeps before scan) }
    ensures fault { IfFault result (HasFault bytes.now) }
{
    let mut scan = Scan::new(alloc);
    let mut rest = bytes;
    let mut number = 1u32;
    'lines: while !rest.is_empty() {
        let (text, behind) = cut_at(rest, b'\n');
        let Some(line) = line_of(alloc, text)? else {
            return Err(refused(number, JobCause::Form));
        };
        if let Some(cause) = scan.broken(&line) {
            return Err(refused(number, cause));
        }
        scan.add(number, line)?;
        rest = behind;
        number += 1;
    }
    if is_incomplete(scan.rows.as_slice(), scan.place) {
        return Err(refused(number, JobCause::Missing));
    }
    Ok(scan)
}
