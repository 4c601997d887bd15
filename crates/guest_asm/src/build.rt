//! From statements to a job.
ghost use Rattle.std.specs.Prelude.{◌≡◌, ◌≤◌, ◌<◌, ◌^◌, ◌%◌, ◌++◌, [], map, replicate, All, IfSome, IfOk, OnOk, IsSome, if◌then◌else◌, pos, neg_ℤ, ◌≤ℤ◌, ◌<ℤ◌, unsigned_abs};
ghost use Rattle.std.specs.Option.{option_copied};
ghost use Rattle.std.specs.Int.{w32, to_le_bytes};
ghost use Rattle.std.specs.List.{flat_map};
ghost use Rattle.rv_isa.specs.Valid.{IsValid};
ghost use Rattle.guest_asm.specs.Codes.{IsValidCode};
ghost use Rattle.guest_asm.specs.Rules.{statements_in, harts_in, is_text, is_data};
ghost use Rattle.guest_asm.specs.Faults.{target};
ghost use Rattle.guest_asm.specs.Jobs.{placed, raw, offset, instructions, AreValid, second_cell, near, statement_cells, on_line, second_pass, Appends, IsTextOf, IsSmall, IsSmallRow, data_of, input_in, item_of, schedule_in, steps_in, first_of, entry_in, entries_of, IsJobOfRows, IsDrawn, IfFault};
ghost use Rattle.guest_asm.specs.Scans.{defined, IsValidRow};
ghost use Rattle.pl_base.specs.declared.layout.TheConstants.{MAX_HARTS};
ghost use Rattle.core_sim.specs.Valid.{HasTypedNumbers};

use crate::cause::{JobCause, JobRefused, refused};
use crate::code::{Code, addi_of, lui_of};
use crate::number::Number;
use crate::rules::harts_in;
use crate::scan::{Row, Scan, Section};
use crate::statement::{Statement, Turn};
use core_sim::{Bytes, Item, Items, Job, Schedule, Words};
use indexmap::IndexMap;
use pl_base::layout::TEXT_START;
use rv_isa::{BranchOp, Instr, encode};
use std::alloc::{AllocError, Global};

/// How far a branch reaches back, in bytes.
const BRANCH_REACH: u32 = 4096;

/// How far `jal` reaches back, in bytes.
const JUMP_REACH: u32 = 0x10_0000;

/// The way from an instruction to a place, where it is even and reaches no further back than `reach` bytes and no
/// further ahead than two less.
fn offset(at: u32, to: u32, reach: u32) -> Option<i32>
    requires some { 2 ≤ reach }
    requires near { reach ≤ 2 ^ 20 }
    ensures value { result ≡ offset reach at to }
    ensures within { IfSome result (λ off. (neg_ℤ (pos reach) ≤ℤ off) × (off <ℤ pos reach)) }
    ensures even { IfSome result (λ off. unsigned_abs off % 2 ≡ 0) }
{
    let (from, place, reach) = (u64::from(at), u64::from(to), u64::from(reach));
    if place + reach < from || from + (reach - 2) < place || at % 2 != to % 2 {
        return None;
    }
    Some((i64::from(to) - i64::from(at)) as i32)
}

fn jump(rd: u8, at: u32, to: u32) -> Option<(Instr, Option<Instr>)>
    requires { rd < 32 }
    ensures value { result ≡ instructions at to (Code.Jump rd) }
    ensures valid { IfSome result AreValid }
{
    let off = offset(at, to, JUMP_REACH)?;
    Some((Instr::Jal { rd, off }, None))
}

fn branch(op: BranchOp, rs1: u8, rs2: u8, at: u32, to: u32) -> Option<(Instr, Option<Instr>)>
    requires first { rs1 < 32 }
    requires second { rs2 < 32 }
    ensures value { result ≡ instructions at to (Code.Branch op rs1 rs2) }
    ensures valid { IfSome result AreValid }
{
    let off = offset(at, to, BRANCH_REACH)?;
    Some((Instr::Branch { op, rs1, rs2, off }, None))
}

/// The one or two instructions of a code at an address, with the address of the label that it names, where that is
/// near enough.
fn instructions(at: u32, to: u32, code: Code) -> Option<(Instr, Option<Instr>)>
    requires { IsValidCode code }
    ensures value { result ≡ instructions at to code }
    ensures valid { IfSome result AreValid }
{
    match code {
        Code::One(instr) => Some((instr, None)),
        Code::Two(first, second) => Some((first, Some(second))),
        Code::Jump { rd } => jump(rd, at, to),
        Code::Branch { op, rs1, rs2 } => branch(op, rs1, rs2, at, to),
        Code::Address { rd } => Some((lui_of(rd, to), Some(addi_of(rd, to)))),
    }
}

/// The address of the label that a row names; a row that names none has 0.
fn target(labels: &IndexMap<&[u8], u32>, named: Option<&[u8]>) -> Option<u32>
    ensures { result ≡ target (defined labels.now) (option_copied named.entry) }
{
    match named {
        Some(name) => labels.get(name).copied(),
        None => Some(0),
    }
}

fn push_numbers(words: &mut Vec<u32>, numbers: &[Number]) -> Result<(), AllocError>
    ensures { OnOk result (words.new.items ≡ words.old.items ++ map (λ n. n.bits) numbers.now) }
{
    'numbers: for number in numbers {
        words.push(number.bits)?;
    }
    Ok(())
}

fn push_second(words: &mut Vec<u32>, second: Option<Instr>) -> Result<(), AllocError>
    requires { IfSome second IsValid }
    ensures { OnOk result (Appends words.old.items words.new.items (Ok (second_cell second))) }
{
    if let Some(instr) = second {
        words.push(encode(&instr))?;
    }
    Ok(())
}

fn push_pair(words: &mut Vec<u32>, first: Instr, second: Option<Instr>) -> Result<(), AllocError>
    requires first { IsValid first }
    requires second { IfSome second IsValid }
    ensures { OnOk result (Appends words.old.items words.new.items (near (Some (first, second)))) }
{
    words.push(encode(&first))?;
    push_second(words, second)
}

fn push_code(
    words: &mut Vec<u32>,
    line: u32,
    at: u32,
    to: u32,
    code: Code,
) -> Result<(), JobRefused>
    requires { IsValidCode code }
    ensures ok { OnOk result (Appends words.old.items words.new.items (near (instructions at to code))) }
    ensures fault { IfFault result (λ fault. on_line line (near (instructions at to code)) ≡ Err fault) }
{
    let Some((first, second)) = instructions(at, to, code) else {
        return Err(refused(line, JobCause::Far));
    };
    push_pair(words, first, second)?;
    Ok(())
}

fn is_text(section: Option<Section>) -> bool
    ensures { result ≡ is_text section }
{
    section == Some(Section::Text)
}

fn push_words(
    words: &mut Vec<u32>,
    section: Option<Section>,
    numbers: &[Number],
) -> Result<(), AllocError>
    ensures { OnOk result (Appends words.old.items words.new.items
        (Ok (if is_text section then map (λ n. raw n.bits) numbers.now else []))) }
{
    if is_text(section) {
        push_numbers(words, numbers)?;
    }
    Ok(())
}

/// The words of a row at the end of the text.
fn push_row(words: &mut Vec<u32>, row: &Row<'_>, to: u32) -> Result<(), JobRefused>
    requires { IsValidRow row.now }
    ensures ok { OnOk result
        (Appends words.old.items words.new.items (statement_cells (placed row.now) to row.now.statement)) }
    ensures fault { IfFault result
        (λ fault. on_line row.now.line (statement_cells (placed row.now) to row.now.statement) ≡ Err fault) }
{
    match &row.statement {
        Statement::Word(numbers) => {
            push_words(words, row.section, numbers.as_slice())?;
            Ok(())
        }
        Statement::Code(code) => push_code(words, row.line, row.at, to, *code),
        _ => Ok(()),
    }
}

/// The second pass: the words of the text, or the first line that names no label or one out of reach.
fn second_pass(
    alloc: Global,
    labels: &IndexMap<&[u8], u32>,
    rows: &[Row<'_>],
) -> Result<Vec<u32>, JobRefused>
    requires { All IsValidRow rows.now }
    ensures ok { IfOk result (λ words. IsTextOf (defined labels.now) (map placed rows.now) words.items) }
    ensures fault { IfFault result (λ fault. second_pass (defined labels.now) (map placed rows.now) ≡ Err fault) }
{
    let mut words = Vec::new(alloc);
    'rows: for row in rows {
        let Some(to) = target(labels, row.named) else {
            return Err(refused(row.line, JobCause::Label));
        };
        push_row(&mut words, row, to)?;
    }
    Ok(words)
}

fn push_little(bytes: &mut Vec<u8>, numbers: &[Number]) -> Result<(), AllocError>
    ensures { OnOk result (bytes.new.items ≡ bytes.old.items ++ flat_map (λ n. to_le_bytes w32 n.bits) numbers.now) }
{
    'numbers: for number in numbers {
        bytes.extend_from_slice(&number.bits.to_le_bytes())?;
    }
    Ok(())
}

fn push_bytes(bytes: &mut Vec<u8>, numbers: &[Number]) -> Result<(), AllocError>
    requires { All (λ n. n.bits < 256) numbers.now }
    ensures { OnOk result (bytes.new.items ≡ bytes.old.items ++ map (λ n. n.bits) numbers.now) }
{
    'numbers: for number in numbers {
        bytes.push(number.bits as u8)?;
    }
    Ok(())
}

fn push_zeros(bytes: &mut Vec<u8>, count: u32) -> Result<(), AllocError>
    ensures { OnOk result (bytes.new.items ≡ bytes.old.items ++ replicate count 0) }
{
    'zeros: for done in 0..count {
        bytes.push(0)?;
    }
    Ok(())
}

fn push_data_words(
    bytes: &mut Vec<u8>,
    section: Option<Section>,
    numbers: &[Number],
) -> Result<(), AllocError>
    ensures { OnOk result (bytes.new.items ≡ bytes.old.items ++
        (if is_data section then flat_map (λ n. to_le_bytes w32 n.bits) numbers.now else [])) }
{
    if section == Some(Section::Data) {
        push_little(bytes, numbers)?;
    }
    Ok(())
}

fn push_data(bytes: &mut Vec<u8>, row: &Row<'_>) -> Result<(), AllocError>
    requires { IsSmallRow row.now }
    ensures { OnOk result (bytes.new.items ≡ bytes.old.items ++ data_of (placed row.now)) }
{
    match &row.statement {
        Statement::Word(numbers) => push_data_words(bytes, row.section, numbers.as_slice()),
        Statement::Byte(numbers) => push_bytes(bytes, numbers.as_slice()),
        Statement::Space(count) => push_zeros(bytes, count.bits),
        _ => Ok(()),
    }
}

/// The bytes of data.
fn data(alloc: Global, rows: &[Row<'_>]) -> Result<Vec<u8>, AllocError>
    requires { All IsSmallRow rows.now }
    ensures { IfOk result (λ bytes. bytes.items ≡ flat_map data_of (map placed rows.now)) }
{
    let mut bytes = Vec::new(alloc);
    'rows: for row in rows {
        push_data(&mut bytes, row)?;
    }
    Ok(bytes)
}

fn push_input(bytes: &mut Vec<u8>, row: &Row<'_>) -> Result<(), AllocError>
    ensures { OnOk result (bytes.new.items ≡ bytes.old.items ++ input_in row.now.statement) }
{
    match &row.statement {
        Statement::Input(more) => bytes.extend_from_slice(more.as_slice()),
        _ => Ok(()),
    }
}

/// The bytes of the input.
fn input(alloc: Global, rows: &[Row<'_>]) -> Result<Vec<u8>, AllocError>
    ensures { IfOk result (λ bytes. bytes.items ≡ flat_map input_in (statements_in rows.now)) }
{
    let mut bytes = Vec::new(alloc);
    'rows: for row in rows {
        push_input(&mut bytes, row)?;
    }
    Ok(bytes)
}

fn item(turn: Turn) -> Item
    requires { turn.hart.bits < 256 }
    ensures { result ≡ item_of turn }
{
    Item {
        hart: turn.hart.bits as u8,
        count: turn.count.bits,
    }
}

fn items(alloc: Global, turns: &[Turn]) -> Result<Vec<Item>, AllocError>
    requires { All (λ t. t.hart.bits < 256) turns.now }
    ensures { IfOk result (λ items. items.items ≡ map item_of turns.now) }
{
    let mut items = Vec::new(alloc);
    'turns: for turn in turns {
        items.push(item(*turn))?;
    }
    Ok(items)
}

fn schedule_in(alloc: Global, statement: &Statement) -> Result<Option<Schedule>, AllocError>
    requires { IsSmall statement.now }
    ensures value { IfOk result (λ found. found ≡ schedule_in statement.now) }
    ensures drawn { IfOk result (λ found. IfSome found IsDrawn) }
{
    match statement {
        Statement::Rr(quantum) => Ok(Some(Schedule::Rr { q: quantum.bits })),
        Statement::List(turns) => Ok(Some(Schedule::List {
            items: Items::from_vec(items(alloc, turns.as_slice())?),
        })),
        Statement::Seed(number, quantum) => {
            let n = number.bits;
            Ok(Some(Schedule::Seed { n, q: quantum.bits }))
        }
        _ => Ok(None),
    }
}

/// The first schedule.
fn schedule(alloc: Global, rows: &[Row<'_>]) -> Result<Option<Schedule>, AllocError>
    requires { All IsSmallRow rows.now }
    ensures value { IfOk result (λ found. found ≡ first_of schedule_in (statements_in rows.now)) }
    ensures drawn { IfOk result (λ found. IfSome found IsDrawn) }
{
    'rows: for row in rows {
        if let Some(schedule) = schedule_in(alloc, &row.statement)? {
            return Ok(Some(schedule));
        }
    }
    Ok(None)
}

fn steps_in(statement: &Statement) -> Option<u32>
    ensures { result ≡ steps_in statement.now }
{
    match statement {
        Statement::Steps(steps) => Some(steps.bits),
        _ => None,
    }
}

/// The first number of steps.
fn steps(rows: &[Row<'_>]) -> Option<u32>
    ensures { result ≡ first_of steps_in (statements_in rows.now) }
{
    'rows: for row in rows {
        if let Some(steps) = steps_in(&row.statement) {
            return Some(steps);
        }
    }
    None
}

fn enter(entries: &mut [u32; 8], statement: &Statement, to: u32)
    requires { IsSmall statement.now }
    ensures entries { entries.new ≡ entry_in to statement.now entries.old }
    ensures small { All (λ entry. entry < 2 ^ 32) entries.old → All (λ entry. entry < 2 ^ 32) entries.new }
{
    if let Statement::Entry(hart) = statement {
        entries[hart.bits as usize] = to;
    }
}

/// Where the harts begin.
fn entries(labels: &IndexMap<&[u8], u32>, rows: &[Row<'_>]) -> [u32; 8]
    requires { All IsSmallRow rows.now }
    ensures entries { result ≡ entries_of (defined labels.now) (map placed rows.now) }
    ensures small { All (λ entry. entry < 2 ^ 32) result }
{
    let mut entries = [TEXT_START; 8];
    'rows: for row in rows {
        let to = target(labels, row.named).unwrap_or(0);
        enter(&mut entries, &row.statement, to);
    }
    entries
}

/// The job of the statements.
pub fn build(alloc: Global, scan: &Scan<'_>) -> Result<Job, JobRefused>
    requires valid { All IsValidRow scan.now.rows.items }
    requires small { All IsSmallRow scan.now.rows.items }
    requires harts { harts_in (statements_in scan.now.rows.items) ≤ MAX_HARTS }
    requires schedule { IsSome (first_of schedule_in (statements_in scan.now.rows.items)) }
    requires steps { IsSome (first_of steps_in (statements_in scan.now.rows.items)) }
    ensures ok { IfOk result
        (IsJobOfRows (defined scan.now.labels) (map placed scan.now.rows.items) (statements_in scan.now.rows.items)) }
    ensures drawn { IfOk result (λ job. IsDrawn job.schedule) }
    ensures typed { IfOk result HasTypedNumbers }
    ensures fault { IfFault result
        (λ fault. second_pass (defined scan.now.labels) (map placed scan.now.rows.items) ≡ Err fault) }
{
    let rows = scan.rows.as_slice();
    let words = second_pass(alloc, &scan.labels, rows)?;
    let schedule = schedule(alloc, rows)?.unwrap();
    let data_bytes = data(alloc, rows)?;
    let input = input(alloc, rows)?;
    Ok(Job {
        harts: harts_in(rows) as u8,
        schedule,
        steps: steps(rows).unwrap(),
        words: Words::from_vec(words),
        data_bytes: Bytes::from_vec(data_bytes),
        input: Bytes::from_vec(input),
        entries: entries(&scan.labels, rows),
    })
}
