//! Which statements may be where.
ghost use Rattle.std.specs.Prelude.{◌≡◌, ◌*◌, ◌<◌, ◌^◌, length, if◌then◌else◌};
ghost use Rattle.std.specs.List.{list_any};
ghost use Rattle.guest_asm.specs.Lines.{shown};
ghost use Rattle.guest_asm.specs.Rules.{statements_in, is_harts, is_good_harts, is_schedule, is_steps, is_entry_of, harts_in, breaks_harts, repeats, is_hart, is_quantum, is_turn, are_turns, are_bytes, is_out_of_range, is_misplaced, is_misaligned, code_words, words_of, bytes_of, overfills, on_statement, has_stray_label, broken_at, lacks};

use crate::cause::JobCause;
use crate::code::Code;
use crate::line::Line;
use crate::number::{Number, is_within};
use crate::scan::{Place, Row, Section};
use crate::statement::{Statement, Turn};
use pl_base::layout::{MAX_DATA_BYTES, MAX_HARTS, MAX_STEPS, MAX_TEXT_WORDS};

fn is_harts(statement: &Statement) -> bool
    ensures { result ≡ is_harts statement.now }
{
    match statement {
        Statement::Harts(_) => true,
        _ => false,
    }
}

fn is_good_harts(statement: &Statement) -> bool
    ensures { result ≡ is_good_harts statement.now }
{
    match statement {
        Statement::Harts(harts) => is_within(*harts, 1, u32::from(MAX_HARTS)),
        _ => false,
    }
}

fn is_schedule(statement: &Statement) -> bool
    ensures { result ≡ is_schedule statement.now }
{
    match statement {
        Statement::Rr(_) | Statement::List(_) | Statement::Seed(_, _) => true,
        _ => false,
    }
}

fn is_steps(statement: &Statement) -> bool
    ensures { result ≡ is_steps statement.now }
{
    match statement {
        Statement::Steps(_) => true,
        _ => false,
    }
}

fn is_entry_of(hart: Number, statement: &Statement) -> bool
    ensures { result ≡ is_entry_of hart statement.now }
{
    match statement {
        Statement::Entry(other) => *other == hart,
        _ => false,
    }
}

fn has_schedule(rows: &[Row<'_>]) -> bool
    ensures { result ≡ list_any is_schedule (statements_in rows.now) }
{
    'rows: for row in rows {
        if is_schedule(&row.statement) {
            return true;
        }
    }
    false
}

fn has_steps(rows: &[Row<'_>]) -> bool
    ensures { result ≡ list_any is_steps (statements_in rows.now) }
{
    'rows: for row in rows {
        if is_steps(&row.statement) {
            return true;
        }
    }
    false
}

fn has_entry_of(rows: &[Row<'_>], hart: Number) -> bool
    ensures { result ≡ list_any (is_entry_of hart) (statements_in rows.now) }
{
    'rows: for row in rows {
        if is_entry_of(hart, &row.statement) {
            return true;
        }
    }
    false
}

/// How many harts the first statement gives.
pub fn harts_in(rows: &[Row<'_>]) -> u32
    ensures { result ≡ harts_in (statements_in rows.now) }
{
    let [first, ..] = rows else {
        return 0;
    };
    match &first.statement {
        Statement::Harts(harts) => harts.bits,
        _ => 0,
    }
}

fn breaks_harts(rows: &[Row<'_>], statement: &Statement) -> bool
    ensures { result ≡ breaks_harts (statements_in rows.now) statement.now }
{
    if rows.is_empty() {
        !is_good_harts(statement)
    } else {
        is_harts(statement)
    }
}

fn repeats(rows: &[Row<'_>], statement: &Statement) -> bool
    ensures { result ≡ repeats (statements_in rows.now) statement.now }
{
    match statement {
        Statement::Rr(_) | Statement::List(_) | Statement::Seed(_, _) => has_schedule(rows),
        Statement::Steps(_) => has_steps(rows),
        Statement::Entry(hart) => has_entry_of(rows, *hart),
        _ => false,
    }
}

fn is_hart(harts: u32, number: Number) -> bool
    ensures { result ≡ is_hart harts number }
{
    !number.negative && number.bits < harts
}

fn is_quantum(number: Number) -> bool
    ensures { result ≡ is_quantum number }
{
    is_within(number, 1, 65_535)
}

fn is_turn(harts: u32, turn: Turn) -> bool
    ensures { result ≡ is_turn harts turn }
{
    is_hart(harts, turn.hart) && is_within(turn.count, 1, MAX_STEPS)
}

fn are_turns(harts: u32, turns: &[Turn]) -> bool
    ensures { result ≡ are_turns harts turns.now }
{
    turns.iter().all(|turn| is_turn(harts, *turn))
}

fn are_bytes(numbers: &[Number]) -> bool
    ensures { result ≡ are_bytes numbers.now }
{
    numbers.iter().all(|number| is_within(*number, 0, 255))
}

fn is_out_of_range(harts: u32, statement: &Statement) -> bool
    ensures { result ≡ is_out_of_range harts statement.now }
{
    match statement {
        Statement::Rr(quantum) => !is_quantum(*quantum),
        Statement::List(turns) => !are_turns(harts, turns.as_slice()),
        Statement::Seed(number, quantum) => number.negative || !is_quantum(*quantum),
        Statement::Steps(steps) => !is_within(*steps, 1, MAX_STEPS),
        Statement::Entry(hart) => !is_hart(harts, *hart),
        Statement::Byte(numbers) => !are_bytes(numbers.as_slice()),
        Statement::Space(count) => !is_within(*count, 0, MAX_DATA_BYTES),
        _ => false,
    }
}

fn is_misplaced(section: Option<Section>, statement: &Statement) -> bool
    ensures { result ≡ is_misplaced section statement.now }
{
    match statement {
        Statement::Code(_) => section != Some(Section::Text),
        Statement::Byte(_) | Statement::Space(_) => section != Some(Section::Data),
        Statement::Word(_) => section.is_none(),
        _ => false,
    }
}

fn is_misaligned(place: Place, statement: &Statement) -> bool
    ensures { result ≡ is_misaligned place statement.now }
{
    match statement {
        Statement::Word(_) => place.section == Some(Section::Data) && place.bytes % 4 != 0,
        _ => false,
    }
}

fn code_words(code: Code) -> u128
    ensures { result ≡ code_words code }
{
    match code {
        Code::One(_) | Code::Jump { .. } | Code::Branch { .. } => 1,
        Code::Two(_, _) | Code::Address { .. } => 2,
    }
}

fn count_if(counted: bool, count: u128) -> u128
    ensures { result ≡ (if counted then count else 0) }
{
    if counted { count } else { 0 }
}

/// How many words a statement puts into the text.
pub fn words_of(section: Option<Section>, statement: &Statement) -> u128
    ensures value { result ≡ words_of section statement.now }
    ensures small { result < 2 ^ 72 }
{
    match statement {
        Statement::Word(numbers) => count_if(
            section == Some(Section::Text),
            numbers.as_slice().len() as u128,
        ),
        Statement::Code(code) => code_words(*code),
        _ => 0,
    }
}

/// How many bytes a statement puts into data.
pub fn bytes_of(section: Option<Section>, statement: &Statement) -> u128
    ensures value { result ≡ bytes_of section statement.now }
    ensures small { result < 2 ^ 72 }
{
    match statement {
        Statement::Word(numbers) => count_if(
            section == Some(Section::Data),
            4 * numbers.as_slice().len() as u128,
        ),
        Statement::Byte(numbers) => numbers.as_slice().len() as u128,
        Statement::Space(count) => u128::from(count.bits),
        _ => 0,
    }
}

fn overfills(place: Place, statement: &Statement) -> bool
    ensures { result ≡ overfills place statement.now }
{
    let words = u128::from(place.words) + words_of(place.section, statement);
    let bytes = u128::from(place.bytes) + bytes_of(place.section, statement);
    words > u128::from(MAX_TEXT_WORDS) || bytes > u128::from(MAX_DATA_BYTES)
}

fn line_breaks_harts(rows: &[Row<'_>], line: &Line<'_>) -> bool
    ensures { result ≡ on_statement (breaks_harts (statements_in rows.now)) line.now.statement }
{
    match &line.statement {
        Some(statement) => breaks_harts(rows, statement),
        None => false,
    }
}

fn line_repeats(rows: &[Row<'_>], line: &Line<'_>) -> bool
    ensures { result ≡ on_statement (repeats (statements_in rows.now)) line.now.statement }
{
    match &line.statement {
        Some(statement) => repeats(rows, statement),
        None => false,
    }
}

fn line_is_out_of_range(harts: u32, line: &Line<'_>) -> bool
    ensures { result ≡ on_statement (is_out_of_range harts) line.now.statement }
{
    match &line.statement {
        Some(statement) => is_out_of_range(harts, statement),
        None => false,
    }
}

fn line_is_misplaced(place: Place, line: &Line<'_>) -> bool
    ensures { result ≡ on_statement (is_misplaced place.section) line.now.statement }
{
    match &line.statement {
        Some(statement) => is_misplaced(place.section, statement),
        None => false,
    }
}

fn line_is_misaligned(place: Place, line: &Line<'_>) -> bool
    ensures { result ≡ on_statement (is_misaligned place) line.now.statement }
{
    match &line.statement {
        Some(statement) => is_misaligned(place, statement),
        None => false,
    }
}

fn line_overfills(place: Place, line: &Line<'_>) -> bool
    ensures { result ≡ on_statement (overfills place) line.now.statement }
{
    match &line.statement {
        Some(statement) => overfills(place, statement),
        None => false,
    }
}

fn has_stray_label(place: Place, line: &Line<'_>) -> bool
    ensures { result ≡ has_stray_label place (shown line.now) }
{
    line.label.is_some() && place.section.is_none()
}

/// The first rule that a line breaks after these statements; `again` says that its label is defined already.
#[tactic(auto, unfolding(crate::specs::Rules::broken_at))]
pub fn broken_at(rows: &[Row<'_>], place: Place, again: bool, line: &Line<'_>) -> Option<JobCause>
    ensures { result ≡ broken_at (statements_in rows.now) place again (shown line.now) }
{
    if line_breaks_harts(rows, line) {
        return Some(JobCause::Harts);
    }
    if again || line_repeats(rows, line) {
        return Some(JobCause::Twice);
    }
    if line_is_out_of_range(harts_in(rows), line) {
        return Some(JobCause::Range);
    }
    if has_stray_label(place, line) || line_is_misplaced(place, line) {
        return Some(JobCause::Section);
    }
    if line_is_misaligned(place, line) {
        return Some(JobCause::Align);
    }
    if line_overfills(place, line) {
        return Some(JobCause::Full);
    }
    None
}

/// Whether a job lacks something after all of its lines.
pub fn is_incomplete(rows: &[Row<'_>], place: Place) -> bool
    ensures { result ≡ lacks (statements_in rows.now) place.words }
{
    rows.is_empty() || !has_schedule(rows) || !has_steps(rows) || place.words == 0
}
