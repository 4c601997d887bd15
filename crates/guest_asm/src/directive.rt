//! Directives of a text.
ghost use Rattle.std.specs.Prelude.{◌≡◌, ◌∷◌, map, IfOk, IfSome};
ghost use Rattle.std.specs.Option.{option_map, option_copied};
ghost use Rattle.guest_asm.specs.Codes.{texts, code_of};
ghost use Rattle.guest_asm.specs.Numbers.{number_in};
ghost use Rattle.guest_asm.specs.Statements.{all_some, numbers_in, turn_of, turn_in, round_robin, seed, list_schedule, schedule_of, pair_at, hex_pairs, one_word, input_of, entry_of, number_of_one, bare, named, plain_statement, statement_of, seen, IsValidStatement};

use crate::bytes::{cut_at, cut_at_blank, is_word, skip_blanks, word_in};
use crate::code::code_of;
use crate::number::{Number, digits_of, number_in, number_of};
use crate::operand::label_in;
use crate::statement::{Numbers, Statement, Turn, Turns};
use core_sim::Bytes;
use std::alloc::{AllocError, Global};

/// A statement with the label that it names.
pub type Said<'a> = (Statement, Option<&'a [u8]>);

fn all_numbers(alloc: Global, parts: &[&[u8]]) -> Result<Option<Vec<Number>>, AllocError>
    ensures { IfOk result (λ found. option_map (λ v. v.items) found ≡ all_some (map number_in (texts parts.now))) }
{
    let mut numbers = Vec::new(alloc);
    'parts: for part in parts {
        let Some(number) = number_in(part) else {
            return Ok(None);
        };
        numbers.push(number)?;
    }
    Ok(Some(numbers))
}

/// The numbers of the parts, where each holds one and there is at least one part.
#[tactic(auto, unfolding(crate::specs::Statements::numbers_in))]
fn numbers_in(alloc: Global, parts: &[&[u8]]) -> Result<Option<Numbers>, AllocError>
    ensures { IfOk result (λ found. found ≡ numbers_in (texts parts.now)) }
{
    if parts.is_empty() {
        return Ok(None);
    }
    match all_numbers(alloc, parts)? {
        Some(numbers) => Ok(Some(Numbers::from_vec(numbers))),
        None => Ok(None),
    }
}

/// A turn: a hart, `*` and a count.
#[tactic(auto, unfolding(crate::specs::Statements::turn_of))]
fn turn_of(word: &[u8]) -> Option<Turn>
    ensures { result ≡ turn_of word.now }
{
    let (hart, count) = cut_at(word, b'*');
    let hart = number_of(hart)?;
    let count = number_of(count)?;
    Some(Turn { hart, count })
}

#[tactic(auto, unfolding(crate::specs::Statements::turn_in))]
fn turn_in(part: &[u8]) -> Option<Turn>
    ensures { result ≡ turn_in part.now }
{
    turn_of(word_in(part)?)
}

/// The turns of the first part and of the others.
fn all_turns(alloc: Global, first: &[u8], others: &[&[u8]]) -> Result<Option<Vec<Turn>>, AllocError>
    ensures { IfOk result
        (λ found. option_map (λ v. v.items) found ≡ all_some (map turn_in (first.now ∷ texts others.now))) }
{
    let mut turns = Vec::new(alloc);
    let Some(turn) = turn_in(first) else {
        return Ok(None);
    };
    turns.push(turn)?;
    'parts: for part in others {
        let Some(turn) = turn_in(part) else {
            return Ok(None);
        };
        turns.push(turn)?;
    }
    Ok(Some(turns))
}

#[tactic(auto, unfolding(crate::specs::Statements::list_schedule))]
fn list(alloc: Global, first: &[u8], others: &[&[u8]]) -> Result<Option<Statement>, AllocError>
    ensures value { IfOk result (λ found. found ≡ list_schedule (first.now ∷ texts others.now)) }
    ensures valid { IfOk result (λ found. IfSome found IsValidStatement) }
{
    match all_turns(alloc, first, others)? {
        Some(turns) => Ok(Some(Statement::List(Turns::from_vec(turns)))),
        None => Ok(None),
    }
}

#[tactic(auto, unfolding(crate::specs::Statements::round_robin))]
fn round_robin(text: &[u8]) -> Option<Statement>
    ensures value { result ≡ round_robin text.now }
    ensures valid { IfSome result IsValidStatement }
{
    let quantum = number_in(text)?;
    Some(Statement::Rr(quantum))
}

#[tactic(auto, unfolding(crate::specs::Statements::seed))]
fn seed(text: &[u8]) -> Option<Statement>
    ensures value { result ≡ seed text.now }
    ensures valid { IfSome result IsValidStatement }
{
    let (number, quantum) = cut_at_blank(skip_blanks(text));
    let number = number_of(number)?;
    let quantum = number_in(quantum)?;
    Some(Statement::Seed(number, quantum))
}

/// A schedule: the first word of the first part says which.
#[tactic(auto, unfolding(crate::specs::Statements::schedule_of))]
fn schedule_of(alloc: Global, parts: &[&[u8]]) -> Result<Option<Statement>, AllocError>
    ensures value { IfOk result (λ found. found ≡ schedule_of (texts parts.now)) }
    ensures valid { IfOk result (λ found. IfSome found IsValidStatement) }
{
    let [first, others @ ..] = parts else {
        return Ok(None);
    };
    let (kind, rest) = cut_at_blank(skip_blanks(first));
    if is_word(kind, "list") {
        return Ok(list(alloc, rest, others)?);
    }
    if !others.is_empty() {
        return Ok(None);
    }
    if is_word(kind, "rr") {
        return Ok(round_robin(rest));
    }
    if is_word(kind, "seed") {
        return Ok(seed(rest));
    }
    Ok(None)
}

/// The byte of the two hex digits at the beginning, and what follows them.
#[tactic(auto, unfolding(crate::specs::Statements::pair_at))]
fn pair_at(text: &[u8]) -> Option<(u8, &[u8])>
    ensures { option_map (λ r. (r.0, r.1.now)) result ≡ pair_at text.now }
{
    let [high, behind @ ..] = text else {
        return None;
    };
    let [low, behind @ ..] = behind else {
        return None;
    };
    let byte = digits_of(&[*high, *low], 16)?;
    Some((byte as u8, behind))
}

/// The bytes of pairs of hex digits.
fn hex_pairs(alloc: Global, text: &[u8]) -> Result<Option<Vec<u8>>, AllocError>
    ensures { IfOk result (λ found. option_map (λ v. v.items) found ≡ hex_pairs text.now) }
{
    let mut bytes = Vec::new(alloc);
    let mut rest = text;
    'pairs: while !rest.is_empty() {
        let Some((byte, behind)) = pair_at(rest) else {
            return Ok(None);
        };
        bytes.push(byte)?;
        rest = behind;
    }
    Ok(Some(bytes))
}

/// The word of a single part.
#[tactic(auto, unfolding(crate::specs::Statements::one_word))]
fn one_word<'a>(parts: &[&'a [u8]]) -> Option<&'a [u8]>
    ensures { option_copied result ≡ one_word (texts parts.now) }
{
    let [part] = parts else {
        return None;
    };
    word_in(part)
}

#[tactic(auto, unfolding(crate::specs::Statements::input_of))]
fn input_of(alloc: Global, parts: &[&[u8]]) -> Result<Option<Statement>, AllocError>
    ensures value { IfOk result (λ found. found ≡ input_of (texts parts.now)) }
    ensures valid { IfOk result (λ found. IfSome found IsValidStatement) }
{
    let Some(word) = one_word(parts) else {
        return Ok(None);
    };
    if word.is_empty() {
        return Ok(None);
    }
    match hex_pairs(alloc, word)? {
        Some(bytes) => Ok(Some(Statement::Input(Bytes::from_vec(bytes)))),
        None => Ok(None),
    }
}

#[tactic(auto, unfolding(crate::specs::Statements::number_of_one))]
fn number_of_one(parts: &[&[u8]]) -> Option<Number>
    ensures { result ≡ number_of_one (texts parts.now) }
{
    let [part] = parts else {
        return None;
    };
    number_in(part)
}

#[tactic(auto, unfolding(crate::specs::Statements::entry_of))]
fn entry_of<'a>(parts: &[&'a [u8]]) -> Option<Said<'a>>
    ensures value { option_map seen result ≡ entry_of (texts parts.now) }
    ensures valid { IfSome result (λ r. IsValidStatement r.0) }
{
    let [first, second] = parts else {
        return None;
    };
    let hart = number_in(first)?;
    let label = label_in(second)?;
    Some((Statement::Entry(hart), Some(label)))
}

/// A statement without operands.
#[tactic(auto, unfolding(crate::specs::Statements::bare))]
fn bare(statement: Statement, parts: &[&[u8]]) -> Option<Statement>
    requires { IsValidStatement statement }
    ensures value { result ≡ bare statement (texts parts.now) }
    ensures valid { IfSome result IsValidStatement }
{
    if parts.is_empty() {
        Some(statement)
    } else {
        None
    }
}

fn named<'a>(statement: Option<Statement>) -> Option<Said<'a>>
    requires { IfSome statement IsValidStatement }
    ensures value { option_map seen result ≡ named statement }
    ensures valid { IfSome result (λ r. IsValidStatement r.0) }
{
    let statement = statement?;
    Some((statement, None))
}

fn instruction<'a>(name: &[u8], parts: &[&'a [u8]]) -> Option<Said<'a>>
    ensures value { option_map seen result ≡
        option_map (λ r. (Statement.Code r.0, r.1)) (code_of name.now (texts parts.now)) }
    ensures valid { IfSome result (λ r. IsValidStatement r.0) }
{
    let (code, label) = code_of(name, parts)?;
    Some((Statement::Code(code), label))
}

#[tactic(auto, unfolding(crate::specs::Statements::plain_statement))]
fn plain_statement<'a>(name: &[u8], parts: &[&'a [u8]]) -> Option<Said<'a>>
    ensures value { option_map seen result ≡ plain_statement name.now (texts parts.now) }
    ensures valid { IfSome result (λ r. IsValidStatement r.0) }
{
    if is_word(name, ".harts") {
        return named(harts(number_of_one(parts)));
    }
    if is_word(name, ".steps") {
        return named(steps(number_of_one(parts)));
    }
    if is_word(name, ".entry") {
        return entry_of(parts);
    }
    if is_word(name, ".text") {
        return named(bare(Statement::Text, parts));
    }
    if is_word(name, ".data") {
        return named(bare(Statement::Data, parts));
    }
    if is_word(name, ".space") {
        return named(space(number_of_one(parts)));
    }
    instruction(name, parts)
}

fn harts(number: Option<Number>) -> Option<Statement>
    ensures value { result ≡ option_map Statement.Harts number }
    ensures valid { IfSome result IsValidStatement }
{
    let number = number?;
    Some(Statement::Harts(number))
}

fn steps(number: Option<Number>) -> Option<Statement>
    ensures value { result ≡ option_map Statement.Steps number }
    ensures valid { IfSome result IsValidStatement }
{
    let number = number?;
    Some(Statement::Steps(number))
}

fn space(number: Option<Number>) -> Option<Statement>
    ensures value { result ≡ option_map Statement.Space number }
    ensures valid { IfSome result IsValidStatement }
{
    let number = number?;
    Some(Statement::Space(number))
}

fn words(numbers: Option<Numbers>) -> Option<Statement>
    ensures value { result ≡ option_map Statement.Word numbers }
    ensures valid { IfSome result IsValidStatement }
{
    let numbers = numbers?;
    Some(Statement::Word(numbers))
}

fn bytes(numbers: Option<Numbers>) -> Option<Statement>
    ensures value { result ≡ option_map Statement.Byte numbers }
    ensures valid { IfSome result IsValidStatement }
{
    let numbers = numbers?;
    Some(Statement::Byte(numbers))
}

/// The statement of a name with its operands.
#[tactic(auto, unfolding(crate::specs::Statements::statement_of))]
pub fn statement_of<'a>(
    alloc: Global,
    name: &[u8],
    parts: &[&'a [u8]],
) -> Result<Option<Said<'a>>, AllocError>
    ensures value { IfOk result (λ found. option_map seen found ≡ statement_of name.now (texts parts.now)) }
    ensures valid { IfOk result (λ found. IfSome found (λ r. IsValidStatement r.0)) }
{
    if is_word(name, ".schedule") {
        return Ok(named(schedule_of(alloc, parts)?));
    }
    if is_word(name, ".input") {
        return Ok(named(input_of(alloc, parts)?));
    }
    if is_word(name, ".word") {
        return Ok(named(words(numbers_in(alloc, parts)?)));
    }
    if is_word(name, ".byte") {
        return Ok(named(bytes(numbers_in(alloc, parts)?)));
    }
    Ok(plain_statement(name, parts))
}
