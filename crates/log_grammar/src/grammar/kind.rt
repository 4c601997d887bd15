//! The kind of an event, by its word.
ghost use Rattle.std.specs.Prelude.{◌∷◌, codes};
ghost use Rattle.log_grammar.specs.Form.{HasFormFields};
ghost use Rattle.log_grammar.specs.Spelling.{kind_words};
ghost use Rattle.log_grammar.specs.Reads.{Reads, IsKindOf, operands};

use super::field::{
    access, block, fault_cause, load_width, long_address, pages, register, store_width,
    three_registers, two_registers,
};
use pl_event::Kind;
use pl_text::first_byte;

/// The kind of an event, each field in its range.
#[inline(always)]
pub fn kind_at(text: &[u8]) -> Option<(Kind, &[u8])>
    ensures { Reads HasFormFields kind_words (32 ∷ text.now) result }
{
    let (first, rest) = first_byte(text)?;
    let (second, rest) = first_byte(rest)?;
    match (first, second) {
        (b'l', b'd') => load(rest),
        (b's', b't') => store(rest),
        (b'o', b'p') => computed(rest),
        (b'm', b'v') => copied(rest),
        (b'i', b'm') => constant(rest),
        (b'b', b'r') => branch(rest),
        (b'j', b'r') => jump(rest),
        (b'a', b'l') => block_taken(rest),
        (b'f', b'r') => block_given_back(rest),
        (b'b', b'f') => no_block(rest),
        (b'm', b'p') => pages_mapped(rest),
        (b'u', b'm') => pages_unmapped(rest),
        (b'r', b'd') => bytes_read(rest),
        (b'w', b'r') => bytes_written(rest),
        (b'e', b'x') => Some((Kind::Ex, rest)),
        (b'f', b't') => fault(rest),
        _ => None,
    }
}

#[inline(never)]
fn load(text: &[u8]) -> Option<(Kind, &[u8])>
    ensures { Reads (IsKindOf (codes "ld")) operands text.now result }
{
    let (width, rest) = load_width(text)?;
    let ((rd, rb, addr), rest) = access(rest)?;
    Some((
        Kind::Ld {
            width,
            rd,
            rb,
            addr,
        },
        rest,
    ))
}

#[inline(never)]
fn store(text: &[u8]) -> Option<(Kind, &[u8])>
    ensures { Reads (IsKindOf (codes "st")) operands text.now result }
{
    let (width, rest) = store_width(text)?;
    let ((rv, rb, addr), rest) = access(rest)?;
    Some((
        Kind::St {
            width,
            rv,
            rb,
            addr,
        },
        rest,
    ))
}

fn computed(text: &[u8]) -> Option<(Kind, &[u8])>
    ensures { Reads (IsKindOf (codes "op")) operands text.now result }
{
    let ((rd, r1, r2), rest) = three_registers(text)?;
    Some((Kind::Op { rd, r1, r2 }, rest))
}

fn copied(text: &[u8]) -> Option<(Kind, &[u8])>
    ensures { Reads (IsKindOf (codes "mv")) operands text.now result }
{
    let ((rd, rs), rest) = two_registers(text)?;
    Some((Kind::Mv { rd, rs }, rest))
}

fn constant(text: &[u8]) -> Option<(Kind, &[u8])>
    ensures { Reads (IsKindOf (codes "im")) operands text.now result }
{
    let (rd, rest) = register(text)?;
    Some((Kind::Im { rd }, rest))
}

fn branch(text: &[u8]) -> Option<(Kind, &[u8])>
    ensures { Reads (IsKindOf (codes "br")) operands text.now result }
{
    let ((r1, r2), rest) = two_registers(text)?;
    Some((Kind::Br { r1, r2 }, rest))
}

fn jump(text: &[u8]) -> Option<(Kind, &[u8])>
    ensures { Reads (IsKindOf (codes "jr")) operands text.now result }
{
    let ((rd, rs), rest) = two_registers(text)?;
    Some((Kind::Jr { rd, rs }, rest))
}

fn block_taken(text: &[u8]) -> Option<(Kind, &[u8])>
    ensures { Reads (IsKindOf (codes "al")) operands text.now result }
{
    let ((addr, len), rest) = block(text)?;
    Some((Kind::Al { addr, len }, rest))
}

fn block_given_back(text: &[u8]) -> Option<(Kind, &[u8])>
    ensures { Reads (IsKindOf (codes "fr")) operands text.now result }
{
    let ((addr, len), rest) = block(text)?;
    Some((Kind::Fr { addr, len }, rest))
}

fn no_block(text: &[u8]) -> Option<(Kind, &[u8])>
    ensures { Reads (IsKindOf (codes "bf")) operands text.now result }
{
    let (addr, rest) = long_address(text)?;
    Some((Kind::Bf { addr }, rest))
}

fn pages_mapped(text: &[u8]) -> Option<(Kind, &[u8])>
    ensures { Reads (IsKindOf (codes "mp")) operands text.now result }
{
    let ((page, count), rest) = pages(text)?;
    Some((Kind::Mp { page, count }, rest))
}

fn pages_unmapped(text: &[u8]) -> Option<(Kind, &[u8])>
    ensures { Reads (IsKindOf (codes "um")) operands text.now result }
{
    let ((page, count), rest) = pages(text)?;
    Some((Kind::Um { page, count }, rest))
}

fn bytes_read(text: &[u8]) -> Option<(Kind, &[u8])>
    ensures { Reads (IsKindOf (codes "rd")) operands text.now result }
{
    let ((addr, len), rest) = block(text)?;
    Some((Kind::Rd { addr, len }, rest))
}

fn bytes_written(text: &[u8]) -> Option<(Kind, &[u8])>
    ensures { Reads (IsKindOf (codes "wr")) operands text.now result }
{
    let ((addr, len), rest) = block(text)?;
    Some((Kind::Wr { addr, len }, rest))
}

fn fault(text: &[u8]) -> Option<(Kind, &[u8])>
    ensures { Reads (IsKindOf (codes "ft")) operands text.now result }
{
    let (cause, rest) = fault_cause(text)?;
    let (addr, rest) = long_address(rest)?;
    Some((Kind::Ft { cause, addr }, rest))
}
