//! What a line of a text means.
ghost use Rattle.std.specs.Prelude.{◌≡◌, IfOk, IfSome};
ghost use Rattle.std.specs.Option.{option_map};
ghost use Rattle.guest_asm.specs.Lines.{unlabelled, labelled, line_of, shown, IsValidLine};

use crate::bytes::{are_legal, cut_at, cut_at_blank, parts_of, skip_blanks};
use crate::directive::statement_of;
use crate::operand::label_of;
use crate::statement::Statement;
use std::alloc::{AllocError, Global};

/// What a line means: the label that it defines, its statement, and the label that the statement names.
#[derive(Drop)]
pub struct Line<'a> {
    pub label: Option<&'a [u8]>,
    pub statement: Option<Statement>,
    pub named: Option<&'a [u8]>,
}

/// The meaning of a text without a label.
#[tactic(auto, unfolding(crate::specs::Lines::unlabelled))]
fn unlabelled<'a>(alloc: Global, code: &'a [u8]) -> Result<Option<Line<'a>>, AllocError>
    ensures value { IfOk result (λ found. option_map shown found ≡ unlabelled code.now) }
    ensures valid { IfOk result (λ found. IfSome found IsValidLine) }
{
    let code = skip_blanks(code);
    if code.is_empty() {
        return Ok(Some(Line {
            label: None,
            statement: None,
            named: None,
        }));
    }
    let (name, operands) = cut_at_blank(code);
    let parts = parts_of(alloc, operands)?;
    match statement_of(alloc, name, parts.as_slice())? {
        Some((statement, named)) => Ok(Some(Line {
            label: None,
            statement: Some(statement),
            named,
        })),
        None => Ok(None),
    }
}

/// The meaning of a text with a label.
#[tactic(auto, unfolding(crate::specs::Lines::labelled))]
fn labelled<'a>(alloc: Global, code: &'a [u8]) -> Result<Option<Line<'a>>, AllocError>
    ensures value { IfOk result (λ found. option_map shown found ≡ labelled code.now) }
    ensures valid { IfOk result (λ found. IfSome found IsValidLine) }
{
    let (word, behind) = cut_at(code, b':');
    let Some(label) = label_of(word) else {
        return Ok(None);
    };
    match unlabelled(alloc, behind)? {
        Some(
            Line {
                label: _,
                statement,
                named,
            },
        ) => Ok(Some(Line {
            label: Some(label),
            statement,
            named,
        })),
        None => Ok(None),
    }
}

/// What a line means, where it is in the grammar.
#[tactic(auto, unfolding(crate::specs::Lines::line_of))]
pub fn line_of<'a>(alloc: Global, text: &'a [u8]) -> Result<Option<Line<'a>>, AllocError>
    ensures value { IfOk result (λ found. option_map shown found ≡ line_of text.now) }
    ensures valid { IfOk result (λ found. IfSome found IsValidLine) }
{
    if !are_legal(text) {
        return Ok(None);
    }
    let (code, _) = cut_at(text, b'#');
    let code = skip_blanks(code);
    if code.contains(&b':') {
        labelled(alloc, code)
    } else {
        unlabelled(alloc, code)
    }
}
