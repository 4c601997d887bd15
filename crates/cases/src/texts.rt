//! Texts that are written in lines of rows, and those that have names.

ghost use Rattle.std.specs.Prelude.{◌≡◌, OnOk, take, vec_len};

use crate::row::RowLine;
use anyhow::{Context, Result, ensure};
use std::alloc::Global;
use std::collections::BTreeMap;

/// A decimal number.
pub fn number(text: &str) -> Result<u32> {
    text.parse::<u32>()
        .context(format_args!("no number: {text}"))
}

/// Appends bytes that are written as two hex digits each, with blanks between some.
fn append_hex(alloc: Global, into: &mut Vec<u8>, text: &str) -> Result<()>
    ensures { OnOk result (take (vec_len into.old) into.new.items ≡ into.old.items) }
{
    for digits in text.split(' ') {
        let bytes = hex::decode(alloc, digits).context(format_args!("no hex digits: {digits}"))?;
        into.extend_from_slice(&bytes)?;
    }
    Ok(())
}

/// Appends what a line says after its mark: how often, with a line feed or without, or as hex digits, and a text.
pub fn append(alloc: Global, into: &mut Vec<u8>, said: &str) -> Result<()>
    ensures { OnOk result (take (vec_len into.old) into.new.items ≡ into.old.items) }
{
    let (how, text) = said.split_once(' ').unwrap_or((said, ""));
    if how == "x" {
        return append_hex(alloc, into, text);
    }
    let (count, end) = match how.strip_suffix('-') {
        Some(count) => (count, ""),
        None => (how, "\n"),
    };
    let count = if count.is_empty() { 1 } else { number(count)? };
    let piece = format!(in alloc; "{text}{end}")?;
    into.extend_from_slice(piece.repeat(alloc, count as usize)?.as_bytes())?;
    Ok(())
}

/// The texts of a file of rows, by name.
#[derive(Drop)]
pub struct Texts {
    named: BTreeMap<String, Vec<u8>>,
}

impl Texts {
    pub fn new(alloc: Global) -> Texts {
        Texts {
            named: BTreeMap::new(alloc),
        }
    }

    /// Names the text of these lines.
    pub fn keep(&mut self, alloc: Global, name: &str, lines: &[RowLine<'_>]) -> Result<()> {
        let mut bytes = Vec::new(alloc);
        for line in lines {
            let said = line.after(">")?;
            append(alloc, &mut bytes, said).context(format_args!("line {}", line.number))?;
        }
        let before = self.named.insert(String::from_str(alloc, name)?, bytes)?;
        ensure!(before.is_none(), "a second text {name}");
        Ok(())
    }

    /// The text of this name.
    pub fn get(&self, name: &str) -> Result<&[u8]> {
        let found = self.named.get(name);
        let bytes = found.context(format_args!("no text {name}"))?;
        Ok(bytes.as_slice())
    }
}
