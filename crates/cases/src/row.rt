//! A row: a command with its input, and what it has to come to.

use crate::device::Device;
use crate::outcome::Outcome;
use crate::texts::{Texts, append, number};
use anyhow::{Context, Result, anyhow, bail};
use std::alloc::Global;

/// A line of a file of rows, with its number from 1.
#[derive(Clone, Copy)]
pub struct RowLine<'a> {
    pub number: u32,
    pub text: &'a str,
}

impl<'a> RowLine<'a> {
    ghost use Rattle.std.specs.Prelude.{◌≡◌, ◌++◌, IfOk};

    /// What comes after these letters, with which the line begins.
    pub fn after(&self, letters: &str) -> Result<&'a str>
        ensures { IfOk result (λ rest. self.now.text.now ≡ letters.now ++ rest.now) }
    {
        let rest = self.text.strip_prefix(letters);
        rest.ok_or_else(|| anyhow!("line {}: no `{letters}`", self.number))
    }
}

/// Whose words a row has.
#[derive(Clone, Copy)]
pub enum Program {
    Paralog,
    Whence,
}

/// The words of a command, its input and how it is given, how the output and the note are taken, and what it comes to.
#[derive(Drop)]
pub struct Row {
    pub name: String,
    pub program: Program,
    pub words: Vec<String>,
    pub input: Vec<u8>,
    pub source: Device,
    pub sink: Device,
    pub notes: Device,
    pub wanted: Outcome,
}

impl Row {
    /// Reads the row of these lines, where these texts have names.
    pub fn read(alloc: Global, lines: &[RowLine<'_>], texts: &Texts) -> Result<Row> {
        let [name, words, status, others @ ..] = lines else {
            bail!("a block of less than three lines");
        };
        let code = status.after("status ")?.parse::<u8>()?;
        let (program, words) = match words.text.strip_prefix("whence") {
            Some(words) => (Program::Whence, words),
            None => (Program::Paralog, words.after("words")?),
        };
        let mut row = Row::new(alloc, name.after("row ")?, program, code)?;
        for word in words.split(' ').skip(1) {
            row.words.push(String::from_str(alloc, word)?)?;
        }
        for line in others {
            row.take(alloc, line.text, texts)
                .context(format_args!("line {}", line.number))?;
        }
        Ok(row)
    }

    /// A row without words and input.
    fn new(alloc: Global, name: &str, program: Program, status: u8) -> Result<Row> {
        Ok(Row {
            name: String::from_str(alloc, name)?,
            program,
            words: Vec::new(alloc),
            input: Vec::new(alloc),
            source: Device::new(alloc),
            sink: Device::new(alloc),
            notes: Device::new(alloc),
            wanted: Outcome {
                status,
                output: Vec::new(alloc),
                note: Vec::new(alloc),
                left: 0,
            },
        })
    }

    /// Takes what a line says, where these texts have names.
    fn take(&mut self, alloc: Global, line: &str, texts: &Texts) -> Result<()> {
        if let Some(said) = line.strip_prefix('>') {
            return append(alloc, &mut self.input, said);
        }
        if let Some(said) = line.strip_prefix('<') {
            return append(alloc, &mut self.wanted.output, said);
        }
        if let Some(said) = line.strip_prefix('!') {
            return append(alloc, &mut self.wanted.note, said);
        }
        let (key, said) = line.split_once(' ').unwrap_or((line, ""));
        match key {
            "use" => self.input.extend_from_slice(texts.get(said)?)?,
            "left" => self.wanted.left = number(said)? as usize,
            "source" => self.source.set(said)?,
            "sink" => self.sink.set(said)?,
            "notes" => self.notes.set(said)?,
            _ => bail!("no line of a row begins with {key}"),
        }
        Ok(())
    }
}
