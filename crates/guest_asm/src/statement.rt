//! Statements.
use crate::code::Code;
use crate::number::Number;
use core_sim::Bytes;
use std::marker::Model;

/// A turn of a schedule by a list, as it was written.
#[derive(Clone, Copy)]
pub struct Turn {
    pub hart: Number,
    pub count: Number,
}

/// Turns, in order.
#[derive(Drop)]
pub struct Turns {
    items: Vec<Turn>,
}

impl Model for Turns {
    ghost use Rattle.std.specs.Prelude.{List};
    ghost use Rattle.guest_asm.specs.declared.statement.Turn.{Turn};

    ghost Value = { List Turn };

    ghost view = { λ turns. turns.items.items };
}

impl Turns {
    ghost use Rattle.std.specs.Prelude.{◌≡◌};

    pub fn from_vec(items: Vec<Turn>) -> Turns
        ensures { result ≡ items.items }
    {
        Turns { items }
    }

    pub fn as_slice(&self) -> &[Turn]
        ensures { result.now ≡ self.now }
    {
        self.items.as_slice()
    }
}

/// Numbers, in order.
#[derive(Drop)]
pub struct Numbers {
    items: Vec<Number>,
}

impl Model for Numbers {
    ghost use Rattle.std.specs.Prelude.{List};
    ghost use Rattle.guest_asm.specs.declared.number.Number.{Number};

    ghost Value = { List Number };

    ghost view = { λ numbers. numbers.items.items };
}

impl Numbers {
    ghost use Rattle.std.specs.Prelude.{◌≡◌};

    pub fn from_vec(items: Vec<Number>) -> Numbers
        ensures { result ≡ items.items }
    {
        Numbers { items }
    }

    pub fn as_slice(&self) -> &[Number]
        ensures { result.now ≡ self.now }
    {
        self.items.as_slice()
    }
}

/// What a line says, but for the label that it names.
#[derive(Drop)]
pub enum Statement {
    Harts(Number),
    Rr(Number),
    List(Turns),
    Seed(Number, Number),
    Steps(Number),
    Input(Bytes),
    /// This hart begins at the label.
    Entry(Number),
    Text,
    Data,
    Word(Numbers),
    Byte(Numbers),
    Space(Number),
    Code(Code),
}
