//! What the order check asks of each line that was taken, in four bytes a line.
ghost use Rattle.std.specs.Prelude.{◌≡◌, ◌≢◌, ◌↔◌, ℕ, ◌+◌, ◌^◌, ◌<◌, List, length, slice_index, IsTrue};
ghost use Rattle.std.specs.Int.{bit_at};
ghost use Rattle.pl_event.specs.declared.log.Line.{Line};
ghost use Rattle.pl_event.specs.Conflicts.{HasNotice};
ghost use Rattle.pl_event.specs.Edges.{IsFlow};
ghost use Rattle.pl_event.specs.Heads.{Tells, IsNext};
ghost use Rattle.pl_event.specs.Numbers.{hart_of};
ghost use Rattle.pl_event.specs.Records.{records_before};
ghost use Rattle.pl_event.specs.Runs.{IsSoundLine};
ghost use Rattle.pl_event.specs.Valid.{IsValidEvent};
ghost use Rattle.log_check.specs.inner.Traced.{IsPart, IsOutline};
ghost use Rattle.log_check.specs.inner.Traces.{word_of, outline_in, part_in, IsNarrow, IsNarrowPart};

use pl_base::NoMemory;
use pl_event::{Event, Heads, Kind, Line, Record, is_alert};
use std::alloc::Global;
use std::marker::Model;

/// What an event can conflict by.
#[derive(Clone, Copy)]
pub(crate) enum Part {
    /// Neither an access nor an alert event, or no event.
    Other,
    /// A load from an address.
    Load(u32),
    /// A store to an address.
    Store(u32),
    /// An alert event: bit u is set where hart u has the notice of it.
    Alert(u8),
}

/// The hart of a line, and what its event can conflict by.
#[derive(Clone, Copy)]
pub(crate) struct Outline {
    pub(crate) hart: u8,
    pub(crate) part: Part,
}

// The word of an outline.
#[inline(always)]
fn pack(outline: Outline) -> u32
    requires { IsNarrow outline }
    ensures { result ≡ word_of outline }
{
    let code = match outline.part {
        Part::Other => 0,
        Part::Load(addr) => 1 + 4 * addr,
        Part::Store(addr) => 2 + 4 * addr,
        Part::Alert(harts) => 3 + 4 * u32::from(harts),
    };
    u32::from(outline.hart) + 8 * code
}

// The part of a word that has the hart in its lowest three bits.
fn part_in(code: u32) -> Part
    ensures { result ≡ part_in code }
{
    let rest = code / 4;
    match code % 4 {
        0 => Part::Other,
        1 => Part::Load(rest),
        2 => Part::Store(rest),
        _ => Part::Alert((rest % 256) as u8),
    }
}

// The outline of a word.
fn unpack(word: u32) -> Outline
    ensures { result ≡ outline_in word }
{
    Outline {
        hart: (word % 8) as u8,
        part: part_in(word / 8),
    }
}

/// The outlines of lines, in order.
#[derive(Drop)]
pub(crate) struct Trace {
    words: Vec<u32>,
}

impl Model for Trace {
    ghost use Rattle.std.specs.Prelude.{List, map};
    ghost use Rattle.log_check.specs.declared.trace.Outline.{Outline};
    ghost use Rattle.log_check.specs.inner.Traces.{outline_in};

    ghost Value = { List Outline };

    ghost view = { λ trace. map outline_in trace.words.items };
}

impl Trace {
    ghost use Rattle.std.specs.Prelude.{[], ◌∷◌, ◌++◌, OnOk, OnErr, Some, slice_get};

    /// No line. No memory is taken.
    pub(crate) fn new(alloc: Global) -> Trace
        ensures { result ≡ [] }
    {
        Trace {
            words: Vec::new(alloc),
        }
    }

    /// How many there are.
    #[inline]
    pub(crate) fn len(&self) -> usize
        ensures { result ≡ length self.now }
    {
        self.words.len()
    }

    /// The outline of line `at`, counted from 0.
    #[inline]
    pub(crate) fn get(&self, at: usize) -> Outline
        requires { at < length self.now }
        ensures outline { slice_get self.now at ≡ Some result }
        ensures hart { result.hart < 8 }
    {
        unpack(self.words[at])
    }

    /// One more outline at the end. Without memory the trace stays.
    #[inline(always)]
    pub(crate) fn push(&mut self, outline: Outline) -> Result<(), NoMemory>
        requires { IsNarrow outline }
        ensures ok { OnOk result (self.new ≡ self.old ++ outline ∷ []) }
        ensures err { OnErr result (self.new ≡ self.old) }
    {
        self.words.push(pack(outline))?;
        Ok(())
    }
}

// The set with hart u.
fn with(set: u8, u: u8) -> u8
    requires { u < 8 }
    ensures here { bit_at result u ≡ 1 }
    ensures others { (i : ℕ) → i ≢ u → bit_at result i ≡ bit_at set i }
{
    set | (1 << u)
}

/// Whether hart u is in the set.
pub(crate) fn has(set: u8, u: u8) -> bool
    requires { u < 8 }
    ensures { IsTrue result ↔ (bit_at set u ≡ 1) }
{
    (set >> u) & 1 == 1
}

// The harts that have a notice of the next record of this hart.
#[inline(never)]
fn noticed_by(heads: &Heads, hart: u8) -> u8
    requires hart { hart < 8 }
    requires few { slice_index heads.now.records hart + 1 < 2 ^ 32 }
    ensures { (harts : ℕ) (lines : List Line) (i : ℕ) (line : Line) →
        IsFlow harts lines → Tells heads.now lines i → IsNext lines i hart line →
        (u : ℕ) → u < 8 → (bit_at result u ≡ 1) ↔ HasNotice lines u hart (records_before hart lines i + 1) }
{
    let mut set = 0u8;
    for u in 0..8u8 {
        if heads.has_notice(hart, u) {
            set = with(set, u);
        }
    }
    set
}

// What an event of the next line can conflict by.
#[inline(always)]
fn part_of(heads: &Heads, event: &Event) -> Part
    requires valid { IsValidEvent event.now 8 }
    requires few { slice_index heads.now.records event.now.hart + 1 < 2 ^ 32 }
    ensures part { (harts : ℕ) (lines : List Line) (i : ℕ) (line : Line) →
        IsFlow harts lines → Tells heads.now lines i → IsNext lines i event.now.hart line →
        IsPart lines event.now (records_before event.now.hart lines i + 1) result }
    ensures narrow { IsNarrowPart result }
{
    match event.kind {
        Kind::Ld {
            width: _,
            rd: _,
            rb: _,
            addr,
        } => Part::Load(addr),
        Kind::St {
            width: _,
            rv: _,
            rb: _,
            addr,
        } => Part::Store(addr),
        _ => {
            if is_alert(&event.kind) {
                Part::Alert(noticed_by(heads, event.hart))
            } else {
                Part::Other
            }
        }
    }
}

/// The outline of the next line.
#[inline(always)]
pub(crate) fn outline_of(heads: &Heads, line: &Line) -> Outline
    requires sound { IsSoundLine 8 line.now }
    requires hart { hart_of line.now.what < 8 }
    requires few { slice_index heads.now.records (hart_of line.now.what) + 1 < 2 ^ 32 }
    ensures outline { (harts : ℕ) (lines : List Line) (i : ℕ) →
        IsFlow harts lines → Tells heads.now lines i → IsNext lines i (hart_of line.now.what) line.now →
        IsOutline lines (records_before (hart_of line.now.what) lines i + 1) line.now.what result }
    ensures narrow { IsNarrow result }
{
    match line.what {
        Record::Event(event) => Outline {
            hart: event.hart,
            part: part_of(heads, &event),
        },
        Record::Notice { hart, of: _ } => Outline {
            hart,
            part: Part::Other,
        },
    }
}
