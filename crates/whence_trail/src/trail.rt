//! What is kept of a run while its events go by.
ghost use Rattle.std.specs.Prelude.{◌≡◌, ◌<◌, ◌+◌, ◌^◌, ℕ, List, [], ◌∷◌, length, map, slice_index, slice_set, IfOk, OnOk};
ghost use Rattle.whence_trail.specs.Answers.{Keeps, answer_after, no_answer};
ghost use Rattle.whence_trail.specs.Happenings.{next_happening};
ghost use Rattle.whence_trail.specs.Blocks.{blocks_after, latest_in};
ghost use Rattle.whence_trail.specs.Nearness.{found_by};
ghost use Rattle.whence_trail.specs.declared.happening.Happening.{Happening};

use crate::block::{Block, add, free};
use crate::happening::{Happening, Origin, address_of};
use crate::near::{Near, near_of};
use pl_base::NoMemory;
use pl_event::{Event, Kind};
use std::alloc::Global;

/// An event that is asked for: a hart, and the number of the event in it, from 1.
#[derive(Clone, Copy, Debug, PartialEq, Eq)]
pub struct Pair {
    pub hart: u8,
    pub number: u32,
}

/// An event that the run has, and how its address lies to the blocks before it.
#[derive(Clone, Copy, Debug, PartialEq, Eq)]
pub struct Found {
    pub origin: Origin,
    pub near: Option<Near>,
}

/// The answer to a pair; nothing is found where the run has no such event.
#[derive(Clone, Copy, Debug, PartialEq, Eq)]
pub struct Answer {
    pub pair: Pair,
    pub found: Option<Found>,
}

/// What is kept of the events so far.
#[derive(Drop)]
pub struct Trail {
    counts: [u32; 8],
    blocks: Vec<Block>,
    answers: Vec<Answer>,
}

/// The answers before the first event.
fn no_answers(alloc: Global, pairs: &[Pair]) -> Result<Vec<Answer>, NoMemory>
    ensures { IfOk result (λ answers. answers.items ≡ map no_answer pairs.now) }
{
    let mut answers = Vec::new(alloc);
    'pairs: for pair in pairs {
        answers.push(Answer {
            pair: *pair,
            found: None,
        })?;
    }
    Ok(answers)
}

/// What is found at an event after these blocks.
fn found_at(blocks: &[Block], happening: &Happening) -> Found
    ensures { result ≡ found_by (latest_in blocks.now) happening.now }
{
    Found {
        origin: happening.origin,
        near: near_of(blocks, address_of(happening.kind)),
    }
}

/// The answer after an event of these blocks.
fn answer_after(answer: Answer, blocks: &[Block], happening: &Happening) -> Answer
    ensures { result ≡ answer_after (latest_in blocks.now) happening.now answer }
{
    let origin = happening.origin;
    if origin.hart == answer.pair.hart && origin.number == answer.pair.number {
        Answer {
            pair: answer.pair,
            found: Some(found_at(blocks, happening)),
        }
    } else {
        answer
    }
}

/// Answers the pairs that the event is asked for by.
fn answer_pairs(answers: &mut Vec<Answer>, blocks: &[Block], happening: &Happening)
    ensures { answers.new.items ≡ map (answer_after (latest_in blocks.now) happening.now) answers.old.items }
{
    let count = answers.len();
    'answers: for place in 0..count {
        answers[place] = answer_after(answers[place], blocks, happening);
    }
}

/// The blocks after an event.
fn follow(blocks: &mut Vec<Block>, happening: &Happening) -> Result<(), NoMemory>
    ensures { OnOk result (blocks.new.items ≡ blocks_after blocks.old.items happening.now) }
{
    let origin = happening.origin;
    match happening.kind {
        Kind::Al { addr, len } => add(
            blocks,
            Block {
                addr,
                len,
                allocated: origin,
                freed: None,
            },
        ),
        Kind::Fr { addr, .. } => {
            free(blocks, addr, origin);
            Ok(())
        }
        _ => Ok(()),
    }
}

impl Trail {
    /// Before the first event.
    pub fn new(alloc: Global, pairs: &[Pair]) -> Result<Trail, NoMemory>
        ensures { IfOk result (Keeps pairs.now []) }
    {
        Ok(Trail {
            counts: [0; 8],
            blocks: Vec::new(alloc),
            answers: no_answers(alloc, pairs)?,
        })
    }

    /// Takes the next event of the run, which the instruction at `pc` gave. A trail that ran out of memory is of no
    /// further use.
    pub fn take(&mut self, event: &Event, pc: u32) -> Result<(), NoMemory>
        requires { event.now.hart < 8 }
        ensures { OnOk result ((pairs : List Pair) (before : List Happening) → length before + 1 < 2 ^ 32
            → Keeps pairs before self.old → Keeps pairs (next_happening before event.now pc ∷ before) self.new) }
    {
        let hart = usize::from(event.hart);
        let number = self.counts[hart].saturating_add(1);
        let happening = Happening {
            origin: Origin {
                hart: event.hart,
                number,
                pc,
            },
            kind: event.kind,
        };
        self.counts[hart] = number;
        answer_pairs(&mut self.answers, &self.blocks, &happening);
        follow(&mut self.blocks, &happening)
    }

    /// The answers to the pairs, in their order.
    pub fn answers(&self) -> &[Answer]
        ensures { result.now ≡ self.now.answers.items }
    {
        self.answers.as_slice()
    }
}
