//! Logs: lines with their records and arcs, the pages at the start, harts and the size of blocks.
ghost use Rattle.std.specs.Prelude.{◌≡◌, ◌<◌, Some, None, replicate, slice_get};
ghost use Rattle.pl_event.specs.Edges.{some_number};

use crate::event::Event;
use crate::lines::Lines;
use std::alloc::{AllocError, Global};
use std::marker::Model;

/// A record of a run: record `number` of a hart, counted from 1, notices included.
#[derive(Clone, Copy, Debug, PartialEq, Eq)]
pub struct Point {
    pub hart: u8,
    pub number: u32,
}

/// One entry of a hart's stream.
#[derive(Clone, Copy, Debug, PartialEq, Eq)]
pub enum Record {
    Event(Event),
    /// Hart `hart` is told of the alert event `of` of another hart, which is still to come.
    Notice { hart: u8, of: Point },
}

/// For each of eight harts the number of a record of it that came before, or nothing.
#[derive(Clone, Copy, Debug, PartialEq, Eq)]
pub struct Arcs {
    numbers: [Option<u32>; 8],
}

impl Model for Arcs {
    ghost use Rattle.std.specs.Prelude.{List, ℕ};
    ghost use Rattle.std.specs.declared.option.Option.{Option};

    ghost Value = { List (Option ℕ) };

    ghost view = { λ a. a.numbers };

    ghost inverse = { λ numbers. record { numbers = numbers } };
}

impl Arcs {
    ghost use Rattle.std.specs.Prelude.{slice_set, slice_index_or, length};

    /// No hart has a number.
    #[inline(always)]
    pub fn none() -> Arcs
        ensures { result ≡ replicate 8 None }
    {
        Arcs { numbers: [None; 8] }
    }

    /// The same arcs, one from each of eight harts.
    #[inline(always)]
    pub fn eight(self) -> Arcs
        ensures same { result ≡ self }
        ensures long { length result ≡ 8 }
    {
        self
    }

    /// The number of a hart below 8.
    #[inline(always)]
    pub fn get(&self, hart: u8) -> Option<u32>
        requires { hart < 8 }
        ensures { result ≡ slice_index_or self.now hart None }
    {
        self.numbers[hart as usize]
    }

    /// Changes the number of a hart below 8.
    #[inline(always)]
    pub fn set(&mut self, hart: u8, n: Option<u32>)
        requires { hart < 8 }
        ensures { self.new ≡ slice_set self.old hart n }
    {
        self.numbers[hart as usize] = n;
    }
}

/// The number of a record, where 0 stands for none.
#[inline(always)]
pub fn some_number(number: u32) -> Option<u32>
    ensures { result ≡ some_number number }
{
    if number == 0 { None } else { Some(number) }
}

/// A record with its arcs.
#[derive(Clone, Copy, Debug, PartialEq, Eq)]
pub struct Line {
    pub what: Record,
    pub arcs: Arcs,
}

/// What the pages of a run hold at the start.
#[derive(Clone, Copy, Debug, PartialEq, Eq)]
pub enum PageKind {
    Data,
    Heap,
    Stack,
}

/// `count` pages of 4,096 bytes that are mapped at the start, from page `first` on.
#[derive(Clone, Copy, Debug, PartialEq, Eq)]
pub struct PageRun {
    pub first: u16,
    pub count: u16,
    pub kind: PageKind,
}

/// Runs of pages, in order.
#[derive(Drop)]
pub struct PageRuns {
    items: Vec<PageRun>,
}

impl Model for PageRuns {
    ghost use Rattle.std.specs.Prelude.{List};
    ghost use Rattle.pl_event.specs.declared.log.PageRun.{PageRun};

    ghost Value = { List PageRun };

    ghost view = { λ pages. pages.items.items };
}

impl PageRuns {
    ghost use Rattle.std.specs.Prelude.{[], ◌∷◌, ◌++◌, OnOk, OnErr};

    pub fn new(alloc: Global) -> PageRuns
        ensures { result ≡ [] }
    {
        PageRuns {
            items: Vec::new(alloc),
        }
    }

    /// These runs; no memory is taken.
    pub fn from_vec(items: Vec<PageRun>) -> PageRuns
        ensures { result ≡ items.items }
    {
        PageRuns { items }
    }

    /// The runs as a vector; no memory is taken.
    pub fn into_vec(self) -> Vec<PageRun>
        ensures { result.items ≡ self }
    {
        let PageRuns { items } = self;
        items
    }

    /// One more run at the end. Without memory the runs stay.
    pub fn push(&mut self, run: PageRun) -> Result<(), AllocError>
        ensures ok { OnOk result (self.new ≡ self.old ++ run ∷ []) }
        ensures err { OnErr result (self.new ≡ self.old) }
    {
        self.items.push(run)?;
        Ok(())
    }

    pub fn as_slice(&self) -> &[PageRun]
        ensures { result.now ≡ self.now }
    {
        self.items.as_slice()
    }
}

/// What was recorded of a run, or written by hand.
#[derive(Drop)]
pub struct Log {
    /// 1 to 8.
    pub harts: u8,
    /// How many bytes of memory the arcs treat as one: 16 or 4.
    pub block: u8,
    pub pages: PageRuns,
    /// In executed order.
    pub lines: Lines,
}
