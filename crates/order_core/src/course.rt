//! Operations of records, and a run of them laid out in executed order.
use pl_base::layout::MAX_HARTS;
use pl_event::Log;
use std::collections::LinkedList;

/// The first word of the table that operations may name: before it are a word of the table's own and the progress
/// words.
pub const FIRST_WORD: u32 = MAX_HARTS as u32 + 1;

/// An operation of a record on a word of the table.
#[derive(Clone, Copy, Debug, PartialEq, Eq)]
pub struct Op {
    pub word: u32,
    /// 1 to 15: bit j for lane j, which is bits 16j to 16j + 15 of the word.
    pub lanes: u8,
    /// Whether it is a write, or else a read.
    pub write: bool,
    /// Whether it is the read of a check.
    pub check: bool,
    /// What the sequential run has in its lanes: what a read finds, or what a write puts.
    pub value: u64,
}

/// An operation of a run: operation `op`, from 0, of record `number` of a hart.
#[derive(Clone, Copy, Debug, PartialEq, Eq)]
pub struct Operation {
    pub hart: u8,
    pub number: u32,
    pub op: u32,
    pub what: Op,
}

/// A run as plain data: its log, its operations in executed order, and the words at its start. No value of it is made.
pub struct Course {
    pub log: Log,
    pub operations: LinkedList<Operation>,
    pub opening: LinkedList<u64>,
}
