//! Logs that are ordered.
ghost use Rattle.std.specs.Prelude.{◌≡◌, ◌+◌, ◌^◌, ◌<◌, length, IfOk, IfErr, MatchOption};
ghost use Rattle.pl_event.specs.Conflicts.{IsOrdered};
ghost use Rattle.pl_event.specs.Runs.{IsRunLog};
ghost use Rattle.log_check.specs.Answers.{IsRefused, NamesFirst};
ghost use Rattle.log_check.specs.Checked.{IsCheckable, IsChecked};

use crate::order_check::{OrderCheck, UnorderedPair};
use pl_base::NoMemory;
use pl_event::{Log, Point};
use std::alloc::Global;

/// The log of a run in which each two events that conflict are ordered.
#[derive(Drop)]
pub struct OrderedLog {
    log: Log,
    ghost lawful: { ∥ IsRunLog log ∥₁ },
    ghost ordered: { ∥ IsOrdered log ∥₁ },
}

impl OrderedLog {
    pub fn log(&self) -> &Log
        ensures { result.now ≡ self.now.log }
    {
        &self.log
    }
}

/// Why a log was not found to be ordered. The log is returned.
#[derive(Drop)]
pub enum CheckRefused {
    /// The two records are the first pair that conflicts and is not ordered.
    Unordered {
        earlier: Point,
        later: Point,
        log: Log,
    },
    NoMemory {
        log: Log,
    },
}

// Takes the line at a position of a log.
#[inline(always)]
fn pass_at(check: &mut OrderCheck, log: &Log, at: usize) -> Result<Option<UnorderedPair>, NoMemory>
    requires at { at < length log.now.lines }
    requires few { length log.now.lines < 2 ^ 32 }
    requires log { IsCheckable log.now }
    requires checked { IsChecked check.old log.now at }
    ensures { IfOk result (λ found. MatchOption found
        (IsChecked check.new log.now (at + 1))
        (λ pair. NamesFirst log.now pair.earlier pair.later)) }
{
    match log.lines.bare(at) {
        Some(what) => check.pass_bare(what),
        None => check.pass(&log.lines.get(at)),
    }
}

// The first pair of a log that is not ordered.
#[inline(never)]
fn first_unordered(alloc: Global, log: &Log) -> Result<Option<UnorderedPair>, NoMemory>
    requires log { IsRunLog log.now }
    requires few { length log.now.lines < 2 ^ 32 }
    ensures { IfOk result (λ found. MatchOption found
        (IsOrdered log.now)
        (λ pair. NamesFirst log.now pair.earlier pair.later)) }
{
    let mut check = OrderCheck::new(alloc, log.block)?;
    for at in 0..log.lines.len() {
        let found = pass_at(&mut check, log, at)?;
        if found.is_some() {
            return Ok(found);
        }
    }
    Ok(None)
}

/// Checks the log of a run: it is ordered, or the first pair that is not ordered is named, or memory was wanting.
pub fn check(alloc: Global, log: Log) -> Result<OrderedLog, CheckRefused>
    requires log { IsRunLog log }
    requires few { length log.lines < 2 ^ 32 }
    ensures ok { IfOk result (λ ordered. (ordered.log ≡ log) × IsOrdered log) }
    ensures err { IfErr result (λ refused. IsRefused log refused) }
{
    match first_unordered(alloc, &log) {
        Ok(None) => Ok(OrderedLog { log }),
        Ok(Some(UnorderedPair { earlier, later })) => Err(CheckRefused::Unordered {
            earlier,
            later,
            log,
        }),
        Err(NoMemory) => Err(CheckRefused::NoMemory { log }),
    }
}
