//! The records of a hart.
ghost use Rattle.std.specs.Prelude.{◌≡◌, ◌<◌, ◌^◌, length, IfOk, ◌==◌};
ghost use Rattle.pl_event.specs.Numbers.{positions_from, hart_of};

use crate::lines::Lines;
use crate::log::{Log, Record};
use pl_base::NoMemory;
use std::alloc::Global;

/// The hart of whose stream a record is.
#[inline(always)]
pub fn record_hart(what: &Record) -> u8
    ensures { result ≡ hart_of what.now }
{
    match what {
        Record::Event(event) => event.hart,
        Record::Notice { hart, of: _ } => *hart,
    }
}

/// The positions in the log, from 0, of a hart's records, in order.
pub fn stream(alloc: Global, log: &Log, hart: u8) -> Result<Vec<u32>, NoMemory>
    requires { length log.now.lines < 2 ^ 32 }
    ensures { IfOk result (λ positions. positions.items ≡ positions_from hart 0 log.now.lines) }
{
    positions(alloc, &log.lines, hart)
}

fn positions(alloc: Global, lines: &Lines, hart: u8) -> Result<Vec<u32>, NoMemory>
    requires { length lines.now < 2 ^ 32 }
    ensures { IfOk result (λ positions. positions.items ≡ positions_from hart 0 lines.now) }
{
    let mut positions = Vec::new(alloc);
    for at in 0..lines.len() {
        if record_hart(&lines.record(at)) == hart {
            positions.push(at as u32)?;
        }
    }
    Ok(positions)
}
