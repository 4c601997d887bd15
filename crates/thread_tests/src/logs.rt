//! The logs of the tests.
ghost use Rattle.std.specs.Prelude.{◌<◌, ◌≤◌, length, IfOk};
ghost use Rattle.pl_event.specs.Runs.{IsRunLog};

use log_check::{OrderedLog, check};
use log_text::{log_laws, read_log};
use pl_base::NoMemory;
use pl_event::Log;
use std::alloc::Global;

// The log, checked. Err: it has more than ten lines, or is not ordered.
fn checked(alloc: Global, log: Log) -> Result<OrderedLog, NoMemory>
    requires { IsRunLog log }
    ensures { IfOk result (λ ordered. length ordered.log.lines ≤ 10) }
{
    if log.lines.len() > 10 {
        return Err(NoMemory);
    }
    match check(alloc, log) {
        Ok(ordered) => Ok(ordered),
        Err(_) => Err(NoMemory),
    }
}

/// The log of a text. Err: it is no log, has more than ten lines, or is not ordered.
pub fn log_of(alloc: Global, text: &str) -> Result<OrderedLog, NoMemory>
    ensures { IfOk result (λ ordered. length ordered.log.lines ≤ 10) }
{
    if text.len() > 1000 {
        return Err(NoMemory);
    }
    match read_log(alloc, text.as_bytes()) {
        Ok(log) => {
            log_laws();
            checked(alloc, log)
        }
        Err(_) => Err(NoMemory),
    }
}

/// The text of a log where each hart has one record, which sets a register.
pub fn one_record_each(alloc: Global, harts: u8) -> Result<String, NoMemory> {
    let mut text = format!(in alloc; "PLOG 1 harts {harts} block 16\n")?;
    for hart in 0..harts {
        let line = format!(in alloc; "h{hart} im 5\n")?;
        text.push_str(line.as_str())?;
    }
    Ok(text)
}
