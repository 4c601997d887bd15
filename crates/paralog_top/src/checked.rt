//! The log that a source has, and whether it is ordered.
ghost use Rattle.std.specs.Prelude.{◌≡◌, ◌<◌, ◌^◌, length, IfOk, IfErr};
ghost use Rattle.pl_event.specs.Runs.{IsRunLog};
ghost use Rattle.paralog_top.specs.declared.input.Input.TheVariants as kinds;
ghost use Rattle.paralog_top.specs.Asked.{tells};
ghost use Rattle.paralog_top.specs.Checks.{HasChecked, IsCheckedLog};
ghost use Rattle.paralog_top.specs.Refusals.{IsRefusal, Reads};

use crate::refusal::Refusal;
use log_check::{CheckRefused, OrderedLog};
use log_text::{log_laws, read_source};
use pl_base::layout::MAX_LOG_BYTES;
use pl_base::{NoMemory, Source};
use pl_event::{Log, Point};
use std::alloc::Global;

/// What the order check finds.
#[derive(Drop)]
pub enum Checked {
    Ordered(OrderedLog),
    /// The first two conflicting records that are not ordered.
    Unordered { earlier: Point, later: Point },
}

/// Reads the log that the source has, and checks its order.
pub fn read_checked<S: Source>(alloc: Global, source: &mut S) -> Result<Checked, Refusal>
    ensures ok { let input = tells S.left S.faults source.old source.new in
        IfOk result (λ checked. Reads kinds.Log input (λ bytes. IsCheckedLog bytes checked)) }
    ensures err { let input = tells S.left S.faults source.old source.new in
        IfErr result (IsRefusal kinds.Log input) }
{
    match read_source(alloc, source, MAX_LOG_BYTES) {
        Ok(log) => {
            log_laws();
            match order_of(alloc, log) {
                Ok(checked) => Ok(checked),
                Err(NoMemory) => Err(Refusal::NoMemory),
            }
        }
        Err(end) => Err(Refusal::of_log(end)),
    }
}

fn order_of(alloc: Global, log: Log) -> Result<Checked, NoMemory>
    requires log { IsRunLog log }
    requires few { length log.lines < 2 ^ 32 }
    ensures { IfOk result (HasChecked log) }
{
    match log_check::check(alloc, log) {
        Ok(ordered) => Ok(Checked::Ordered(ordered)),
        Err(CheckRefused::Unordered { earlier, later, .. }) => Ok(Checked::Unordered {
            earlier,
            later,
        }),
        Err(CheckRefused::NoMemory { .. }) => Err(NoMemory),
    }
}
