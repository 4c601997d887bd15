//! The plain result of a log, as an answer.
ghost use Rattle.std.specs.Prelude.{◌≡◌, ◌<◌, IfOk};
ghost use Rattle.pl_event.specs.declared.log.Log.{Log};
ghost use Rattle.pl_event.specs.Numbers.{events_of};
ghost use Rattle.lifeguard.specs.Shadow.{Represents, state_of};
ghost use Rattle.report_text.specs.StateText.{mask_row, mask_rows};
ghost use Rattle.paralog_top.specs.Results.{IsResult, verdict_of as verdict_by};

use crate::answer::{Answer, Verdict};
use lifeguard::{Lifeguard, PlainMonitor};
use pl_base::NoMemory;
use report_text::{runs_of_plain, text};
use std::alloc::Global;

/// What a lifeguard's result says, by whether it has no report.
pub(crate) fn verdict_of(clean: bool) -> Verdict
    ensures { result ≡ verdict_by clean }
{
    if clean {
        Verdict::Clean
    } else {
        Verdict::Reports
    }
}

/// The plain result of any log that the monitor represents, as a text.
pub fn result_of<L: Lifeguard>(
    alloc: Global,
    guard: L,
    monitor: &PlainMonitor<L>,
) -> Result<Answer, NoMemory>
    ensures { (log : Log) → log.harts ≡ monitor.now.harts
        → Represents (L.rules guard) log.pages (events_of log.lines) monitor.now.shadow
        → IfOk result (λ answer. IsResult (L.rules guard) log answer.text.items answer.verdict) }
{
    let masks = mask_table(alloc, monitor)?;
    let runs = runs_of_plain(alloc, monitor)?;
    let text = text(
        alloc,
        guard.name(),
        monitor.harts(),
        monitor.reports(),
        &masks,
        &runs,
    )?;
    let verdict = verdict_of(monitor.reports().is_empty());
    Ok(Answer { text, verdict })
}

/// The masks of the registers of each hart.
fn mask_table<L: Lifeguard>(
    alloc: Global,
    monitor: &PlainMonitor<L>,
) -> Result<Vec<[u8; 34]>, NoMemory>
    ensures { IfOk result (λ table. table.items ≡ mask_rows (state_of monitor.now.shadow).masks monitor.now.harts) }
{
    let mut table = Vec::new(alloc);
    for hart in 0..monitor.harts() {
        table.push(masks_of(monitor, hart))?;
    }
    Ok(table)
}

fn masks_of<L: Lifeguard>(monitor: &PlainMonitor<L>, hart: u8) -> [u8; 34]
    requires { hart < monitor.now.harts }
    ensures { result ≡ mask_row (state_of monitor.now.shadow).masks hart }
{
    let mut masks = [0; 34];
    for register in 0..34u8 {
        masks[register as usize] = monitor.mask(hart, register);
    }
    masks
}
