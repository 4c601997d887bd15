//! The report text of a log whose workers have ended.
ghost use Rattle.std.specs.Prelude.{◌≡◌, IfOk};
ghost use Rattle.pl_event.specs.declared.log.Log.{Log};
ghost use Rattle.pl_event.specs.Runs.{IsRunLog};
ghost use Rattle.lifeguard.specs.Plain.{final_state};
ghost use Rattle.lifeguard.specs.Rules.{Rules};
ghost use Rattle.report_text.specs.Runs.{runs_of};
ghost use Rattle.log_watch.specs.Watched.{IsWatched};
ghost use Rattle.watch_text.specs.FoundText.{IsFoundIn, IsTold};

use crate::rows::mask_table;
use lifeguard::{Lifeguard, Report};
use lifeguard_crew::merge;
use log_watch::Watched;
use pl_base::NoMemory;
use pl_event::Log;
use report_text::{ByteRun, runs_of_words, text};
use std::alloc::Global;

/// What the workers of a log found.
#[derive(Drop)]
pub struct Found {
    /// The report text.
    pub text: Vec<u8>,
    /// Whether there is no report.
    pub is_clean: bool,
}

/// The plain result of a log of so many harts, whose workers found this, as a text.
pub fn text_of<L: Lifeguard>(
    alloc: Global,
    guard: L,
    harts: u8,
    watched: &Watched,
) -> Result<Found, NoMemory>
    requires { (log : Log) × IsWatched (L.rules guard) log watched.now }
    ensures { (log : Log) → IsFoundIn (L.rules guard) harts log watched.now →
        IfOk result (IsTold (L.rules guard) log) }
{
    let reports = reports_of(alloc, watched)?;
    let masks = mask_table(alloc, watched)?;
    let runs = runs_found(alloc, watched)?;
    let text = text(alloc, guard.name(), harts, &reports, &masks, &runs)?;
    let is_clean = reports.is_empty();
    Ok(Found { text, is_clean })
}

/// The reports of all harts, by place.
fn reports_of(alloc: Global, watched: &Watched) -> Result<Vec<Report>, NoMemory>
    ensures { (rules : Rules) (log : Log) → IsRunLog log → IsWatched rules log watched.now →
        IfOk result (λ reports. reports.items ≡ (final_state rules log).reports) }
{
    let reports = merge(alloc, &watched.results)?;
    Ok(reports)
}

/// The runs of bytes with one nibble.
fn runs_found(alloc: Global, watched: &Watched) -> Result<Vec<ByteRun>, NoMemory>
    requires { (rules : Rules) × (log : Log) × IsWatched rules log watched.now }
    ensures { (rules : Rules) (log : Log) → IsWatched rules log watched.now →
        IfOk result (λ runs. runs.items ≡ runs_of (final_state rules log).bytes) }
{
    let runs = runs_of_words(alloc, &watched.words)?;
    Ok(runs)
}
