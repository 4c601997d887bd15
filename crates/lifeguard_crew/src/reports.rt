//! The reports of all harts in one list.
ghost use Rattle.std.specs.Prelude.{◌≡◌, IfOk};
ghost use Rattle.pl_event.specs.declared.log.Log.{Log};
ghost use Rattle.pl_event.specs.Numbers.{events_of};
ghost use Rattle.lifeguard.specs.Rules.{Rules};
ghost use Rattle.lifeguard.specs.Plain.{plain_result};
ghost use Rattle.lifeguard_crew.specs.Merges.{all_reports, IsByPlace, AreOfRun};

use lifeguard::Report;
use pl_base::NoMemory;
use std::alloc::Global;
use turn_worker::HartResult;

// All reports, hart by hart.
fn gather(alloc: Global, results: &[HartResult]) -> Result<Vec<Report>, NoMemory>
    ensures { IfOk result (λ reports. reports.items ≡ all_reports results.now) }
{
    let mut reports = Vec::new(alloc);
    for result in results {
        reports.extend_from_slice(&result.reports)?;
    }
    Ok(reports)
}

/// All reports by rising place; those of one event keep their order.
///
/// Where the results are those of all harts of a run, these are the reports of the plain rules.
pub fn merge(alloc: Global, results: &[HartResult]) -> Result<Vec<Report>, NoMemory>
    ensures by_place { IfOk result (λ reports. IsByPlace (all_reports results.now) reports.items) }
    ensures plain { (rules : Rules) (log : Log) → AreOfRun rules log results.now →
        IfOk result (λ v. v.items ≡ (plain_result rules log.pages (events_of log.lines)).reports) }
{
    let mut reports = gather(alloc, results)?;
    reports.sort_by_key(|report| report.place)?;
    Ok(reports)
}
