//! The masks of all harts.
ghost use Rattle.std.specs.Prelude.{◌≡◌, IfOk, map};
ghost use Rattle.pl_event.specs.declared.log.Log.{Log};
ghost use Rattle.lifeguard.specs.Plain.{final_state};
ghost use Rattle.lifeguard.specs.Rules.{Rules};
ghost use Rattle.report_text.specs.StateText.{mask_rows};
ghost use Rattle.log_watch.specs.Watched.{IsWatched};
ghost use Rattle.watch_text.specs.inner.Rows.{row_of};

use log_watch::Watched;
use pl_base::NoMemory;
use std::alloc::Global;
use turn_worker::HartResult;

/// The masks of the registers of each hart.
pub(crate) fn mask_table(alloc: Global, watched: &Watched) -> Result<Vec<[u8; 34]>, NoMemory>
    ensures { (rules : Rules) (log : Log) → IsWatched rules log watched.now →
        IfOk result (λ table. table.items ≡ mask_rows (final_state rules log).masks log.harts) }
{
    let table = rows(alloc, &watched.results)?;
    Ok(table)
}

/// The masks of each result.
fn rows(alloc: Global, results: &[HartResult]) -> Result<Vec<[u8; 34]>, NoMemory>
    ensures { IfOk result (λ table. table.items ≡ map row_of results.now) }
{
    let mut table = Vec::new(alloc);
    for found in results {
        table.push(row(found))?;
    }
    Ok(table)
}

fn row(found: &HartResult) -> [u8; 34]
    ensures { result ≡ row_of found.now }
{
    let mut masks = [0; 34];
    for register in 0..34u8 {
        masks[register as usize] = found.masks[register as usize];
    }
    masks
}
