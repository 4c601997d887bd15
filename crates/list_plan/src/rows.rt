//! The lists of the records of harts.
ghost use Rattle.std.specs.Prelude.{◌≡◌, ◌≢◌, ℕ, ◌<◌, [], ◌∷◌, ◌++◌, length, IfOk, OnOk};
ghost use Rattle.order_core.specs.Lists.{stream_of};

use order_core::RecordPlan;
use pl_base::NoMemory;
use std::alloc::Global;

// A list without records for each hart.
pub(crate) fn no_rows(alloc: Global, harts: u8) -> Result<Vec<Vec<RecordPlan>>, NoMemory>
    ensures count { IfOk result (λ streams. length streams.items ≡ harts) }
    ensures none { IfOk result (λ streams. (h : ℕ) → stream_of streams.items h ≡ []) }
{
    let mut streams = Vec::new(alloc);
    for _hart in 0..harts {
        streams.push(Vec::new(alloc))?;
    }
    Ok(streams)
}

// One more record of a hart.
pub(crate) fn add_row(
    streams: &mut Vec<Vec<RecordPlan>>,
    hart: u8,
    row: RecordPlan,
) -> Result<(), NoMemory>
    requires { hart < length streams.old.items }
    ensures count { OnOk result (length streams.new.items ≡ length streams.old.items) }
    ensures added { OnOk result (stream_of streams.new.items hart ≡ stream_of streams.old.items hart ++ row ∷ []) }
    ensures others { OnOk result ((h : ℕ) → h ≢ hart → stream_of streams.new.items h ≡ stream_of streams.old.items h) }
{
    streams[hart as usize].push(row)?;
    Ok(())
}
