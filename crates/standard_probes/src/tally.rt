//! Counts.
ghost use Rattle.std.specs.Prelude.{◌≡◌, ◌+◌, ◌<◌, ◌++◌, length, slice_index, slice_set, string_bytes, OnOk, OnErr};
ghost use Rattle.standard_probes.specs.ProbeLines.{counted};

use pl_base::NoMemory;
use std::alloc::AllocError;

/// One more at this place. A count that is full has no room left, and stays.
#[inline]
pub fn raise(counts: &mut [u32], at: usize) -> Result<(), NoMemory>
    requires { at < length counts.old }
    ensures ok { OnOk result (counts.new ≡ slice_set counts.old at (slice_index counts.old at + 1)) }
    ensures err { OnErr result (counts.new ≡ counts.old) }
{
    let count = counts[at];
    if count == u32::MAX {
        return Err(NoMemory);
    }
    counts[at] = count + 1;
    Ok(())
}

/// A word with its count, where that is not 0.
pub fn write_counted(out: &mut String, word: &str, count: u32) -> Result<(), AllocError>
    ensures { OnOk result (string_bytes out.new ≡ string_bytes out.old ++ counted word.now count) }
{
    if count == 0 {
        return Ok(());
    }
    write!(out, " {word} {count}")
}
