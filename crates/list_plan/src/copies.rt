//! A log that is copied.
ghost use Rattle.std.specs.Prelude.{◌≡◌, IfOk};

use pl_base::NoMemory;
use pl_event::{Lines, Log, PageRun, PageRuns};
use std::alloc::Global;

// The same runs of pages.
fn copied_pages(alloc: Global, pages: &[PageRun]) -> Result<PageRuns, NoMemory>
    ensures { IfOk result (λ copy. copy ≡ pages.now) }
{
    let mut copy = PageRuns::new(alloc);
    for run in pages {
        copy.push(*run)?;
    }
    Ok(copy)
}

// The same lines.
fn copied_lines(alloc: Global, lines: &Lines) -> Result<Lines, NoMemory>
    ensures { IfOk result (λ copy. copy ≡ lines.now) }
{
    let mut copy = Lines::new(alloc);
    for at in 0..lines.len() {
        copy.push(lines.get(at))?;
    }
    Ok(copy)
}

// The same log.
pub(crate) fn copied_log(alloc: Global, log: &Log) -> Result<Log, NoMemory>
    ensures { IfOk result (λ copy. copy ≡ log.now) }
{
    Ok(Log {
        harts: log.harts,
        block: log.block,
        pages: copied_pages(alloc, log.pages.as_slice())?,
        lines: copied_lines(alloc, &log.lines)?,
    })
}
