//! From bytes to a job.
ghost use Rattle.std.specs.Prelude.{◌≡◌, ◌<◌, ◌^◌, ◌++◌, length, map, replicate, IfOk, OnOk};
ghost use Rattle.core_sim.specs.declared.job.Job.{Job};
ghost use Rattle.core_sim.specs.Valid.{IsValidJob};
ghost use Rattle.guest_asm.specs.Jobs.{IsJobText, HasFault, IfFault, placed};
ghost use Rattle.guest_asm.specs.WordLines.{IsLinedJobText, lines_of_row, lines_of_rows};
ghost use Rattle.guest_asm.specs.Scans.{IsValidRow};

use crate::build::build;
use crate::cause::JobRefused;
use crate::rules::words_of;
use crate::scan::{Row, first_pass};
use core_sim::Job;
use std::alloc::{AllocError, Global};

/// A job, and for each word of its text the number of the line, counted from 1, that it was read from.
#[derive(Drop)]
pub struct LinedJob {
    pub job: Job,
    pub lines: Vec<u32>,
}

/// The job that the bytes spell, or the first line with a fault.
pub fn read_job(alloc: Global, bytes: &[u8]) -> Result<Job, JobRefused>
    requires { length bytes.now < 2 ^ 31 }
    ensures ok { IfOk result (IsJobText bytes.now) }
    ensures one { IfOk result (λ job. (other : Job) → IsJobText bytes.now other → other ≡ job) }
    ensures valid { IfOk result IsValidJob }
    ensures none { IfFault result (λ _. (job : Job) → IsJobText bytes.now job → ⊥) }
    ensures fault { IfFault result (HasFault bytes.now) }
{
    let scan = first_pass(alloc, bytes)?;
    build(alloc, &scan)
}

/// The same job with the lines of its words, or the first line with a fault.
pub fn read_lined_job(alloc: Global, bytes: &[u8]) -> Result<LinedJob, JobRefused>
    requires { length bytes.now < 2 ^ 31 }
    ensures ok { IfOk result (λ lined. IsLinedJobText bytes.now lined.job lined.lines.items) }
    ensures valid { IfOk result (λ lined. IsValidJob lined.job) }
    ensures lined { IfOk result (λ lined. length lined.lines.items ≡ length lined.job.words) }
    ensures fault { IfFault result (HasFault bytes.now) }
{
    let scan = first_pass(alloc, bytes)?;
    let job = build(alloc, &scan)?;
    let lines = word_lines(alloc, scan.rows.as_slice())?;
    Ok(LinedJob { job, lines })
}

/// The line of each word of the text.
fn word_lines(alloc: Global, rows: &[Row<'_>]) -> Result<Vec<u32>, AllocError>
    ensures { IfOk result (λ lines. lines.items ≡ lines_of_rows (map placed rows.now)) }
{
    let mut lines = Vec::new(alloc);
    'rows: for row in rows {
        push_lines(&mut lines, row)?;
    }
    Ok(lines)
}

/// The line of a row, once for each word that the row puts into the text.
fn push_lines(lines: &mut Vec<u32>, row: &Row<'_>) -> Result<(), AllocError>
    ensures { OnOk result (lines.new.items ≡ lines.old.items ++ lines_of_row (placed row.now)) }
{
    let count = words_of(row.section, &row.statement);
    'words: for done in 0..count {
        lines.push(row.line)?;
    }
    Ok(())
}
