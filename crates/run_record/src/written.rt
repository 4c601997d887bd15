//! The run of a job as the text of its log.
ghost use Rattle.std.specs.Prelude.{◌≡◌, ◌≤◌, suc, All, Ok, false, true, length, IfOk, OnOk, string_bytes};
ghost use Rattle.pl_base.specs.declared.layout.TheConstants.{MAX_LOG_BYTES};
ghost use Rattle.pl_event.specs.declared.log.Log.{Log};
ghost use Rattle.log_grammar.specs.Spelling.{log_spelling};
ghost use Rattle.core_sim.specs.Valid.{IsValidJob};
ghost use Rattle.run_record.specs.Texts.{IsRecordText};
ghost use Rattle.run_record.specs.Writing.{IsWriting, with_lines};

use crate::laws::recorded_runs;
use crate::recording::Recording;
use core_sim::{Job, start_pages};
use log_text::{add_line, begin_log};
use pl_base::NoMemory;
use pl_base::layout::BLOCK_BYTES;
use pl_event::Line;
use std::alloc::Global;

/// The text of the log of a job's run, which is at most as long as a log may be. Each step's lines are written as the
/// step is taken.
pub fn record_job(alloc: Global, job: &Job) -> Result<Vec<u8>, NoMemory>
    requires { IsValidJob job.now }
    ensures text { IfOk result (λ text. IsRecordText job.now text.items) }
    ensures short { IfOk result (λ text. length text.items ≤ MAX_LOG_BYTES) }
{
    recorded_runs();
    let pages = start_pages(alloc, job)?;
    let mut text = begin_log(alloc, job.harts, BLOCK_BYTES, &pages)?;
    let mut recording = Recording::new(alloc, job)?;
    let mut lines = Vec::new(alloc);
    write_run(&mut recording, &mut lines, &mut text, job)?;
    Ok(text.into_bytes())
}

/// Writes the lines of all steps to come.
fn write_run(
    recording: &mut Recording,
    lines: &mut Vec<Line>,
    text: &mut String,
    job: &Job,
) -> Result<(), NoMemory>
    requires { IsWriting job.now recording.old (string_bytes text.old) }
    ensures { OnOk result (IsRecordText job.now (string_bytes text.new)) }
{
    let mut going = true;
    'steps: while going {
        match write_step(recording, lines, text, job) {
            Ok(more) => going = more,
            Err(error) => return Err(error),
        }
    }
    Ok(())
}

/// Takes one more step and writes its lines; false at the end of the run.
fn write_step(
    recording: &mut Recording,
    lines: &mut Vec<Line>,
    text: &mut String,
    job: &Job,
) -> Result<bool, NoMemory>
    requires { IsWriting job.now recording.old (string_bytes text.old) }
    ensures more { result ≡ Ok true → IsWriting job.now recording.new (string_bytes text.new) }
    ensures further { result ≡ Ok true → recording.new.machine.steps ≡ suc recording.old.machine.steps }
    ensures within { result ≡ Ok true → recording.new.machine.steps ≤ job.now.steps }
    ensures whole { result ≡ Ok false → IsRecordText job.now (string_bytes text.new) }
{
    match recording.next(lines) {
        Ok(true) => {
            add_lines(text, lines)?;
            Ok(true)
        }
        Ok(false) => Ok(false),
        Err(error) => Err(error),
    }
}

/// Adds these lines to the text of a log.
pub(crate) fn add_lines(text: &mut String, lines: &[Line]) -> Result<(), NoMemory>
    requires { All (λ line. length line.arcs ≡ 8) lines.now }
    ensures { OnOk result ((log : Log) → string_bytes text.old ≡ log_spelling log →
        string_bytes text.new ≡ log_spelling (with_lines log lines.now)) }
{
    for line in lines {
        add_line(text, line)?;
    }
    Ok(())
}
