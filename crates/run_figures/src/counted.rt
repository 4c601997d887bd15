//! The figures of a run.
ghost use Rattle.std.specs.Prelude.{◌≡◌, ◌≤◌, ◌++◌, suc, Ok, false, true, IfOk, OnOk, string_bytes};
ghost use Rattle.core_sim.specs.Valid.{IsValidJob};
ghost use Rattle.run_figures.specs.Summary.{AreFigures, count_lines, figure, report_lines, summary_text};
ghost use Rattle.run_figures.specs.Counting.{IsCounted, IsCounting, told_figures};

use crate::tally::Tally;
use arc_capture::recorded_events;
use core_sim::{Job, start_pages};
use pl_base::NoMemory;
use pl_event::Line;
use run_record::{Recording, recording_lines};
use std::alloc::{AllocError, Global};

/// The steps of a run, the records and arcs of its recorded log, and how many reports
/// each lifeguard's plain rules give.
#[derive(Clone, Copy, Debug, PartialEq, Eq)]
pub struct Figures {
    pub steps: u32,
    pub records: u32,
    pub arcs: u32,
    pub addr: usize,
    pub taint: usize,
    pub mem: usize,
}

/// The figures of the run of a job.
pub fn run_figures(alloc: Global, job: &Job) -> Result<Figures, NoMemory>
    requires { IsValidJob job.now }
    ensures { IfOk result (AreFigures job.now) }
{
    recorded_events();
    let pages = start_pages(alloc, job)?;
    let mut tally = Tally::new(alloc, job.harts, &pages)?;
    let mut recording = Recording::new(alloc, job)?;
    let mut lines = Vec::new(alloc);
    count_run(&mut recording, &mut lines, &mut tally, job)?;
    Ok(told(recording.steps_taken(), &tally))
}

/// Counts the lines of all steps to come.
fn count_run(
    recording: &mut Recording,
    lines: &mut Vec<Line>,
    tally: &mut Tally,
    job: &Job,
) -> Result<(), NoMemory>
    requires { IsCounting job.now recording.old tally.old }
    ensures { OnOk result (IsCounted job.now recording.new tally.new) }
{
    let mut going = true;
    'steps: while going {
        match count_step(recording, lines, tally, job) {
            Ok(more) => going = more,
            Err(error) => return Err(error),
        }
    }
    Ok(())
}

/// Takes one more step and counts its lines; false at the end of the run.
fn count_step(
    recording: &mut Recording,
    lines: &mut Vec<Line>,
    tally: &mut Tally,
    job: &Job,
) -> Result<bool, NoMemory>
    requires { IsCounting job.now recording.old tally.old }
    ensures more { result ≡ Ok true → IsCounting job.now recording.new tally.new }
    ensures further { result ≡ Ok true → recording.new.machine.steps ≡ suc recording.old.machine.steps }
    ensures within { result ≡ Ok true → recording.new.machine.steps ≤ job.now.steps }
    ensures counted { result ≡ Ok false → IsCounted job.now recording.new tally.new }
{
    recording_lines();
    match recording.next(lines) {
        Ok(true) => {
            tally.add_all(lines)?;
            Ok(true)
        }
        Ok(false) => Ok(false),
        Err(error) => Err(error),
    }
}

/// What is told of a tally after so many steps.
fn told(steps: u32, tally: &Tally) -> Figures
    ensures { result ≡ told_figures steps tally.now }
{
    Figures {
        steps,
        records: tally.records,
        arcs: tally.arcs,
        addr: tally.addr.reports().len(),
        taint: tally.taint.reports().len(),
        mem: tally.mem.reports().len(),
    }
}

/// A line with a figure.
fn write_figure(out: &mut String, word: &str, n: usize) -> Result<(), AllocError>
    ensures { OnOk result (string_bytes out.new ≡ string_bytes out.old ++ figure word.now n) }
{
    write!(out, "{word} {n}\n")
}

fn write_counts(out: &mut String, figures: &Figures) -> Result<(), AllocError>
    ensures { OnOk result (string_bytes out.new ≡ string_bytes out.old ++ count_lines figures.now) }
{
    write_figure(out, "steps", figures.steps as usize)?;
    write_figure(out, "records", figures.records as usize)?;
    write_figure(out, "arcs", figures.arcs as usize)
}

fn write_reports(out: &mut String, figures: &Figures) -> Result<(), AllocError>
    ensures { OnOk result (string_bytes out.new ≡ string_bytes out.old ++ report_lines figures.now) }
{
    write_figure(out, "reports addrcheck", figures.addr)?;
    write_figure(out, "reports taintcheck", figures.taint)?;
    write_figure(out, "reports memcheck", figures.mem)
}

impl Figures {
    ghost use Rattle.std.specs.Prelude.{◌≡◌, IfOk};

    /// The summary of the run of a job that was drawn from a seed, with so many actions a hart.
    pub fn summary(&self, alloc: Global, seed: u32, size: u32) -> Result<Vec<u8>, NoMemory>
        ensures { IfOk result (λ text. text.items ≡ summary_text seed size self.now) }
    {
        let mut text = String::new(alloc);
        write!(text, "PGEN 1 seed {seed} size {size}\n")?;
        write_counts(&mut text, self)?;
        write_reports(&mut text, self)?;
        text.push_str("end\n")?;
        Ok(text.into_bytes())
    }
}
