//! `monitor L n`: the workers of a job's run, which take its records while it runs.
ghost use Rattle.std.specs.Prelude.{IfOk, IfErr};
ghost use Rattle.pl_event.specs.declared.log.Log.{Log};
ghost use Rattle.core_sim.specs.Valid.{IsValidJob};
ghost use Rattle.guest_asm.specs.Jobs.{IsJobText};
ghost use Rattle.run_record.specs.Recorded.{IsLogOfRun};
ghost use Rattle.log_watch.specs.Watched.{IsWatched};
ghost use Rattle.paralog_top.specs.declared.input.Input.TheVariants as kinds;
ghost use Rattle.paralog_top.specs.Asked.{tells};
ghost use Rattle.paralog_top.specs.Refusals.{IsRefusal, Reads};
ghost use Rattle.paralog_top.specs.Results.{rules_of};
ghost use Rattle.paralog_top.specs.Watches.{IsMonitor, IsRunResult};

use crate::answer::Answer;
use crate::input::read_job_bytes;
use crate::refusal::Refusal;
use crate::result::verdict_of;
use addrcheck::AddrCheck;
use core_sim::Job;
use guest_asm::read_job;
use lifeguard::{Lifeguard, Name};
use log_text::log_laws;
use log_watch::Watched;
use memcheck::MemCheck;
use pl_base::{Gate, NoMemory, Source};
use run_log::run_logs;
use run_record::recorded_runs;
use run_watch::{watch_run, watch_run_on_threads};
use std::alloc::Global;
use std::sync::Wait;
use std::thread::Threads;
use taintcheck::TaintCheck;
use watch_text::{Found, text_of};

/// What the workers of the run of the job that the source has find, on this thread.
pub fn monitor<S: Source>(alloc: Global, guard: Name, source: &mut S) -> Result<Answer, Refusal>
    ensures ok { let input = tells S.left S.faults source.old source.new in
        IfOk result (λ answer. Reads kinds.Job input
        (λ bytes. IsMonitor guard bytes answer.text.items answer.verdict)) }
    ensures err { let input = tells S.left S.faults source.old source.new in
        IfErr result (IsRefusal kinds.Job input) }
{
    match read_monitored(alloc, source) {
        Ok(job) => match found_on(alloc, guard, &job) {
            Ok(answer) => Ok(answer),
            Err(NoMemory) => Err(Refusal::NoMemory),
        },
        Err(refusal) => Err(refusal),
    }
}

/// The same, on so many threads beside the run. It may wait.
pub fn monitor_apart<R: Threads + Wait + Sync, S: Source, G: Gate + Sync>(
    rt: &R,
    alloc: Global,
    guard: Name,
    threads: u8,
    gate: &G,
    source: &mut S,
) -> Result<Answer, Refusal>
    ensures ok { let input = tells S.left S.faults source.old source.new in
        IfOk result (λ answer. Reads kinds.Job input
        (λ bytes. IsMonitor guard bytes answer.text.items answer.verdict)) }
    ensures err { let input = tells S.left S.faults source.old source.new in
        IfErr result (IsRefusal kinds.Job input) }
{
    match read_monitored(alloc, source) {
        Ok(job) => match found_apart(rt, alloc, guard, threads, gate, &job) {
            Ok(answer) => Ok(answer),
            Err(NoMemory) => Err(Refusal::NoMemory),
        },
        Err(refusal) => Err(refusal),
    }
}

/// The job that the source has.
fn read_monitored<S: Source>(alloc: Global, source: &mut S) -> Result<Job, Refusal>
    ensures ok { let input = tells S.left S.faults source.old source.new in
        IfOk result (λ job. Reads kinds.Job input (λ bytes. IsJobText bytes job)) }
    ensures valid { IfOk result IsValidJob }
    ensures err { let input = tells S.left S.faults source.old source.new in
        IfErr result (IsRefusal kinds.Job input) }
{
    let bytes = match read_job_bytes(alloc, source) {
        Ok(bytes) => bytes,
        Err(refusal) => return Err(refusal),
    };
    match read_job(alloc, &bytes) {
        Ok(job) => Ok(job),
        Err(refused) => Err(Refusal::of_job(refused)),
    }
}

/// What the workers of a job's run find under the named lifeguard, as an answer.
fn found_on(alloc: Global, guard: Name, job: &Job) -> Result<Answer, NoMemory>
    requires { IsValidJob job.now }
    ensures { IfOk result (λ answer. IsRunResult (rules_of guard) job.now answer.text.items answer.verdict) }
{
    match guard {
        Name::Addr => found_under(alloc, AddrCheck, job),
        Name::Taint => found_under(alloc, TaintCheck, job),
        Name::Mem => found_under(alloc, MemCheck, job),
    }
}

fn found_under<L: Lifeguard>(alloc: Global, guard: L, job: &Job) -> Result<Answer, NoMemory>
    requires { IsValidJob job.now }
    ensures { IfOk result (λ answer. IsRunResult (L.rules guard) job.now answer.text.items answer.verdict) }
{
    let watched = watch_run(alloc, guard, job)?;
    found(alloc, guard, job, &watched)
}

/// The same, on so many threads.
fn found_apart<R: Threads + Wait + Sync, G: Gate + Sync>(
    rt: &R,
    alloc: Global,
    guard: Name,
    threads: u8,
    gate: &G,
    job: &Job,
) -> Result<Answer, NoMemory>
    requires { IsValidJob job.now }
    ensures { IfOk result (λ answer. IsRunResult (rules_of guard) job.now answer.text.items answer.verdict) }
{
    match guard {
        Name::Addr => found_by_threads(rt, alloc, AddrCheck, threads, gate, job),
        Name::Taint => found_by_threads(rt, alloc, TaintCheck, threads, gate, job),
        Name::Mem => found_by_threads(rt, alloc, MemCheck, threads, gate, job),
    }
}

fn found_by_threads<R: Threads + Wait + Sync, L: Lifeguard + Send + Sync, G: Gate + Sync>(
    rt: &R,
    alloc: Global,
    guard: L,
    threads: u8,
    gate: &G,
    job: &Job,
) -> Result<Answer, NoMemory>
    requires { IsValidJob job.now }
    ensures { IfOk result (λ answer. IsRunResult (L.rules guard) job.now answer.text.items answer.verdict) }
{
    let watched = watch_run_on_threads(rt, alloc, guard, job, threads, gate)?;
    found(alloc, guard, job, &watched)
}

/// What was found of a job's run, as an answer.
fn found<L: Lifeguard>(
    alloc: Global,
    guard: L,
    job: &Job,
    watched: &Watched,
) -> Result<Answer, NoMemory>
    requires valid { IsValidJob job.now }
    requires watched { (log : Log) → IsLogOfRun job.now log → IsWatched (L.rules guard) log watched.now }
    ensures { IfOk result (λ answer. IsRunResult (L.rules guard) job.now answer.text.items answer.verdict) }
{
    run_logs();
    recorded_runs();
    log_laws();
    let Found { text, is_clean } = text_of(alloc, guard, job.harts, watched)?;
    let verdict = verdict_of(is_clean);
    Ok(Answer { text, verdict })
}
