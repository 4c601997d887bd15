//! The jobs of the tests.
ghost use Rattle.std.specs.Prelude.{IfOk};
ghost use Rattle.core_sim.specs.Valid.{IsValidJob};

use core_sim::Job;
use guest_asm::read_job;
use pl_base::NoMemory;
use std::alloc::Global;

/// The job of a text. Err: it is no job.
pub fn job_of(alloc: Global, text: &str) -> Result<Job, NoMemory>
    ensures { IfOk result IsValidJob }
{
    if text.len() > 1000 {
        return Err(NoMemory);
    }
    match read_job(alloc, text.as_bytes()) {
        Ok(job) => Ok(job),
        Err(_) => Err(NoMemory),
    }
}

/// The text of a job where each hart takes one step.
pub fn one_step_each(alloc: Global, harts: u8) -> Result<String, NoMemory> {
    let text = format!(in alloc; ".harts {harts}\n.schedule rr 1\n.steps {harts}\n.text\nnop\n")?;
    Ok(text)
}
