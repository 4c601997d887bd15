//! A job that is run step by step.
ghost use Rattle.std.specs.Prelude.{◌≡◌, ◌≤◌, ◌<◌, [], List, IfOk, OnErr, length, slice_get, slice_index_or, IfSome, IfNone};
ghost use Rattle.core_sim.specs.declared.job.Job.{Job};
ghost use Rattle.core_sim.specs.Entries.{Entry};
ghost use Rattle.core_sim.specs.Schedules.{items_of};
ghost use Rattle.core_sim.specs.Start.{begin_from, standing_at};
ghost use Rattle.core_sim.specs.Stands.{Stands, CanGoOn, Comes};
ghost use Rattle.core_sim.specs.Valid.{IsValidJob};
ghost use Rattle.pl_base.specs.declared.layout.TheConstants.{MAX_HARTS};

use crate::group::{EventGroup, StepOut};
use crate::hart::{HartEnd, Standing};
use crate::job::{Items, Job, Schedule};
use crate::start::start_memory;
use crate::step::execute;
use crate::text::Text;
use crate::turn::Turn;
use guest_kernel::Kernel;
use pl_base::NoMemory;
use pl_event::Event;
use rv_exec::HartState;
use std::alloc::Global;
use std::marker::Model;

/// A job that is run step by step.
#[derive(Drop)]
pub struct Machine {
    text: Text,
    kernel: Kernel,
    harts: Vec<Standing>,
    items: Items,
    turn: Turn,
    limit: u32,
    steps: u32,
}

impl Model for Machine {
    ghost use Rattle.std.specs.Prelude.{◌≤◌, length};
    ghost use Rattle.core_sim.specs.Image.{MachineImage};
    ghost use Rattle.pl_base.specs.declared.layout.TheConstants.{MAX_HARTS};

    ghost Value = { MachineImage };

    ghost view = { λ m. record {
      words = m.text;
      kernel = m.kernel;
      harts = m.harts.items;
      items = m.items;
      turn = m.turn;
      limit = m.limit;
      steps = m.steps;
    } };

    ghost invariant = { λ m. length m.harts.items ≤ MAX_HARTS };
}

impl Machine {
    /// The machine before the first step.
    ///
    /// # Errors
    ///
    /// `NoMemory` where none was left for the memory, the text, the harts or the turns.
    pub fn new(alloc: Global, job: &Job) -> Result<Machine, NoMemory>
        requires { IsValidJob job.now }
        ensures { IfOk result (λ machine. Stands job.now [] machine) }
    {
        let mem = start_memory(alloc, job)?;
        let input = job.input.as_slice().to_vec(alloc)?;
        let harts = usize::from(job.harts);
        Ok(Machine {
            text: Text::read(alloc, job.words.as_slice())?,
            kernel: Kernel::new(alloc, mem, input)?,
            harts: start_harts(alloc, &job.entries[..harts])?,
            items: start_items(alloc, &job.schedule)?,
            turn: Turn::none(&job.schedule),
            limit: job.steps,
            steps: 0,
        })
    }

    /// Takes the next step of the run. `Halted` exactly where no hart is live; `Limit` exactly where one is live and
    /// as many steps were taken as the job allows.
    ///
    /// # Errors
    ///
    /// `NoMemory` where a hart is live, the limit is not reached, and no memory was left. All is as before then.
    pub fn step(&mut self) -> Result<StepOut, NoMemory>
        ensures comes { IfOk result (λ out. (job : Job) (entries : List Entry) →
            Stands job entries self.old → Comes job entries self.old self.new out) }
        ensures unchanged { OnErr result (self.new ≡ self.old) }
        ensures memory { OnErr result ((job : Job) (entries : List Entry) →
            Stands job entries self.old → CanGoOn job entries) }
    {
        let Some(turn) = self.turn.of_step(self.items.as_slice(), &self.harts) else {
            return Ok(StepOut::Halted);
        };
        if self.steps >= self.limit {
            return Ok(StepOut::Limit);
        }
        let hart = usize::from(turn.hart);
        let kind = execute(&self.text, &mut self.kernel, &mut self.harts[hart])?;
        self.turn = turn.stepped();
        self.steps += 1;
        Ok(StepOut::Did(EventGroup::one(Event {
            hart: turn.hart,
            kind,
        })))
    }

    /// Whether a hart of the job goes on, and else how it has ended; `Live` for a number that is none of its harts.
    pub fn outcome(&self, hart: u8) -> HartEnd
        ensures hart { IfSome (slice_get self.now.harts hart) (λ standing. result ≡ standing.end) }
        ensures none { IfNone (slice_get self.now.harts hart) (result ≡ HartEnd.Live) }
    {
        match self.harts.get(usize::from(hart)) {
            Some(standing) => standing.end,
            None => HartEnd::Live,
        }
    }

    /// The address of a hart's next instruction, or of the one at which it ended; 0 for a number that is none of the
    /// job's harts.
    pub fn pc(&self, hart: u8) -> u32
        ensures { result ≡ (slice_index_or self.now.harts hart (standing_at 0 0)).state.pc }
    {
        match self.harts.get(usize::from(hart)) {
            Some(standing) => standing.state.pc,
            None => 0,
        }
    }

    /// How many steps were taken.
    pub fn steps_taken(&self) -> u32
        ensures { result ≡ self.now.steps }
    {
        self.steps
    }

    /// The bytes that the guest sent outside.
    pub fn guest_output(&self) -> &[u8]
        ensures { result.now ≡ self.now.kernel.output }
    {
        self.kernel.output()
    }
}

/// The harts at their entries.
fn start_harts(alloc: Global, entries: &[u32]) -> Result<Vec<Standing>, NoMemory>
    requires { length entries.now ≤ MAX_HARTS }
    ensures { IfOk result (λ harts. harts.items ≡ begin_from 0 entries.now) }
{
    let mut list = Vec::new(alloc);
    for (number, entry) in entries.iter().enumerate() {
        list.push(Standing {
            state: HartState::start(*entry, number as u8),
            end: HartEnd::Live,
        })?;
    }
    Ok(list)
}

/// The turns of a schedule by a list.
fn start_items(alloc: Global, schedule: &Schedule) -> Result<Items, NoMemory>
    ensures { IfOk result (λ items. items ≡ items_of schedule.now) }
{
    match schedule {
        Schedule::List { items } => Ok(Items::from_vec(items.as_slice().to_vec(alloc)?)),
        Schedule::Rr { .. } | Schedule::Seed { .. } => Ok(Items::new(alloc)),
    }
}
