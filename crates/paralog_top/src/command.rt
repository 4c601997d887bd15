//! The commands and their words.
ghost use Rattle.std.specs.Prelude.{◌≡◌, ◌∷◌, MatchOption, map, string_bytes};
ghost use Rattle.paralog_top.specs.Commands.{IsCommand, IsNoCommand, input_of};

use crate::chosen::Chosen;
use crate::generated::parse_generated;
use crate::guards::{guard_and_threads, only_guard};
use crate::input::Input;
use crate::probe::parse_probe;
use lifeguard::Name;
use replay_probes::Probe;

/// What the words ask for.
#[derive(Drop)]
pub enum Command {
    /// `replay L`: the report text of a log, by the plain rules.
    Replay(Name),
    /// `probe L NAME..`: the same, and a line of each named probe.
    Probe(Name, Chosen),
    /// `check`: whether the records of a log are ordered.
    Check,
    /// `watch L n`: the report text of a log, by a worker for each hart, on so many threads.
    Watch { guard: Name, threads: u8 },
    /// `monitor L n`: the report text of a job's run, by a worker for each hart, while it runs, on so many threads.
    Monitor { guard: Name, threads: u8 },
    /// `counts L`: how many checks the workers of a log make, and how many of them miss in the filter.
    Counts(Name),
    /// `run`: the run text of a job.
    Run,
    /// `list`: the listing of a job.
    List,
    /// `record`: the log of the run of a job.
    Record,
    /// `upgrade`: a log as one of version 2.
    Upgrade,
    /// `gen s z`: the summary of the run of a job that is drawn from the number `s`, with `z` actions a hart.
    Generate { seed: u32, size: u32 },
}

impl Command {
    /// The command that the words are, where these probes were handed in.
    pub fn parse(words: &[String], probes: &[Box<dyn Probe>]) -> Option<Command>
        ensures { MatchOption result (IsNoCommand (map (λ p. meaning p) probes.now) (map string_bytes words.now))
            (IsCommand (map (λ p. meaning p) probes.now) (map string_bytes words.now)) }
    {
        match words {
            [verb, operands @ ..] => parse_operands(verb.as_str(), operands, probes),
            [] => None,
        }
    }

    /// What it reads.
    pub fn input(&self) -> Input
        ensures { result ≡ input_of self.now }
    {
        match self {
            Command::Replay(_)
            | Command::Probe(..)
            | Command::Check
            | Command::Watch { .. }
            | Command::Counts(_)
            | Command::Upgrade => Input::Log,
            Command::Monitor { .. } | Command::Run | Command::List | Command::Record => Input::Job,
            Command::Generate { .. } => Input::Nothing,
        }
    }
}

/// The command that a first word and the words after it are.
fn parse_operands(verb: &str, operands: &[String], probes: &[Box<dyn Probe>]) -> Option<Command>
    ensures { MatchOption result
        (IsNoCommand (map (λ p. meaning p) probes.now) (verb.now ∷ map string_bytes operands.now))
        (IsCommand (map (λ p. meaning p) probes.now) (verb.now ∷ map string_bytes operands.now)) }
{
    match verb {
        "replay" => Some(Command::Replay(only_guard(operands)?)),
        "probe" => {
            let (guard, chosen) = parse_probe(operands, probes)?;
            Some(Command::Probe(guard, chosen))
        }
        "check" if operands.is_empty() => Some(Command::Check),
        "watch" => {
            let (guard, threads) = guard_and_threads(operands)?;
            Some(Command::Watch { guard, threads })
        }
        "monitor" => {
            let (guard, threads) = guard_and_threads(operands)?;
            Some(Command::Monitor { guard, threads })
        }
        "counts" => Some(Command::Counts(only_guard(operands)?)),
        "run" if operands.is_empty() => Some(Command::Run),
        "list" if operands.is_empty() => Some(Command::List),
        "record" if operands.is_empty() => Some(Command::Record),
        "upgrade" if operands.is_empty() => Some(Command::Upgrade),
        "gen" => {
            let (seed, size) = parse_generated(operands)?;
            Some(Command::Generate { seed, size })
        }
        _ => None,
    }
}
