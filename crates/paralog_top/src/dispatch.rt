//! Each command's answer.
ghost use Rattle.std.specs.Prelude.{[], All, map, IfOk, IfErr};
ghost use Rattle.paralog_top.specs.Answers.{IsAnswer};
ghost use Rattle.paralog_top.specs.Asked.{tells};
ghost use Rattle.paralog_top.specs.Commands.{IsAllowed, input_of};
ghost use Rattle.paralog_top.specs.Refusals.{IsRefusal, Reads};

use crate::answer::Answer;
use crate::check::check;
use crate::command::Command;
use crate::counts::counts;
use crate::generated::generated;
use crate::list::list;
use crate::monitor::monitor;
use crate::probe::probe;
use crate::recorded::recorded;
use crate::refusal::Refusal;
use crate::replay::replay;
use crate::run::run;
use crate::upgrade::upgrade;
use crate::watch::watch;
use pl_base::Source;
use replay_probes::Probe;
use std::alloc::Global;

/// The command's answer to the input that the source has, with these probes. All of it is done on this thread, however
/// many the words name.
pub fn answer_to<S: Source>(
    alloc: Global,
    command: Command,
    probes: Vec<Box<dyn Probe>>,
    source: &mut S,
) -> Result<Answer, Refusal>
    requires allowed { IsAllowed (map (λ p. meaning p) probes.items) command }
    requires fresh { All (λ p. has_seen p []) probes.items }
    ensures ok { let input = tells S.left S.faults source.old source.new in
        IfOk result (λ answer. Reads (input_of command) input
        (λ bytes. IsAnswer (map (λ p. meaning p) probes.items) command bytes answer.text.items answer.verdict)) }
    ensures err { let input = tells S.left S.faults source.old source.new in
        IfErr result (IsRefusal (input_of command) input) }
{
    match command {
        Command::Replay(guard) => replay(alloc, guard, source),
        Command::Probe(guard, chosen) => probe(alloc, guard, &chosen, probes, source),
        Command::Check => check(alloc, source),
        Command::Watch { guard, .. } => watch(alloc, guard, source),
        Command::Monitor { guard, .. } => monitor(alloc, guard, source),
        Command::Counts(guard) => counts(alloc, guard, source),
        Command::Run => run(alloc, source),
        Command::List => list(alloc, source),
        Command::Record => recorded(alloc, source),
        Command::Upgrade => upgrade(alloc, source),
        Command::Generate { seed, size } => generated(alloc, seed, size, source),
    }
}
