//! `gen s z`: the summary of the run of a job that is drawn from a number.
ghost use Rattle.std.specs.Prelude.{◌≡◌, ◌∷◌, [], ℕ, MatchOption, IfOk, IfErr, map, string_bytes};
ghost use Rattle.std.specs.Fmt.{decimal};
ghost use Rattle.paralog_top.specs.declared.input.Input.TheVariants as kinds;
ghost use Rattle.paralog_top.specs.Asked.{tells};
ghost use Rattle.paralog_top.specs.Generating.{IsSummary, MayDraw};
ghost use Rattle.paralog_top.specs.Refusals.{IsRefusal, Reads};

use crate::answer::{Answer, Verdict};
use crate::refusal::Refusal;
use guest_asm::generate;
use pl_base::{NoMemory, Source};
use pl_text::parse_number;
use run_figures::run_figures;
use std::alloc::Global;

/// The most actions that a hart of a drawn job has.
const MAX_ACTIONS: u32 = 1000;

/// The number and the count of actions that the words after `gen` spell.
pub fn parse_generated(operands: &[String]) -> Option<(u32, u32)>
    ensures { let words = map string_bytes operands.now in MatchOption result
        ((seed size : ℕ) → MayDraw seed size → words ≡ decimal seed ∷ decimal size ∷ [] → ⊥)
        (λ r. MayDraw r.0 r.1 × (words ≡ decimal r.0 ∷ decimal r.1 ∷ [])) }
{
    match operands {
        [seed, size] => {
            let seed = parse_number(seed.as_bytes(), 10, u32::MAX)?;
            let size = parse_number(size.as_bytes(), 10, MAX_ACTIONS)?;
            if size == 0 { None } else { Some((seed, size)) }
        }
        _ => None,
    }
}

/// The summary of the run of the job that is drawn from these numbers. The source is not touched.
pub fn generated<S: Source>(
    alloc: Global,
    seed: u32,
    size: u32,
    _source: &mut S,
) -> Result<Answer, Refusal>
    requires { MayDraw seed size }
    ensures ok { let input = tells S.left S.faults _source.old _source.new in
        IfOk result (λ answer. Reads kinds.Nothing input
        (λ bytes. IsSummary seed size answer.text.items × (answer.verdict ≡ Verdict.Clean))) }
    ensures err { let input = tells S.left S.faults _source.old _source.new in
        IfErr result (IsRefusal kinds.Nothing input) }
{
    match summary(alloc, seed, size) {
        Ok(text) => Ok(Answer {
            text,
            verdict: Verdict::Clean,
        }),
        Err(NoMemory) => Err(Refusal::NoMemory),
    }
}

fn summary(alloc: Global, seed: u32, size: u32) -> Result<Vec<u8>, NoMemory>
    requires { MayDraw seed size }
    ensures { IfOk result (λ text. IsSummary seed size text.items) }
{
    let job = generate(alloc, seed, size)?;
    let figures = run_figures(alloc, &job)?;
    figures.summary(alloc, seed, size)
}
