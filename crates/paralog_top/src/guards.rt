//! The words after a command's first that name a lifeguard, and a number of threads.
ghost use Rattle.std.specs.Prelude.{◌≡◌, ◌∷◌, [], ℕ, MatchOption, map, string_bytes};
ghost use Rattle.std.specs.Fmt.{decimal};
ghost use Rattle.lifeguard.specs.declared.guard.Name.{Name};
ghost use Rattle.lifeguard.specs.Words.{guard_word};
ghost use Rattle.paralog_top.specs.Commands.{MayRun};

use lifeguard::Name;
use pl_base::layout::MAX_HARTS;
use pl_text::parse_number;

/// The lifeguard that the only word after a command's first names.
pub fn only_guard(operands: &[String]) -> Option<Name>
    ensures { let words = map string_bytes operands.now in MatchOption result
        ((guard : Name) → words ≡ guard_word guard ∷ [] → ⊥) (λ guard. words ≡ guard_word guard ∷ []) }
{
    match operands {
        [word] => guard_of(word.as_str()),
        _ => None,
    }
}

/// The lifeguard and the number of threads that the words after `watch` or `monitor` name.
pub fn guard_and_threads(operands: &[String]) -> Option<(Name, u8)>
    ensures { let words = map string_bytes operands.now in MatchOption result
        ((guard : Name) (threads : ℕ) → MayRun threads → words ≡ guard_word guard ∷ decimal threads ∷ [] → ⊥)
        (λ r. MayRun r.1 × (words ≡ guard_word r.0 ∷ decimal r.1 ∷ [])) }
{
    match operands {
        [guard, threads] => {
            let guard = guard_of(guard.as_str())?;
            let threads = parse_number(threads.as_bytes(), 10, MAX_HARTS as u32)?;
            if threads == 0 {
                None
            } else {
                Some((guard, threads as u8))
            }
        }
        _ => None,
    }
}

/// The lifeguard that a word names.
pub fn guard_of(word: &str) -> Option<Name>
    ensures { MatchOption result
        ((guard : Name) → word.now ≡ guard_word guard → ⊥) (λ guard. word.now ≡ guard_word guard) }
{
    match word {
        "addrcheck" => Some(Name::Addr),
        "taintcheck" => Some(Name::Taint),
        "memcheck" => Some(Name::Mem),
        _ => None,
    }
}
