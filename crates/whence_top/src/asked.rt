//! The events that the words name.
ghost use Rattle.std.specs.Prelude.{◌≡◌, ◌↔◌, ◌<◌, ◌≤◌, ◌+◌, ◌*◌, ◌++◌, ◌∷◌, [], All, List, length, take, map};
ghost use Rattle.std.specs.Prelude.{IsTrue, MatchOption, string_bytes};
ghost use Rattle.std.specs.Fmt.{decimal};
ghost use Rattle.whence_trail.specs.declared.trail.Pair.{Pair};
ghost use Rattle.whence_top.specs.Asking.{AsksFor, AsksForNone, MayAsk, words_of};

use pl_base::layout::MAX_HARTS;
use pl_text::parse_number;
use std::marker::Model;
use whence_trail::Pair;

/// How many events are asked for, at most.
const MAX_PAIRS: usize = 8;

/// The events that are asked for, in the order of the words.
#[derive(Drop)]
pub struct Asked {
    pairs: [Pair; MAX_PAIRS],
    count: usize,
}

impl Model for Asked {
    ghost Value = { List Pair };

    ghost view = { λ asked. take asked.count asked.pairs };

    ghost invariant = { λ asked. asked.count ≤ 8 };
}

impl Asked {
    /// The 1 to 8 pairs that the words spell: a hart, 0 to 7, and the number of an event in it, from 1, both decimal.
    pub fn parse(words: &[String]) -> Option<Asked>
        ensures { let words = map string_bytes words.now in
            MatchOption result (AsksForNone words) (AsksFor words) }
    {
        if may_ask(words) {
            parse_more(Asked::new(), words)
        } else {
            None
        }
    }

    fn new() -> Asked
        ensures { result ≡ [] }
    {
        let none = Pair { hart: 0, number: 0 };
        Asked {
            pairs: [none; MAX_PAIRS],
            count: 0,
        }
    }

    fn push(&mut self, pair: Pair)
        requires { length self.old < 8 }
        ensures { self.new ≡ self.old ++ pair ∷ [] }
    {
        self.pairs[self.count] = pair;
        self.count += 1;
    }

    /// The pairs.
    pub fn pairs(&self) -> &[Pair]
        ensures { result.now ≡ self.now }
    {
        &self.pairs[..self.count]
    }
}

/// Whether there are words, and at most two for each pair.
fn may_ask(words: &[String]) -> bool
    ensures { IsTrue result ↔ ((1 ≤ length words.now) × (length words.now ≤ 16)) }
{
    !words.is_empty() && words.len() <= 2 * MAX_PAIRS
}

/// These pairs, and after them those that the words spell.
fn parse_more(asked: Asked, words: &[String]) -> Option<Asked>
    requires { 2 * length asked + length words.now ≤ 16 }
    ensures { let words = map string_bytes words.now in MatchOption result
        ((pairs : List Pair) → All MayAsk pairs → words ≡ words_of pairs → ⊥)
        (λ all. (pairs : List Pair) × (all ≡ asked ++ pairs) × All MayAsk pairs × (words ≡ words_of pairs)) }
{
    match words {
        [] => Some(asked),
        [hart, number, others @ ..] => {
            let mut asked = asked;
            asked.push(parse_pair(hart.as_bytes(), number.as_bytes())?);
            parse_more(asked, others)
        }
        _ => None,
    }
}

/// The event that two words name.
fn parse_pair(hart: &[u8], number: &[u8]) -> Option<Pair>
    ensures { MatchOption result
        ((pair : Pair) → MayAsk pair → hart.now ≡ decimal pair.hart → number.now ≡ decimal pair.number → ⊥)
        (λ pair. MayAsk pair × (hart.now ≡ decimal pair.hart) × (number.now ≡ decimal pair.number)) }
{
    let hart = parse_number(hart, 10, u32::from(MAX_HARTS - 1))?;
    let number = parse_number(number, 10, u32::MAX)?;
    if number == 0 {
        None
    } else {
        Some(Pair {
            hart: hart as u8,
            number,
        })
    }
}
