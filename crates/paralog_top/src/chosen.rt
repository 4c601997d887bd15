//! The probes that the words name.
ghost use Rattle.std.specs.Prelude.{◌≡◌, ◌↔◌, ◌<◌, ◌≤◌, ◌+◌, ◌^◌, ◌++◌, ◌∷◌, [], List, ℕ, length, take, map};
ghost use Rattle.std.specs.Prelude.{All, IsTrue, MatchOption, bytes_eq, string_bytes};
ghost use Rattle.std.specs.List.{list_any, position_from};
ghost use Rattle.paralog_top.specs.ProbeNames.{AreChosen, IsFirst, names_at, place_named};
ghost use Rattle.paralog_top.specs.ProbeNames.{are_different as are_different_names};

use replay_probes::Probe;
use std::marker::Model;

/// How many probes are named at most.
const MAX_NAMES: usize = 8;

/// The places of the named probes among those that were handed in, in the order of the names.
#[derive(Drop)]
pub struct Chosen {
    places: [usize; 8],
    count: usize,
}

impl Model for Chosen {
    ghost Value = { List ℕ };

    ghost view = { λ chosen. take chosen.count chosen.places };

    ghost invariant = { λ chosen. chosen.count ≤ 8 };
}

impl Chosen {
    /// The first probes of these names: 1 to 8 different ones.
    pub fn parse(names: &[String], probes: &[Box<dyn Probe>]) -> Option<Chosen>
        ensures { let meanings = map (λ p. meaning p) probes.now in
            let words = map string_bytes names.now in
            MatchOption result ((places : List ℕ) → AreChosen meanings places → words ≡ names_at meanings places → ⊥)
            (λ places. AreChosen meanings places × (words ≡ names_at meanings places)) }
    {
        if may_name(names) {
            Chosen::first_named(names, probes)
        } else {
            None
        }
    }

    /// The first probes of these names, at most 8.
    fn first_named(names: &[String], probes: &[Box<dyn Probe>]) -> Option<Chosen>
        requires { length names.now ≤ 8 }
        ensures { let meanings = map (λ p. meaning p) probes.now in
            let words = map string_bytes names.now in
            MatchOption result
            ((places : List ℕ) → All (IsFirst meanings) places → words ≡ names_at meanings places → ⊥)
            (λ places. All (IsFirst meanings) places × (words ≡ names_at meanings places)) }
    {
        let mut chosen = Chosen::new();
        for name in names {
            chosen.push(place_of(name.as_str(), probes)?);
        }
        Some(chosen)
    }

    fn new() -> Chosen
        ensures { result ≡ [] }
    {
        Chosen {
            places: [0; MAX_NAMES],
            count: 0,
        }
    }

    fn push(&mut self, place: usize)
        requires { length self.old < 8 }
        ensures { self.new ≡ self.old ++ place ∷ [] }
    {
        self.places[self.count] = place;
        self.count += 1;
    }

    /// The places.
    pub fn places(&self) -> &[usize]
        ensures { result.now ≡ self.now }
    {
        &self.places[..self.count]
    }
}

/// Whether these are 1 to 8 different names.
fn may_name(names: &[String]) -> bool
    ensures { let words = map string_bytes names.now in
        IsTrue result ↔ ((1 ≤ length words) × (length words ≤ 8) × IsTrue (are_different_names words)) }
{
    !names.is_empty() && names.len() <= MAX_NAMES && are_different(names)
}

/// Whether no name comes twice.
fn are_different(names: &[String]) -> bool
    ensures { result ≡ are_different_names (map string_bytes names.now) }
{
    match names {
        [] => true,
        [name, others @ ..] => !has_name(others, name.as_str()) && are_different(others),
    }
}

fn has_name(names: &[String], name: &str) -> bool
    ensures { result ≡ list_any (λ other. bytes_eq other name.now) (map string_bytes names.now) }
{
    match names {
        [] => false,
        [other, others @ ..] => other.as_str() == name || has_name(others, name),
    }
}

/// The place of the first probe with this name.
fn place_of(name: &str, probes: &[Box<dyn Probe>]) -> Option<usize>
    ensures { result ≡ place_named (map (λ p. meaning p) probes.now) name.now }
{
    place_from(0, name, probes)
}

/// The same of later probes, which begin at a place.
fn place_from(at: usize, name: &str, probes: &[Box<dyn Probe>]) -> Option<usize>
    requires { at + length probes.now < 2 ^ 64 }
    ensures { result ≡ position_from (λ m. bytes_eq m.name name.now) at (map (λ p. meaning p) probes.now) }
{
    match probes {
        [] => None,
        [probe, others @ ..] => {
            if is_named(probe, name) {
                Some(at)
            } else {
                place_from(at + 1, name, others)
            }
        }
    }
}

fn is_named(probe: &Box<dyn Probe>, name: &str) -> bool
    ensures { result ≡ bytes_eq (meaning probe.now).name name.now }
{
    probe.name() == name
}
