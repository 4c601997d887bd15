//! Which calls are to fail.
ghost use Rattle.std.specs.Prelude.{◌≡◌, ◌↔◌, ◌<◌, ◌≤◌, ◌^◌, IsTrue};
ghost use Rattle.pl_base.specs.Causes.{Rose};
ghost use Rattle.pl_base.specs.FaultPlan.{NamesNext, new_plan, after_call, after_fault};

use std::marker::Model;

/// Which calls are to fail, by their numbers from 1, and how many were made and failed.
///
/// Both counts stay at the last value of `u64`. No call can be named from there on, since names have 32 bits.
#[derive(Drop)]
pub(crate) struct FaultPlan {
    fails: Vec<u32>,
    calls: u64,
    faults: u64,
}

impl Model for FaultPlan {
    ghost use Rattle.std.specs.Prelude.{◌<◌, ◌^◌};
    ghost use Rattle.pl_base.specs.FaultPlan.{Plan};

    ghost Value = { Plan };

    ghost view = { λ p. record { fails = p.fails.items; calls = p.calls; faults = p.faults } };

    ghost invariant = { λ p. p.faults < 2 ^ 64 };
}

impl FaultPlan {
    pub(crate) fn new(fails: Vec<u32>) -> FaultPlan
        ensures { result ≡ new_plan fails.items }
    {
        FaultPlan {
            fails,
            calls: 0,
            faults: 0,
        }
    }

    /// Whether the next call is to fail.
    pub(crate) fn names_next(&self) -> bool
        ensures { IsTrue result ↔ NamesNext self.now }
    {
        let number = self.calls.saturating_add(1);
        self.fails.iter().any(|&named| u64::from(named) == number)
    }

    /// Counts a call that did not fail.
    pub(crate) fn count_call(&mut self)
        ensures after { self.new ≡ after_call self.old }
        ensures counted { self.new.faults < 2 ^ 64 }
    {
        self.calls = self.calls.saturating_add(1);
    }

    /// Counts a call that failed.
    pub(crate) fn count_fault(&mut self)
        ensures after { self.new ≡ after_fault self.old }
        ensures later { self.old.faults ≤ self.new.faults }
        ensures rose { Rose self.old.faults self.new.faults }
    {
        self.calls = self.calls.saturating_add(1);
        self.faults = self.faults.saturating_add(1);
    }
}
