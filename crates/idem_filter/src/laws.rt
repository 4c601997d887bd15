//! What a filter holds after any calls.
ghost use Rattle.std.specs.Prelude.{◌≡◌, ℕ, List};
ghost use Rattle.idem_filter.specs.Filter.{hits, slot_of, is_check};
ghost use Rattle.idem_filter.specs.Calls.{Call, after, last_check};

/// Whatever the calls: a check hits exactly where it was the last one entered into its slot since the last flush.
pub fn last_check_hits()
    ensures { (calls : List Call) (addr width : ℕ) →
        hits (after calls) addr width ≡ is_check (last_check calls (slot_of addr)) addr width }
{}
