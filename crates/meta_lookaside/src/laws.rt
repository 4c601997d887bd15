//! What a look-aside holds after any calls.
ghost use Rattle.std.specs.Prelude.{◌≡◌, ℕ, List};
ghost use Rattle.meta_lookaside.specs.LookAside.{found, slot_of, frame_in};
ghost use Rattle.meta_lookaside.specs.Calls.{Call, after, last_entry};

/// Whatever the calls: what is found for a page is what the last entry into its slot since the last flush says of it.
pub fn last_entry_is_found()
    ensures { (calls : List Call) (page : ℕ) →
        found (after calls) page ≡ frame_in (last_entry calls (slot_of page)) page }
{}
