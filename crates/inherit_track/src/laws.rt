//! What is held after any calls.
ghost use Rattle.std.specs.Prelude.{◌≡◌, ℕ, List};
ghost use Rattle.inherit_track.specs.declared.state.Held.{Held};
ghost use Rattle.inherit_track.specs.declared.state.RegState.{RegState};
ghost use Rattle.inherit_track.specs.declared.state.RegState.TheVariants as reg;
ghost use Rattle.inherit_track.specs.Calls.{Call, LeadTo, IsLoaded};

/// Whatever the calls: a source that is held was loaded, and was not resolved since.
pub fn held_sources_were_loaded()
    ensures { (calls : List Call) (states : ℕ → RegState) → LeadTo calls states →
        (r : ℕ) (from : Held) → states r ≡ reg.Held from → IsLoaded from calls }
{}
