//! What the operations of an event leave in words that represent a plain state.
ghost use Rattle.std.specs.Prelude.{◌≡◌, ℕ, ◌<◌, ◌≤◌, List, length, slice_index};
ghost use Rattle.pl_event.specs.declared.event.Kind.{Kind};
ghost use Rattle.pl_event.specs.declared.log.Log.{Log};
ghost use Rattle.pl_event.specs.Mapping.{KeepsPages};
ghost use Rattle.pl_event.specs.Numbers.{events_of};
ghost use Rattle.pl_event.specs.Runs.{IsRunLog};
ghost use Rattle.pl_event.specs.Valid.{HasValidFields};
ghost use Rattle.lifeguard.specs.Ranges.{AreNibbles};
ghost use Rattle.lifeguard.specs.Rules.{Rules, KeepsLaws};
ghost use Rattle.lifeguard.specs.State.{Bytes, Masks};
ghost use Rattle.lifeguard.specs.Plain.{bytes_after, plain_result};
ghost use Rattle.order_core.specs.Filled.{AllSound, words_after};
ghost use Rattle.order_core.specs.Lawful.{IsTable};
ghost use Rattle.order_core.specs.Shapes.{AreSoundShapes, after_shapes};
ghost use Rattle.shadow_frames.specs.declared.words.TheConstants.{TABLE_WORDS};
ghost use Rattle.shadow_frames.specs.Words.{WordsRepresent, has_page};
ghost use Rattle.shadow_frames.specs.Opening.{opening_words};
ghost use Rattle.shadow_layout.specs.Operations.{shapes};
ghost use Rattle.shadow_layout.specs.Logs.{log_shapes, state_before};

/// An event's operations leave words that represent the bytes that the plain rules leave. They are on words of the
/// table, leave the lanes that they do not name, and are fewer than 2^32 - 1.
pub fn event_operations()
    ensures represented { (rules : Rules) (size hart : ℕ) (masks : Masks) (bytes : Bytes) (w : ℕ → ℕ) (kind : Kind)
        → KeepsLaws rules → AreNibbles bytes → WordsRepresent w bytes → HasValidFields kind
        → KeepsPages (has_page bytes) kind
        → let operations = shapes rules size hart masks w kind in
        WordsRepresent (after_shapes w operations) (bytes_after rules hart kind bytes masks) }
    ensures sound { (rules : Rules) (size hart : ℕ) (masks : Masks) (bytes : Bytes) (w : ℕ → ℕ) (kind : Kind)
        → KeepsLaws rules → AreNibbles bytes → WordsRepresent w bytes → HasValidFields kind
        → KeepsPages (has_page bytes) kind
        → AreSoundShapes TABLE_WORDS (shapes rules size hart masks w kind) }
    ensures few { (rules : Rules) (size hart : ℕ) (masks : Masks) (bytes : Bytes) (w : ℕ → ℕ) (kind : Kind)
        → KeepsLaws rules → AreNibbles bytes → WordsRepresent w bytes → HasValidFields kind
        → length (shapes rules size hart masks w kind) < 4294967295 }
{}

/// Before each line of a run's log, and after the last one, the words that the operations of the lines before it leave
/// represent the plain state. Each line has sound operations, and the opening words make a table.
pub fn log_operations()
    ensures represented { (rules : Rules) (log : Log) (opening : List ℕ) → KeepsLaws rules → IsRunLog log
        → slice_index opening ≡ opening_words rules.page_state log.pages → (i : ℕ) → i ≤ length log.lines
        → WordsRepresent (words_after (log_shapes rules log) opening i) (state_before rules log i).bytes }
    ensures last { (rules : Rules) (log : Log) (opening : List ℕ) → KeepsLaws rules → IsRunLog log
        → slice_index opening ≡ opening_words rules.page_state log.pages
        → WordsRepresent (words_after (log_shapes rules log) opening (length log.lines))
        (plain_result rules log.pages (events_of log.lines)).bytes }
    ensures sound { (rules : Rules) (log : Log) (opening : List ℕ) → KeepsLaws rules → IsRunLog log
        → slice_index opening ≡ opening_words rules.page_state log.pages → length opening ≡ TABLE_WORDS
        → AllSound (log_shapes rules log) opening (length log.lines) }
    ensures table { (rules : Rules) (log : Log) (opening : List ℕ) → KeepsLaws rules → IsRunLog log
        → slice_index opening ≡ opening_words rules.page_state log.pages → length opening ≡ TABLE_WORDS
        → IsTable opening }
{}
