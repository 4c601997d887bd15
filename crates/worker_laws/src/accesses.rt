//! Loads and stores: their reads, their checks, and what each leaves.
ghost use Rattle.std.specs.Prelude.{◌≡◌, ◌≢◌, ℕ, ◌+◌, ◌*◌, ◌/◌, ◌%◌, ◌<◌, ◌≤◌, ◌⊎◌, List, bit_xor, true, false, Some, None};
ghost use Rattle.pl_base.specs.declared.layout.TheConstants.{BLOCK_BYTES, PAGE_BYTES, PAGE_COUNT};
ghost use Rattle.pl_base.specs.declared.widths.LoadWidth.{LoadWidth};
ghost use Rattle.pl_base.specs.declared.widths.StoreWidth.{StoreWidth};
ghost use Rattle.pl_event.specs.declared.event.Kind.TheVariants.{Ld, St};
ghost use Rattle.lifeguard.specs.declared.guard.Name.TheVariants as name;
ghost use Rattle.lifeguard.specs.declared.report.Report.{Report};
ghost use Rattle.lifeguard.specs.Plain.{is_taint, loaded_mask};
ghost use Rattle.lifeguard.specs.State.{nibble_at};
ghost use Rattle.order_core.specs.Core.{IsNextWrite};
ghost use Rattle.order_core.specs.Course.{At, course_of, operation_of};
ghost use Rattle.order_core.specs.Lanes.{HasValueOf};
ghost use Rattle.guard_table.specs.declared.put.Put.TheVariants.{Flip, Store};
ghost use Rattle.guard_table.specs.declared.view.View.{View};
ghost use Rattle.guard_table.specs.Puts.{IsPutOf};
ghost use Rattle.guard_table.specs.Views.{known_core, wrote};
ghost use Rattle.idem_filter.specs.declared.filter.Check.{Check};
ghost use Rattle.idem_filter.specs.Filter.{entered, hits};
ghost use Rattle.inherit_track.specs.declared.state.Held.{Held};
ghost use Rattle.inherit_track.specs.declared.state.RegState.TheVariants as reg;
ghost use Rattle.inherit_track.specs.States.{LiesIn, with_state};
ghost use Rattle.meta_lookaside.specs.LookAside as look;
ghost use Rattle.shadow_frames.specs.Words.{directory_word, nibble_of, shadow_word};
ghost use Rattle.worker_laws.specs.Runs.{IsFlush, IsKind, IsReach, IsRun, Run, before, reports_before, size};
ghost use Rattle.worker_laws.specs.Reads.{MayReadNow, check_read, directory_of, directory_read, stored_word};
ghost use Rattle.worker_laws.specs.Reads.{value_at, value_read, value_write, word_of};
ghost use Rattle.worker_laws.specs.Folds.{check_at, failed};
ghost use Rattle.worker_laws.specs.Kept.{AreCounted, AreFound, IsReady, Kept, Parts};

/// The reads of a load or a store that is next: of the directory, and on a mapped page for the check and of the value.
/// A word with the value of either has the nibbles of the access.
pub fn access_reads()
    ensures directory { (p : Run) (h n : ℕ) (v : View) (parts : Parts) (c : Check) → IsReady p h v n parts
        → IsReach p h (n + 1) c → MayReadNow p h v (n + 1) 0 (directory_read (before p h (n + 1)).words c.addr) }
    ensures check { (p : Run) (h n : ℕ) (v : View) (parts : Parts) (c : Check) → IsReady p h v n parts
        → IsReach p h (n + 1) c → let w = (before p h (n + 1)).words in
        w (directory_of c.addr) ≢ 0 → p.rules.name ≢ name.Taint
        → MayReadNow p h v (n + 1) 1 (check_read p.plan.log.block w c.addr) }
    ensures value { (p : Run) (h n : ℕ) (v : View) (parts : Parts) (c : Check) → IsReady p h v n parts
        → IsReach p h (n + 1) c → let w = (before p h (n + 1)).words in
        w (directory_of c.addr) ≢ 0 → p.rules.name ≢ name.Addr
        → MayReadNow p h v (n + 1) (value_at p.rules.name) (value_read p.plan.log.block w c.addr) }
    ensures nibbles { (p : Run) → IsRun p → (h m x i : ℕ) (c : Check) → IsReach p h m c
        → let q = before p h m in
        q.words (directory_of c.addr) ≢ 0 → HasValueOf (value_read p.plan.log.block q.words c.addr) x → i < c.width
        → nibble_at q.state.bytes (c.addr + i) ≡ nibble_of x (c.addr % BLOCK_BYTES + i) }
    ensures no_page { (p : Run) → IsRun p → (h m i : ℕ) (c : Check) → IsReach p h m c → let q = before p h m in
        q.words (directory_of c.addr) ≡ 0 → i < c.width → nibble_at q.state.bytes (c.addr + i) ≡ 0 }
    ensures words { (w : ℕ → ℕ) (addr : ℕ) → (directory_of addr ≡ directory_word (addr / PAGE_BYTES))
        × (word_of w addr ≡ shadow_word (w (directory_of addr)) addr) }
{}

/// A check that the filter holds passes, and nothing is entered. Another one is a miss, and entered where it passes.
/// Under a taint check nothing is counted.
pub fn checks_count()
    ensures hit { (p : Run) (h n : ℕ) (v : View) (parts : Parts) (c : Check) → IsReady p h v n parts
        → check_at p h (n + 1) ≡ Some c → hits parts.slots c.addr c.width ≡ true
        → failed p.rules (before p h (n + 1)) c ≡ None }
    ensures counted { (p : Run) (h n : ℕ) (v : View) (parts : Parts) (c : Check) (after : List Report)
        → IsReady p h v n parts → after ≡ reports_before p h (n + 1 + 1) → check_at p h (n + 1) ≡ Some c
        → hits parts.slots c.addr c.width ≡ true
        → AreCounted p h (n + 1) (record parts { checks = parts.checks + 1; reports = after }) }
    ensures passes { (p : Run) (h n : ℕ) (v : View) (parts : Parts) (c : Check) (after : List Report)
        → IsReady p h v n parts → after ≡ reports_before p h (n + 1 + 1) → check_at p h (n + 1) ≡ Some c
        → hits parts.slots c.addr c.width ≡ false → failed p.rules (before p h (n + 1)) c ≡ None
        → AreCounted p h (n + 1) (record parts {
          slots = entered parts.slots c.addr c.width;
          checks = parts.checks + 1;
          misses = parts.misses + 1;
          reports = after;
        }) }
    ensures fails { (p : Run) (h n a : ℕ) (v : View) (parts : Parts) (c : Check) (after : List Report)
        → IsReady p h v n parts → after ≡ reports_before p h (n + 1 + 1) → check_at p h (n + 1) ≡ Some c
        → hits parts.slots c.addr c.width ≡ false → failed p.rules (before p h (n + 1)) c ≡ Some a
        → AreCounted p h (n + 1)
        (record parts { checks = parts.checks + 1; misses = parts.misses + 1; reports = after }) }
    ensures unchecked { (p : Run) (h n : ℕ) (v : View) (parts : Parts) (c : Check) (after : List Report)
        → IsReady p h v n parts → after ≡ reports_before p h (n + 1 + 1) → IsReach p h (n + 1) c
        → is_taint p.rules.name ≡ true → AreCounted p h (n + 1) (record parts { reports = after }) }
{}

/// What the look-aside finds for a page is its frame before the next load or store. It stays so after a record that
/// flushes nothing, also where a frame that the record read in the directory is entered.
pub fn frames_found()
    ensures now { (p : Run) (h n page frame : ℕ) (v : View) (parts : Parts) (c : Check) → IsReady p h v n parts
        → IsReach p h (n + 1) c → look.found parts.look page ≡ Some frame
        → (before p h (n + 1)).words (directory_word page) ≡ frame + 1 }
    ensures next { (p : Run) → IsRun p → (h n : ℕ) (slots : look.Slots) → (IsFlush p h (n + 1) → ⊥)
        → AreFound p h slots n → AreFound p h slots (n + 1) }
    ensures entered { (p : Run) → IsRun p → (h n page frame : ℕ) (slots : look.Slots)
        → (IsFlush p h (n + 1) → ⊥) → n + 1 ≤ size p h → page < PAGE_COUNT
        → (before p h (n + 1)).words (directory_word page) ≡ frame + 1 → AreFound p h slots n
        → AreFound p h (look.entered slots page frame) (n + 1) }
    ensures reaches { (p : Run) (h m : ℕ) (c : Check) → IsReach p h m c → IsFlush p h m → ⊥ }
{}

/// A load is taken with its mask known, or held for later.
pub fn loads_keep()
    ensures known { (p : Run) (h n rd rb addr : ℕ) (width : LoadWidth) (v : View) (parts after : Parts)
        → IsReady p h v n parts → IsKind p h (n + 1) (Ld width rd rb addr)
        → let mask = loaded_mask p.rules width (before p h (n + 1)).state.bytes addr in
        ((r : ℕ) → after.states r ≡ with_state parts.states rd (reg.Known mask) r)
        → AreFound p h after.look (n + 1) → AreCounted p h (n + 1) after → Kept p h v (n + 1) after }
    ensures held { (p : Run) (h n rd rb addr : ℕ) (width : LoadWidth) (v : View) (parts after : Parts)
        → IsReady p h v n parts → IsKind p h (n + 1) (Ld width rd rb addr) → p.rules.name ≢ name.Addr
        → (before p h (n + 1)).words (directory_of addr) ≢ 0
        → let from : Held = record { addr = addr; width = width; number = n + 1 } in
        ((r : ℕ) → after.states r ≡ with_state parts.states rd (reg.Held from) r)
        → AreFound p h after.look (n + 1) → AreCounted p h (n + 1) after → Kept p h v (n + 1) after }
    ensures clear { (p : Run) → IsRun p → p.rules.name ≡ name.Addr → (m addr : ℕ) (width : LoadWidth)
        → loaded_mask p.rules width (p.moment m).state.bytes addr ≡ 0 }
{}

/// A store on a mapped page is the hart's next write. It puts what becomes of the word that the read of its value
/// found, whole where blocks have 16 bytes, or else by the bits that differ. It is taken where no held load lies in its
/// block. One on another page, or under an address check, writes nothing.
pub fn stores_keep()
    ensures write { (p : Run) (h n rv rb addr : ℕ) (width : StoreWidth) (v : View) (parts : Parts)
        → IsReady p h v n parts → IsKind p h (n + 1) (St width rv rb addr) → p.rules.name ≢ name.Addr
        → let q = before p h (n + 1) in q.words (directory_of addr) ≢ 0
        → let s = stored_word p.rules (q.state.masks h rv) width addr in
        let o = value_write p.plan.log.block q.words addr s in
        let a = operation_of h (n + 1) (value_at p.rules.name + 1) o in
        (at : ℕ) × IsNextWrite (course_of p.plan) (known_core v) h at a }
    ensures store { (p : Run) (h n rv rb addr x at : ℕ) (width : StoreWidth) (v : View) (parts : Parts)
        → IsReady p h v n parts → IsKind p h (n + 1) (St width rv rb addr) → p.rules.name ≢ name.Addr
        → let q = before p h (n + 1) in q.words (directory_of addr) ≢ 0
        → HasValueOf (value_read p.plan.log.block q.words addr) x
        → let s = stored_word p.rules (q.state.masks h rv) width addr in
        let o = value_write p.plan.log.block q.words addr s in
        let a = operation_of h (n + 1) (value_at p.rules.name + 1) o in
        At (course_of p.plan) at a → p.plan.log.block ≡ BLOCK_BYTES
        → IsPutOf (course_of p.plan) at a (Store (s x)) }
    ensures flip { (p : Run) (h n rv rb addr x at : ℕ) (width : StoreWidth) (v : View) (parts : Parts)
        → IsReady p h v n parts → IsKind p h (n + 1) (St width rv rb addr) → p.rules.name ≢ name.Addr
        → let q = before p h (n + 1) in q.words (directory_of addr) ≢ 0
        → HasValueOf (value_read p.plan.log.block q.words addr) x
        → let s = stored_word p.rules (q.state.masks h rv) width addr in
        let o = value_write p.plan.log.block q.words addr s in
        let a = operation_of h (n + 1) (value_at p.rules.name + 1) o in
        At (course_of p.plan) at a → IsPutOf (course_of p.plan) at a (Flip (bit_xor x (s x))) }
    ensures written { (p : Run) (h n rv rb addr : ℕ) (width : StoreWidth) (v : View) (parts after : Parts)
        → IsReady p h v n parts → IsKind p h (n + 1) (St width rv rb addr) → p.rules.name ≢ name.Addr
        → (before p h (n + 1)).words (directory_of addr) ≢ 0 → let block = p.plan.log.block in
        ((r : ℕ) (from : Held) → parts.states r ≡ reg.Held from → LiesIn (block * (addr / block)) block from → ⊥)
        → ((r : ℕ) → after.states r ≡ parts.states r) → AreFound p h after.look (n + 1)
        → AreCounted p h (n + 1) after → Kept p h (wrote v) (n + 1) after }
    ensures unwritten { (p : Run) (h n rv rb addr : ℕ) (width : StoreWidth) (v : View) (parts after : Parts)
        → IsReady p h v n parts → IsKind p h (n + 1) (St width rv rb addr)
        → ((before p h (n + 1)).words (directory_of addr) ≡ 0) ⊎ (p.rules.name ≡ name.Addr)
        → ((r : ℕ) → after.states r ≡ parts.states r) → AreFound p h after.look (n + 1)
        → AreCounted p h (n + 1) after → Kept p h v (n + 1) after }
{}
