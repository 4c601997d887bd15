//! What mapping and unmapping pages makes of the words and of the bytes that they represent.
ghost use Rattle.std.specs.Prelude.{◌≡◌, ◌≢◌, ℕ, ◌+◌, ◌*◌, ◌-◌, ◌^◌, ◌<◌, ◌≤◌, ◌==◌, Bool, true, false, List, [], ◌∷◌, length, slice_get, None, Some, if◌then◌else◌};
ghost use Rattle.pl_base.specs.declared.layout.TheConstants.{MAX_MAPPED_PAGES, PAGE_COUNT};
ghost use Rattle.pl_event.specs.declared.log.PageKind.TheVariants.{Data, Heap, Stack};
ghost use Rattle.pl_event.specs.declared.log.PageRun.{PageRun};
ghost use Rattle.pl_event.specs.OpeningPages.{RiseFrom, pages_in};
ghost use Rattle.lifeguard.specs.Rules.{Rules, KeepsLaws};
ghost use Rattle.lifeguard.specs.State.{Bytes, first_state, paged};
ghost use Rattle.order_core.specs.declared.course.TheConstants.{FIRST_WORD};
ghost use Rattle.pl_base.specs.Pages.{count_below};
ghost use Rattle.shadow_frames.specs.Opening.{opening_words, state_in};
ghost use Rattle.order_core.specs.Shapes.{Shape, AreSoundShapes, fill, after_shapes};
ghost use Rattle.shadow_frames.specs.declared.words.TheConstants.{TABLE_WORDS};
ghost use Rattle.shadow_frames.specs.Words.{WordsRepresent, AreFirstFrames, IsFilledWith, bit, directory_word, has_page, is_used, mapped_pages};
ghost use Rattle.shadow_frames.specs.Frames.{lowest_free, map_page, unmap_page, pages_from, frame_shapes};

/// A bit that is not set can be added, and one that is set taken away.
pub fn one_bit()
    ensures set { (v k j : ℕ) → bit v k ≡ false → bit (v + 2 ^ k) j ≡ (if j == k then true else bit v j) }
    ensures clear { (v k j : ℕ) → bit v k ≡ true → bit (v - 2 ^ k) j ≡ (if j == k then false else bit v j) }
    ensures fits { (v k n : ℕ) → v < 2 ^ n → k < n → bit v k ≡ false → v + 2 ^ k < 2 ^ n }
{}

/// Where fewer than 512 pages are mapped, a frame is free.
pub fn a_frame_is_free()
    ensures { (w : ℕ → ℕ) (bytes : Bytes) → WordsRepresent w bytes → mapped_pages w < MAX_MAPPED_PAGES
        → (lowest_free w < MAX_MAPPED_PAGES) × (is_used w (lowest_free w) ≡ false) }
{}

/// Where unmapped pages are mapped, words represent what that makes of the bytes, and the operations are on words of
/// the table.
pub fn pages_mapped()
    ensures represented { (w : ℕ → ℕ) (bytes : Bytes) (first n s filling : ℕ) → WordsRepresent w bytes
        → IsFilledWith filling s → first + n ≤ PAGE_COUNT
        → ((p : ℕ) → first ≤ p → p < first + n → w (directory_word p) ≡ 0) → mapped_pages w + n ≤ MAX_MAPPED_PAGES
        → WordsRepresent (after_shapes w (pages_from (map_page filling) w first n)) (paged (Some s) first n bytes) }
    ensures sound { (w : ℕ → ℕ) (bytes : Bytes) (first n s filling : ℕ) → WordsRepresent w bytes
        → IsFilledWith filling s → first + n ≤ PAGE_COUNT
        → ((p : ℕ) → first ≤ p → p < first + n → w (directory_word p) ≡ 0) → mapped_pages w + n ≤ MAX_MAPPED_PAGES
        → AreSoundShapes TABLE_WORDS (pages_from (map_page filling) w first n) }
{}

/// And where mapped pages are unmapped.
pub fn pages_unmapped()
    ensures represented { (w : ℕ → ℕ) (bytes : Bytes) (first n : ℕ) → WordsRepresent w bytes → first + n ≤ PAGE_COUNT
        → ((p : ℕ) → first ≤ p → p < first + n → w (directory_word p) ≢ 0)
        → WordsRepresent (after_shapes w (pages_from unmap_page w first n)) (paged None first n bytes) }
    ensures sound { (w : ℕ → ℕ) (bytes : Bytes) (first n : ℕ) → WordsRepresent w bytes → first + n ≤ PAGE_COUNT
        → ((p : ℕ) → first ≤ p → p < first + n → w (directory_word p) ≢ 0)
        → AreSoundShapes TABLE_WORDS (pages_from unmap_page w first n) }
{}

/// Where the first frames are in use, a page gets the next one.
pub fn next_frame()
    ensures shapes { (w : ℕ → ℕ) (filling p k : ℕ) → k < MAX_MAPPED_PAGES → AreFirstFrames w k
        → map_page filling w p ≡ frame_shapes k p filling }
    ensures frames { (w : ℕ → ℕ) (filling p k : ℕ) → p < PAGE_COUNT → k < MAX_MAPPED_PAGES → AreFirstFrames w k
        → AreFirstFrames (after_shapes w (map_page filling w p)) (k + 1) }
{}

/// Operation j of page k comes after the operations of the pages before it, and is filled from the words that they
/// leave.
pub fn page_operations()
    ensures { (page : (ℕ → ℕ) → ℕ → List Shape) (w : ℕ → ℕ) (p n k j : ℕ) → k < n
        → let before = pages_from page w p k in
        let here = page (after_shapes w before) (p + k) in
        j < length here → slice_get (fill w (pages_from page w p n)) (length before + j)
        ≡ slice_get (fill (after_shapes w before) here) j }
{}

/// The opening words represent the bytes of the first state, and the words that no operation names are 0.
pub fn opening_represents()
    ensures represented { (rules : Rules) (pages : List PageRun) → KeepsLaws rules → RiseFrom 0 pages
        → pages_in pages ≤ MAX_MAPPED_PAGES
        → WordsRepresent (opening_words rules.page_state pages) (first_state rules pages).bytes }
    ensures zeros { (rules : Rules) (pages : List PageRun) → KeepsLaws rules → RiseFrom 0 pages
        → pages_in pages ≤ MAX_MAPPED_PAGES
        → (word : ℕ) → word < FIRST_WORD → opening_words rules.page_state pages word ≡ 0 }
    ensures states { (rules : Rules)
        → state_in (rules.page_state Data ∷ rules.page_state Heap ∷ rules.page_state Stack ∷ []) ≡ rules.page_state }
{}

/// Words that represent bytes have a frame for exactly the pages that are mapped.
pub fn pages_represented()
    ensures count { (w : ℕ → ℕ) (bytes : Bytes) → WordsRepresent w bytes
        → mapped_pages w ≡ count_below (has_page bytes) PAGE_COUNT }
    ensures unmapped { (w : ℕ → ℕ) (bytes : Bytes) → WordsRepresent w bytes → (page : ℕ) → page < PAGE_COUNT
        → has_page bytes page ≡ false → w (directory_word page) ≡ 0 }
    ensures mapped { (w : ℕ → ℕ) (bytes : Bytes) → WordsRepresent w bytes → (page : ℕ) → page < PAGE_COUNT
        → has_page bytes page ≡ true → w (directory_word page) ≢ 0 }
{}
