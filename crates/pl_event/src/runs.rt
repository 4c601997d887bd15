//! What holds of the log of every run.
ghost use Rattle.std.specs.Prelude.{◌≡◌, ℕ, ◌+◌, ◌≤◌, ◌<◌, true, length};
ghost use mathlib.Core.Option.{some};
ghost use lib.ListN.{get_elem?};
ghost use Rattle.pl_base.specs.declared.layout.TheConstants.{MAX_MAPPED_PAGES, PAGE_COUNT};
ghost use Rattle.pl_base.specs.Pages.{count_below};
ghost use Rattle.pl_event.specs.declared.log.Line.{Line};
ghost use Rattle.pl_event.specs.declared.log.Log.{Log};
ghost use Rattle.pl_event.specs.Mapping.{mapped_after, mapped_at};
ghost use Rattle.pl_event.specs.OpeningPages.{is_in_runs};
ghost use Rattle.pl_event.specs.Runs.{IsRunLog};

/// At first the pages of the log's runs are mapped, and each line changes them as its event says. Before each line, and
/// at the end, at most 512 pages are mapped, all of them inside memory.
pub fn mapped_pages()
    ensures first { (log : Log) → mapped_at log 0 ≡ is_in_runs log.pages }
    ensures next { (log : Log) (i : ℕ) (line : Line) → get_elem? log.lines i ≡ some line →
        mapped_at log (i + 1) ≡ mapped_after (mapped_at log i) line }
    ensures inside { (log : Log) → IsRunLog log → (i : ℕ) → i ≤ length log.lines →
        (page : ℕ) → mapped_at log i page ≡ true → page < PAGE_COUNT }
    ensures few { (log : Log) → IsRunLog log → (i : ℕ) → i ≤ length log.lines →
        count_below (mapped_at log i) PAGE_COUNT ≤ MAX_MAPPED_PAGES }
{}
