//! The pages that are mapped.
ghost use Rattle.std.specs.Prelude.{◌≡◌, ◌+◌, ◌≤◌, length, false, true, not, IfOk};
ghost use Rattle.pl_base.specs.declared.layout.TheConstants.{PAGE_COUNT};
ghost use Rattle.log_text.specs.Pages.{holds_at, some_page};
ghost use Rattle.pl_base.specs.Pages.{marked, count_below};

use pl_base::layout::PAGE_COUNT;
use std::alloc::{AllocError, Global};

/// Which pages are mapped, and how many.
#[derive(Drop)]
pub struct PageSet {
    pages: Vec<bool>,
    mapped: u32,
    ghost all_pages: { length pages.items ≡ PAGE_COUNT },
    ghost counted: { mapped ≡ count_below (holds_at pages.items) PAGE_COUNT },
}

impl PageSet {
    ghost use Rattle.std.specs.Prelude.{ℕ, ◌<◌};

    /// No page is mapped.
    pub fn new(alloc: Global) -> Result<PageSet, AllocError>
        ensures { IfOk result (λ set. holds_at set.pages.items ≡ (λ page. false)) }
    {
        Ok(PageSet {
            pages: unmapped(alloc, PAGE_COUNT as usize)?,
            mapped: 0,
        })
    }

    /// How many pages are mapped.
    #[inline]
    pub fn count(&self) -> u32
        ensures { result ≡ count_below (holds_at self.now.pages.items) PAGE_COUNT }
    {
        self.mapped
    }

    /// Whether one of `count` pages from `first` on is mapped.
    pub fn holds_some(&self, first: u32, count: u32) -> bool
        requires { first + count ≤ PAGE_COUNT }
        ensures { result ≡ some_page (holds_at self.now.pages.items) first count }
    {
        some_marked(&self.pages, first as usize, count as usize)
    }

    /// Whether one of `count` pages from `first` on is not mapped.
    pub fn lacks_some(&self, first: u32, count: u32) -> bool
        requires { first + count ≤ PAGE_COUNT }
        ensures { result ≡ some_page (λ page. not (holds_at self.now.pages.items page)) first count }
    {
        some_unmarked(&self.pages, first as usize, count as usize)
    }

    /// Maps `count` pages from `first` on, or unmaps them.
    pub fn mark(&mut self, first: u16, count: u16, mapped: bool)
        ensures { first + count ≤ PAGE_COUNT →
            holds_at self.new.pages.items ≡ marked (holds_at self.old.pages.items) first count mapped }
    {
        let from = u32::from(first);
        let end = (from + u32::from(count)).min(PAGE_COUNT);
        'pages: for page in from..end {
            self.set(page, mapped);
        }
    }

    /// Maps or unmaps one page.
    fn set(&mut self, page: u32, mapped: bool)
        requires { page < PAGE_COUNT }
        ensures { holds_at self.new.pages.items ≡ marked (holds_at self.old.pages.items) page 1 mapped }
    {
        let at = page as usize;
        let was = self.pages[at];
        if was == mapped {
            return;
        }
        self.pages[at] = mapped;
        if mapped {
            self.mapped += 1;
        } else {
            self.mapped -= 1;
        }
    }
}

/// A table of so many pages, none of them marked.
fn unmapped(alloc: Global, pages: usize) -> Result<Vec<bool>, AllocError>
    ensures { IfOk result (λ table. (length table.items ≡ pages) × (holds_at table.items ≡ (λ page. false))) }
{
    vec![in alloc; false; pages]
}

fn some_marked(pages: &[bool], first: usize, count: usize) -> bool
    requires { first + count ≤ length pages.now }
    ensures { result ≡ some_page (holds_at pages.now) first count }
{
    'pages: for page in first..first + count {
        if pages[page] {
            return true;
        }
    }
    false
}

fn some_unmarked(pages: &[bool], first: usize, count: usize) -> bool
    requires { first + count ≤ length pages.now }
    ensures { result ≡ some_page (λ page. not (holds_at pages.now page)) first count }
{
    'pages: for page in first..first + count {
        if !pages[page] {
            return true;
        }
    }
    false
}
