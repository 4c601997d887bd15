//! What memory holds before the first step.
ghost use Rattle.std.specs.Prelude.{◌≡◌, ◌/◌, ◌<◌, ◌≤◌, All, IfOk, OnOk};
ghost use Rattle.guest_mem.specs.Memory.{mapped};
ghost use Rattle.pl_event.specs.OpeningPages.{RiseFrom, pages_in};
ghost use Rattle.core_sim.specs.Valid.{IsValidJob};
ghost use Rattle.core_sim.specs.Start.{start_runs, pages_of, text_bytes};
ghost use Rattle.core_sim.specs.Mapping.{IsStartMemory, CanMapRun, CanMapRuns, MapsRun, MapsRuns};
ghost use Rattle.pl_base.specs.declared.layout.TheConstants.{MEMORY_BYTES, MAX_DATA_BYTES, MAX_MAPPED_PAGES};

use crate::job::Job;
use guest_mem::{MapFault, PagedMem};
use pl_base::NoMemory;
use pl_base::layout::{
    DATA_START, HEAP_END, HEAP_START, PAGE_BYTES, STACK_BYTES, STACKS_START, TEXT_START,
};
use pl_event::{PageKind, PageRun};
use std::alloc::Global;

/// The runs of pages that are mapped before the first step: the text, the data if there are any, the heap, the stacks.
///
/// # Errors
///
/// `NoMemory` where none was left for the list.
pub fn start_pages(alloc: Global, job: &Job) -> Result<Vec<PageRun>, NoMemory>
    requires { IsValidJob job.now }
    ensures runs { IfOk result (λ runs. runs.items ≡ start_runs job.now) }
    ensures rising { IfOk result (λ runs. RiseFrom 0 runs.items) }
    ensures few { IfOk result (λ runs. pages_in runs.items ≤ MAX_MAPPED_PAGES) }
{
    let mut runs = Vec::with_capacity(alloc, 4)?;
    runs.push(PageRun {
        first: page_of(TEXT_START),
        count: page_count(4 * job.words.as_slice().len()),
        kind: PageKind::Data,
    })?;
    if !job.data_bytes.as_slice().is_empty() {
        runs.push(PageRun {
            first: page_of(DATA_START),
            count: page_count(job.data_bytes.as_slice().len()),
            kind: PageKind::Data,
        })?;
    }
    runs.push(PageRun {
        first: page_of(HEAP_START),
        count: page_of(HEAP_END - HEAP_START),
        kind: PageKind::Heap,
    })?;
    runs.push(PageRun {
        first: page_of(STACKS_START),
        count: page_of(STACK_BYTES) * u16::from(job.harts),
        kind: PageKind::Stack,
    })?;
    Ok(runs)
}

/// The page of an address of memory.
fn page_of(address: u32) -> u16
    requires { address < MEMORY_BYTES }
    ensures { result ≡ address / PAGE_BYTES }
{
    (address / PAGE_BYTES) as u16
}

/// How many pages so many bytes take.
fn page_count(bytes: usize) -> u16
    requires { bytes ≤ MAX_DATA_BYTES }
    ensures { result ≡ pages_of bytes }
{
    bytes.div_ceil(PAGE_BYTES as usize) as u16
}

/// The memory at the start: zeros, the text and the data.
pub fn start_memory(alloc: Global, job: &Job) -> Result<PagedMem, NoMemory>
    requires { IsValidJob job.now }
    ensures { IfOk result (IsStartMemory job.now) }
{
    let text = text_bytes(alloc, job.words.as_slice())?;
    let runs = start_pages(alloc, job)?;
    let mut mem = PagedMem::new(alloc)?;
    map_run(&mut mem, runs[0], true)?;
    map_runs(&mut mem, &runs[1..])?;
    mem.fill(TEXT_START, &text);
    mem.fill(DATA_START, job.data_bytes.as_slice());
    Ok(mem)
}

/// Maps runs of pages that are no text, one after the other.
fn map_runs(mem: &mut PagedMem, runs: &[PageRun]) -> Result<(), NoMemory>
    requires some { All (λ run. 1 ≤ run.count) runs.now }
    requires can { CanMapRuns (mapped mem.old) runs.now }
    ensures { OnOk result (MapsRuns mem.old mem.new runs.now) }
{
    for run in runs {
        map_run(mem, *run, false)?;
    }
    Ok(())
}

/// Maps a run of pages.
fn map_run(mem: &mut PagedMem, run: PageRun, text: bool) -> Result<(), NoMemory>
    requires some { 1 ≤ run.count }
    requires can { CanMapRun (mapped mem.old) run }
    ensures { OnOk result (MapsRun mem.old mem.new run text) }
{
    match mem.map(run.first, run.count, text) {
        Ok(()) => Ok(()),
        Err(MapFault::NoMemory) => Err(NoMemory),
        Err(MapFault::Range | MapFault::Mapped | MapFault::TooMany) => unreachable!(),
    }
}

/// The bytes of words, each with its lowest byte first.
fn text_bytes(alloc: Global, words: &[u32]) -> Result<Vec<u8>, NoMemory>
    ensures { IfOk result (λ bytes. bytes.items ≡ text_bytes words.now) }
{
    let mut bytes = Vec::new(alloc);
    for word in words {
        bytes.extend_from_slice(&word.to_le_bytes())?;
    }
    Ok(bytes)
}
