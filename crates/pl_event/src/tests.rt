//! Lines of a small log: kept, numbered, and as a worker takes them.
ghost use Rattle.std.specs.Prelude.{◌≡◌, IfOk, length};
ghost use Rattle.pl_event.specs.Edges.{IsFlow};

use crate::{
    Arcs, Event, Fed, Kind, Line, Lines, Log, PageKind, PageRun, PageRuns, Point, Record,
    conflicts, fed_of, first_unordered, grown_paths, is_alert, log_paths, mapped_pages,
    noticed_paths, stream, valid_event,
};
use pl_base::LoadWidth;
use std::alloc::{AllocError, Global};
use std::test::Fail;

#[test]
fn a_load_of_the_last_word_is_valid_and_no_alert(rt: HostRuntime) {
    let load = |addr| Event {
        hart: 0,
        kind: Kind::Ld {
            width: LoadWidth::W,
            rd: 33,
            rb: 0,
            addr,
        },
    };
    assert!(rt; valid_event(&load(0xff_fffc), 1));
    assert!(rt; !valid_event(&load(0xff_fffe), 1));
    assert!(rt; !is_alert(&load(0).kind));
}

/// Hart 1 is told of the first record of hart 0, that record comes, and hart 1 goes on after it.
fn told_log(alloc: Global) -> Result<Log, AllocError>
    ensures { IfOk result (λ log. (log.harts ≡ 2) × (length log.lines ≡ 3) × IsFlow 2 log.lines) }
{
    let mut lines = Lines::new(alloc);
    lines.push_record(Record::Notice {
        hart: 1,
        of: Point { hart: 0, number: 1 },
    })?;
    let (addr, len) = (0x40_0000, 16);
    lines.push_record(Record::Event(Event {
        hart: 0,
        kind: Kind::Al { addr, len },
    }))?;
    let mut arcs = Arcs::none();
    arcs.set(0, Some(1));
    let kind = Kind::Im { rd: 5 };
    let what = Record::Event(Event { hart: 1, kind });
    lines.push(Line { what, arcs })?;
    let run = PageRun {
        first: 1024,
        count: 16,
        kind: PageKind::Heap,
    };
    let mut pages = PageRuns::new(alloc);
    pages.push(run)?;
    Ok(Log {
        harts: 2,
        block: 16,
        pages,
        lines,
    })
}

#[test]
fn each_line_has_its_place_its_number_and_what_it_needs(rt: HostRuntime) -> Result<(), Fail> {
    log_paths();
    grown_paths();
    noticed_paths();
    first_unordered();
    mapped_pages();
    conflicts();
    let log = told_log(rt.alloc())?;
    let (mut of_alert, mut of_notice) = (Arcs::none(), Arcs::none());
    of_alert.set(0, Some(1));
    of_notice.set(1, Some(1));
    let fed = |place, event_number, at, needs| Fed {
        place,
        event_number,
        line: log.lines.get(at),
        needs,
    };
    let of_0 = fed_of(rt.alloc(), &log, 0).or(Err(AllocError))?;
    let of_1 = fed_of(rt.alloc(), &log, 1).or(Err(AllocError))?;
    assert_eq!(rt; of_0.as_slice(), [fed(1, 1, 1, of_notice)].as_slice());
    assert_eq!(rt;
        of_1.as_slice(),
        [fed(0, 0, 0, Arcs::none()), fed(2, 1, 2, of_alert)].as_slice()
    );
    Ok(())
}

#[test]
fn a_stream_has_the_positions_of_the_records_of_a_hart(rt: HostRuntime) -> Result<(), Fail> {
    let log = told_log(rt.alloc())?;
    assert!(rt; !log.lines.is_empty() && log.pages.as_slice().len() == 1);
    let positions = stream(rt.alloc(), &log, 1).or(Err(AllocError))?;
    assert_eq!(rt; positions.as_slice(), [0, 2].as_slice());
    Ok(())
}
