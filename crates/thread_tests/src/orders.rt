//! A load on one thread that waits for the store on another.

use crate::gates::Order;
use crate::logs::log_of;
use log_watch::watch_on_threads;
use memcheck::MemCheck;
use std::test::Fail;

/// A store, and a load of another hart that needs it.
pub const TEXT: &str =
    "PLOG 1 harts 2 block 16\npage 256 1 data\nh0 st w 5 6 100000\nh1 ld w 5 6 100000 < 0:1\nh1 im 5\n";

#[test]
fn a_load_waits_for_the_store_that_it_needs(rt: HostRuntime) -> Result<(), Fail> {
    let log = log_of(rt.alloc(), TEXT)?;
    let gate = Order::new();
    let watched = watch_on_threads(&rt, rt.alloc(), MemCheck, &log, 2, &gate)?;
    assert!(rt; gate.was_held());
    assert_eq!(rt; gate.early(), 0);
    for result in &watched.results {
        assert!(rt; result.reports.is_empty());
        assert_eq!(rt; result.masks, [0; 34]);
    }
    let page = watched
        .words
        .iter()
        .filter(|word| **word == 0x3333_3333_3333_3333);
    assert_eq!(rt; page.count(), 256);
    Ok(())
}
