//! More reports than sixteen bits count.

use lifeguard::{EventPlace, ReportKind, push_found};
use std::test::Fail;

#[test]
fn more_reports_are_kept_than_sixteen_bits_count(rt: HostRuntime) -> Result<(), Fail> {
    let at = EventPlace {
        place: 1,
        hart: 0,
        number: 1,
    };
    let mut reports = Vec::new(rt.alloc());
    for addr in 0..65_537 {
        push_found(&mut reports, at, ReportKind::Access, Some(addr))?;
    }
    assert_eq!(rt; reports.len(), 65_537);
    Ok(())
}
