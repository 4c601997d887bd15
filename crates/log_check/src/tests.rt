//! Which events conflict.
use crate::conflicts::{meet_by_alert, share_block};
use crate::trace::Part;
use pl_base::{LoadWidth, StoreWidth};
use pl_event::Kind;

#[test]
fn accesses_conflict_by_a_block_and_a_store(rt: HostRuntime) {
    let (width, rd, rb) = (LoadWidth::W, 5, 8);
    let load = Kind::Ld {
        width,
        rd,
        rb,
        addr: 0x10_0000,
    };
    let (width, rv) = (StoreWidth::W, 5);
    let store = Kind::St {
        width,
        rv,
        rb,
        addr: 0x10_0004,
    };
    let (loaded, stored) = (Part::Load(0x10_0000), Part::Store(0x10_0004));
    assert!(rt; share_block(16, loaded, &store));
    assert!(rt; share_block(16, stored, &load));
    assert!(rt; share_block(4, stored, &store));
    assert!(rt; !share_block(16, loaded, &load));
    assert!(rt; !share_block(4, loaded, &store));
    assert!(rt; !share_block(16, Part::Alert(0), &store));
}

#[test]
fn an_alert_event_meets_accesses_and_alert_events(rt: HostRuntime) {
    let (width, rd, rb) = (LoadWidth::W, 5, 8);
    let load = Kind::Ld {
        width,
        rd,
        rb,
        addr: 0x10_0000,
    };
    let mapped = Kind::Mp { page: 9, count: 1 };
    let (loaded, alerted) = (Part::Load(0x10_0000), Part::Alert(0));
    assert!(rt; meet_by_alert(alerted, &load));
    assert!(rt; meet_by_alert(loaded, &mapped));
    assert!(rt; meet_by_alert(alerted, &mapped));
    assert!(rt; !meet_by_alert(loaded, &load));
    assert!(rt; !meet_by_alert(alerted, &Kind::Ex));
    assert!(rt; !meet_by_alert(Part::Other, &mapped));
}
