//! A generated job against its words, taken from the rule of its draws by hand.

use guest_asm::generate;
use std::test::Fail;

#[test]
fn the_job_of_0_and_1_has_an_action_for_each_hart(rt: HostRuntime) -> Result<(), Fail> {
    let job = generate(rt.alloc(), 0, 1)?;
    let words = job.words.as_slice();
    assert_eq!(rt; words.len(), 42);
    assert_eq!(rt; words.get(8).copied(), Some(0x0040_0613));
    assert_eq!(rt; words.get(18).copied(), Some(0x0464_a223));
    assert_eq!(rt; words.get(27).copied(), Some(0x0b84_0303));
    assert_eq!(rt; job.entries[1], 0x1_0030);
    assert_eq!(rt; job.data_bytes.as_slice().len(), 256);
    assert_eq!(rt; job.input.as_slice().get(63).copied(), Some(63));
    Ok(())
}
