//! Nibbles, slots, and the words of a small start.
use crate::words::{DIRECTORY_START, FRAME_MAP_START, FRAME_WORDS, SHADOW_START};
use crate::{
    Slot, all_nibbles, free_frame, has_bit, initial, nibble, slot_of, with_bit, with_nibble,
    without_bit,
};
use pl_event::{PageKind, PageRun};
use std::test::Fail;

#[test]
fn a_nibble_is_put_in_its_place(rt: HostRuntime) {
    let word = with_nibble(all_nibbles(1), 5, 7);
    assert!(rt; word == 0x1111_1111_1171_1111);
    assert!(rt; nibble(word, 5) == 7 && nibble(word, 4) == 1);
    let slot = Slot {
        page: 1024,
        word: 0xab,
        byte: 7,
    };
    assert!(rt; slot_of(0x40_0ab7) == slot);
}

#[test]
fn the_lowest_free_frame_is_found(rt: HostRuntime) {
    let mut map = [u64::MAX; 8];
    assert!(rt; free_frame(&map).is_none());
    map[1] = 0b1011;
    assert!(rt; free_frame(&map) == Some(66));
    assert!(rt; has_bit(map[1], 3) && !has_bit(map[1], 2));
    assert!(rt; with_bit(0b1011, 2) == 0b1111);
    assert!(rt; without_bit(0b1111, 2) == 0b1011);
}

#[test]
fn the_pages_of_the_start_get_the_first_frames(rt: HostRuntime) -> Result<(), Fail> {
    let heap = PageRun {
        first: 1024,
        count: 2,
        kind: PageKind::Heap,
    };
    let stack = PageRun {
        first: 3840,
        count: 1,
        kind: PageKind::Stack,
    };
    let words = initial(rt.alloc(), &[heap, stack], [3, 0, 1])?;
    assert!(rt; words[FRAME_MAP_START as usize] == 0b111);
    let directory = DIRECTORY_START as usize;
    assert!(rt; words[directory + 1024] == 1 && words[directory + 1025] == 2);
    assert!(rt; words[directory + 3840] == 3 && words[directory + 1026] == 0);
    let shadow = SHADOW_START as usize;
    let frame = FRAME_WORDS as usize;
    assert!(rt; words[shadow + 2 * frame - 1] == 0);
    assert!(rt; words[shadow + 2 * frame] == all_nibbles(1));
    Ok(())
}
