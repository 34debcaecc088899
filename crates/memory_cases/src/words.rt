//! Bits of two words, and places of a chunk as words.

use bit_words::{clear, lowest_clear, lowest_set, set};
use pool_chunk::{place_pack, place_unpack};

#[test]
fn the_lowest_of_two_words(rt: HostRuntime) {
    let mut words = [u64::MAX, 0];
    assert!(rt; lowest_set(&words) == Some(0) && lowest_clear(&words) == Some(64));
    set(&mut words, 64);
    clear(&mut words, 63);
    assert!(rt;
        lowest_set(&words) == Some(0)
            && lowest_clear(&words) == Some(63)
            && lowest_set(&[0, 8]) == Some(67)
            && lowest_set(&[0, 0]) == None
            && lowest_clear(&[u64::MAX]) == None
    );
}

// A word has its fields from the top: an element of a subpage, the first one of a subpage of five pages
// at the begin of a chunk, and a run of two pages there.
#[test]
fn places_are_words(rt: HostRuntime) {
    assert!(rt;
        place_pack(1, 5, true, true, 3) == 0x0002001700000003
            && place_pack(0, 5, true, true, 0) == 0x0000001700000000
            && place_pack(0, 2, true, false, 0) == 0x0000000a00000000
            && place_unpack(0x0002001700000003) == (1, 5, true, true, 3)
    );
}
