//! Single calls on grounds and racks.
ghost use Rattle.std.specs.Prelude.{◌≡◌};

use ground::{Ground, Piece, Rack};

// A piece is small.
const _: () = prove!(size_of::<Piece>() <= 32);

fn are_zeros(bytes: &[u8]) -> bool {
    bytes.iter().all(|byte| *byte == 0)
}

#[test]
fn the_left_bytes_then_zeros(rt: HostRuntime) {
    let (ground, deed) = Ground::new(rt.alloc(), 65536).expect(&rt, "ample memory");
    let (mut left, right) = ground.split(8192);
    assert!(rt;
        left.start() == 0 && left.len() == 8192 && right.start() == 8192 && right.len() == 57344
    );
    left.bytes_mut()[8191] = 9;
    let whole = left.join(right);
    assert!(rt; whole.start() == 0);
    assert!(rt; whole.len() == 65536);
    let bytes = whole.bytes();
    assert!(rt; are_zeros(&bytes[..8191]) && bytes[8191] == 9 && are_zeros(&bytes[8192..]));
    whole.close(deed);
}

// Where a byte that isn't 0 stands first.
fn place_of_a_byte(bytes: &[u8]) -> Option<usize> {
    bytes.iter().position(|byte| *byte != 0)
}

#[test]
fn elements_come_from_their_places(rt: HostRuntime) {
    let (ground, deed) = Ground::new(rt.alloc(), 8192).expect(&rt, "ample memory");
    let mut rack = Rack::of(ground, 2048);
    let mut last = rack.pull(3);
    let first = rack.pull(0);
    assert!(rt; last.start() == 6144 && first.start() == 0);
    last.bytes_mut()[1] = 9;
    rack.push(last);
    rack.push(first);
    let whole = rack.into_piece();
    assert!(rt; whole.len() == 8192 && place_of_a_byte(whole.bytes()) == Some(6145));
    whole.close(deed);
}
