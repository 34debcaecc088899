//! Streams in pieces. Each limit, and one more, stands in the examples.

ghost use Rattle.std.specs.Prelude.{◌≡◌, ℕ, ◌<◌, ◌≤◌, List, ◌++◌, OnOk, IfOk, length, slice_range};
ghost use Rattle.std.specs.Option.{option_to_list};
ghost use Rattle.std.specs.List.{flat_map};
ghost use Rattle.frame_core.specs.Frames.{frames_of, failure_of, cuts_of, count_or};
ghost use Rattle.frame_core.specs.Standing.{HasRead};

use frame_core::{Cut, Cutter, FrameNo};
use std::alloc::{AllocError, Global};
use std::test::Fail;

// Adds a cut, if there is one.
fn add(cuts: &mut Vec<Cut>, cut: Option<Cut>) -> Result<(), AllocError>
    ensures { OnOk result (cuts.new.items ≡ cuts.old.items ++ option_to_list cut) }
{
    if let Some(cut) = cut {
        cuts.push(cut)?;
    }
    Ok(())
}

// Goes on in a piece, and adds the cut; to its end where the stream is refused.
fn go_on(
    cutter: &mut Cutter,
    cuts: &mut Vec<Cut>,
    piece: &[u8],
    used: usize,
) -> Result<usize, AllocError>
    requires { used < length piece.now }
    ensures within { IfOk result (λ place. place ≤ length piece.now) }
    ensures fed { IfOk result (λ place. (bytes : List ℕ) → HasRead cutter.old bytes
        → cuts.old.items ≡ cuts_of bytes
        → (used < place) × HasRead cutter.new (bytes ++ slice_range piece.now used place)
        × (cuts.new.items ≡ cuts_of (bytes ++ slice_range piece.now used place))) }
{
    let (place, cut) = cutter.feed(piece, used).unwrap_or((piece.len(), None));
    add(cuts, cut)?;
    Ok(place)
}

// The cuts of a stream that comes in these pieces, and how it ends: those of all its bytes.
fn cut_all(alloc: Global, pieces: &[&[u8]]) -> Result<(Vec<Cut>, Result<u32, FrameNo>), AllocError>
    ensures cuts { IfOk result
        (λ r. r.0.items ≡ cuts_of (flat_map (λ piece. piece.now) pieces.now)) }
    ensures end { IfOk result (λ r. let bytes = flat_map (λ piece. piece.now) pieces.now in
        r.1 ≡ count_or (frames_of bytes) (failure_of bytes)) }
{
    let mut cutter = Cutter::new();
    let mut cuts = Vec::new(alloc);
    'pieces: for piece in pieces {
        let mut used = 0;
        'within: while used < piece.len() {
            used = go_on(&mut cutter, &mut cuts, piece, used)?;
        }
    }
    Ok((cuts, cutter.finish()))
}

#[test]
fn however_it_is_cut(rt: HostRuntime) -> Result<(), Fail> {
    let stream = [0, 0, 0, 3, 97, 98, 99, 0, 0, 0, 0];
    let wanted = [Cut { start: 4, len: 3 }, Cut { start: 11, len: 0 }];
    for first in 0..5usize {
        for second in first..10usize {
            let pieces = [&stream[..first], &stream[first..second], &stream[second..]];
            let (cuts, end) = cut_all(rt.alloc(), &pieces)?;
            assert!(rt;
                cuts.as_slice() == wanted.as_slice(),
                "at {first} and {second}"
            );
            assert!(rt; end == Ok(2), "at {first} and {second}");
        }
    }
    let single = [
        &stream[..1],
        &stream[1..2],
        &stream[2..3],
        &stream[3..8],
        &stream[8..9],
        &stream[9..10],
        &stream[10..],
    ];
    let (cuts, end) = cut_all(rt.alloc(), &single)?;
    assert!(rt; cuts.as_slice() == wanted.as_slice() && end == Ok(2));
    Ok(())
}

// A length above the limit is refused, and so is whatever comes behind it.
#[test]
fn a_refusal_stays(rt: HostRuntime) {
    let mut cutter = Cutter::new();
    for piece in [[0, 16, 0, 1], [0, 0, 0, 0]] {
        assert!(rt; cutter.feed(&piece, 0).is_err());
        assert!(rt; cutter.finish() == Err(FrameNo::Length(0)));
    }
}
