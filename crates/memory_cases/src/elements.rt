//! A page of four elements, in the order in which they are handed out.

ghost use Rattle.std.specs.Prelude.{◌≡◌};
ghost use Rattle.subpage_bits.specs.Elements.{HandsOut};

use ground::{Ground, Piece};
use std::process::Abort;
use subpage_bits::Subpage;

// A subpage is small.
const _: () = prove!(size_of::<Subpage>() <= 1024);

// The next element, which has to be this one.
fn taken(rt: &impl Abort, subpage: &mut Subpage, i: u32) -> Piece
    ensures { HandsOut subpage.old subpage.new result i }
{
    match subpage.take() {
        Some((piece, at)) => {
            assert!(rt; at == i);
            piece
        }
        None => panic!(rt; "element {i} is not handed out"),
    }
}

fn none_left(rt: &impl Abort, subpage: &mut Subpage)
    ensures { subpage.new ≡ subpage.old }
{
    match subpage.take() {
        None => {}
        Some((piece, _)) => {
            piece.leave();
            panic!(rt; "an element is left");
        }
    }
}

#[test]
fn the_last_given_comes_first_and_then_the_lowest(rt: HostRuntime) {
    let (ground, deed) = Ground::new(rt.alloc(), 8192).expect(&rt, "ample memory");
    deed.leave();
    let mut subpage = Subpage::of(ground, 2048);
    assert!(rt; subpage.is_empty());
    taken(&rt, &mut subpage, 0).leave();
    let first = taken(&rt, &mut subpage, 1);
    taken(&rt, &mut subpage, 2).leave();
    let third = taken(&rt, &mut subpage, 3);
    none_left(&rt, &mut subpage);
    assert!(rt; subpage.is_full());
    subpage.give(first, 1);
    subpage.give(third, 3);
    taken(&rt, &mut subpage, 3).leave();
    taken(&rt, &mut subpage, 1).leave();
    none_left(&rt, &mut subpage);
    subpage.leave();
}

#[test]
fn an_idle_subpage_is_a_run_again(rt: HostRuntime) {
    let (ground, deed) = Ground::new(rt.alloc(), 8192).expect(&rt, "ample memory");
    let run = Subpage::of(ground, 2048).into_run();
    assert!(rt; run.start() == 0 && run.len() == 8192);
    run.close(deed);
}
