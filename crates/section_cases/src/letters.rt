//! What becomes of letters: they are received in turn, or lie unfetched at the close, or are dropped.

use crate::diary::{Opened, open_table};
use pool_law::Parcel;
use pool_table::Letter;
use std::test::Fail;

// A parcel without a view.
const NOTHING: Parcel = Parcel { view: None };

// A letter from one lane to the other, by its number.
fn letter(from: u32, to: u32, number: u64) -> Letter {
    Letter {
        from,
        to,
        number,
        parcel: NOTHING,
    }
}

#[test]
fn letters_come_in_turn(rt: HostRuntime) -> Result<(), Fail> {
    let Opened {
        table,
        mut first,
        mut second,
    } = open_table(rt.alloc())?;
    let one = table.send(&mut first, 1, NOTHING);
    let two = table.send(&mut first, 1, NOTHING);
    let back = table.send(&mut second, 0, NOTHING);
    assert!(rt;
        one.letter() == Some(letter(0, 1, 1))
            && two.letter() == Some(letter(0, 1, 2))
            && first.letter().is_none()
    );
    assert!(rt; table.receive(&mut second, one) == letter(0, 1, 1));
    assert!(rt; table.receive(&mut first, back) == letter(1, 0, 1));
    assert!(rt; table.receive(&mut second, two) == letter(0, 1, 2));
    let late = table.send(&mut first, 1, NOTHING);
    table.join(&mut first, late);
    assert!(rt; first.letter() == Some(letter(0, 1, 3)));
    let lost = table.send(&mut first, 1, NOTHING);
    assert!(rt; lost.letter() == Some(letter(0, 1, 4)));
    drop(lost);
    table.join(&mut first, second);
    let (homes, words) = table.close_with(first);
    assert!(rt; homes.len() == 85 && words.len() == 87);
    Ok(())
}
