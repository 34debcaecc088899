//! A section that another seat finds held, and what a word packs.

use crate::diary::{Opened, count, open_table, write};
use pool_law::{Did, Named, Noted, Object};
use std::marker::Brand;
use std::test::Fail;
use step_law::pack;

#[test]
fn a_second_claim_is_held(rt: HostRuntime) -> Result<(), Fail> {
    let Opened {
        table,
        mut first,
        mut second,
    } = open_table(rt.alloc())?;
    assert!(rt; first.number() == Some(0) && second.number() == Some(1));
    let Ok(mut section) = table.claim(&mut first, Object::Bin(0), false) else {
        panic!(rt; "held")
    };
    let number = match table.claim(&mut second, Object::Bin(0), false) {
        Ok(_other) => panic!(rt; "not held"),
        Err(held) => held.number,
    };
    let before = count(&mut section);
    if before > 0 {
        panic!(rt; "noted already")
    }
    let noted = Noted {
        did: Did::Handle(0),
        lane: Some(0),
        watch: None,
        root: None,
        region: None,
    };
    let Ok(()) = write(&mut section, noted) else {
        panic!(rt; "no memory")
    };
    let noted_at = table.done::<Brand>(&mut first, section);
    table.join(&mut first, second);
    let (homes, words) = table.close_with(first);
    assert!(rt; number == 0 && noted_at == 1 && homes.len() == 85);
    assert!(rt; words.len() == 87 && words[81] == 2 && words[85] == 1 && words[86] == 1);
    assert!(rt; pack(2, 2) == 0x0000_0002_0000_0002);
    Ok(())
}
