//! To which list a chunk goes once its usage has changed.

ghost use Rattle.std.specs.Prelude.{◌≡◌, [], ◌∷◌, OnOk, IfSome, IfNone};
ghost use Rattle.pool_law.specs.ChunkLists.{greatest, least, lists_above, lists_below, risen, sunk};
ghost use Rattle.pool_law.specs.ChunkLists.{moved_to, settled_up, down_to, settled_down};

use crate::lists::{Lists, same_list};
use pool_law::ListName;
use std::alloc::AllocError;

impl Lists {
    // A chunk goes to a list, and keeps its place if it is there already.
    fn move_to(&mut self, chunk: u32, here: ListName, there: ListName) -> Result<(), AllocError>
        ensures { OnOk result (self.new ≡ moved_to self.old chunk here there) }
    {
        if !same_list(here, there) {
            self.leave(chunk);
            self.enter(there, chunk)?;
        }
        Ok(())
    }

    /// The lists once a chunk gave a run and has this usage, which was in this list.
    pub fn settle_up(
        &mut self,
        chunk: u32,
        usage: u32,
        here: Option<ListName>,
    ) -> Result<(), AllocError>
        ensures { OnOk result (self.new ≡ settled_up self.old chunk usage here) }
    {
        match here {
            None => Ok(()),
            Some(list) => self.move_to(chunk, list, up_from(list, usage)),
        }
    }

    /// The lists once a run of a chunk was given back, which was in this list and goes to that.
    pub fn settle_down(
        &mut self,
        chunk: u32,
        here: Option<ListName>,
        there: Option<ListName>,
    ) -> Result<(), AllocError>
        ensures { OnOk result (self.new ≡ settled_down self.old chunk here there) }
    {
        match (here, there) {
            (None, _) => Ok(()),
            (Some(_), None) => {
                self.leave(chunk);
                Ok(())
            }
            (Some(list), Some(next)) => self.move_to(chunk, list, next),
        }
    }
}

// From this usage on a chunk goes to the next list.
fn greatest_of(list: ListName) -> u32
    ensures { result ≡ greatest list }
{
    match list {
        ListName::QInit => 25,
        ListName::Q000 => 50,
        ListName::Q025 => 75,
        ListName::Q050 => 100,
        ListName::Q075 => 100,
        ListName::Q100 => 101,
    }
}

// Below this usage a chunk goes to the list before.
fn least_of(list: ListName) -> u32
    ensures { result ≡ least list }
{
    match list {
        ListName::QInit => 0,
        ListName::Q000 => 1,
        ListName::Q025 => 25,
        ListName::Q050 => 50,
        ListName::Q075 => 75,
        ListName::Q100 => 100,
    }
}

// The next list above.
fn next_above(list: ListName) -> Option<ListName>
    ensures some { IfSome result (λ next. lists_above list ≡ next ∷ lists_above next) }
    ensures none { IfNone result (lists_above list ≡ []) }
{
    match list {
        ListName::QInit => Some(ListName::Q000),
        ListName::Q000 => Some(ListName::Q025),
        ListName::Q025 => Some(ListName::Q050),
        ListName::Q050 => Some(ListName::Q075),
        ListName::Q075 => Some(ListName::Q100),
        ListName::Q100 => None,
    }
}

// The next list below. Below the second there is none.
fn next_below(list: ListName) -> Option<ListName>
    ensures some { IfSome result (λ next. lists_below list ≡ next ∷ lists_below next) }
    ensures none { IfNone result (lists_below list ≡ []) }
{
    match list {
        ListName::QInit => None,
        ListName::Q000 => None,
        ListName::Q025 => Some(ListName::Q000),
        ListName::Q050 => Some(ListName::Q025),
        ListName::Q075 => Some(ListName::Q050),
        ListName::Q100 => Some(ListName::Q075),
    }
}

// Where a chunk of this usage stops, going up.
fn up_from(list: ListName, usage: u32) -> ListName
    ensures { result ≡ risen usage list (lists_above list) }
{
    match next_above(list) {
        None => list,
        Some(next) => {
            if greatest_of(list) <= usage {
                up_from(next, usage)
            } else {
                list
            }
        }
    }
}

// Where a chunk of this usage stops, going down.
fn down_from(list: ListName, usage: u32) -> Option<ListName>
    ensures { result ≡ sunk usage list (lists_below list) }
{
    if usage >= least_of(list) {
        return Some(list);
    }
    match next_below(list) {
        Some(next) => down_from(next, usage),
        None => None,
    }
}

/// Where a chunk of this usage is to go after a run of it was given back.
pub fn down_to(usage: u32, here: Option<ListName>) -> Option<ListName>
    ensures { result ≡ down_to usage here }
{
    match here {
        None => None,
        Some(list) => down_from(list, usage),
    }
}
