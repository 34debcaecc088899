//! A letter on its way.

ghost use Rattle.std.specs.Prelude.{◌≡◌, IfSome};
ghost use Rattle.pool_law.specs.Views.{IsView};
ghost use Rattle.pool_table.specs.Letters.{letter_view};
ghost use Rattle.pool_table.specs.Seats.{view_of, HasView};
ghost use Rattle.shared_pool.specs.Posting.{IsLetterAlone, letter_of};

use crate::seat::TableSeat;
use pool_table::Letter;
use std::marker::Model;
use std::mem::ManuallyDrop;

/// A parcel on its way from one lane to another: a letter, in a seat of its own that holds nothing
/// else. It may go by any channel between threads. The parcel of one that is dropped stays
/// unreceived, and its root counted, as long as the pool stands. A contract sees the pool's table,
/// and the letter.
pub struct Posted {
    seat: TableSeat,
}

impl Drop for Posted {
    // A seat with one letter has nothing that is to be freed.
    fn drop(self) {
        let Posted { seat } = self;
        let _seat = unsafe { ManuallyDrop::new_unchecked(seat) };
    }
}

impl Model for Posted {
    ghost use Rattle.shared_pool.specs.Posting.{PostedLetter, posted_in, IsLetterAlone};

    ghost Value = { PostedLetter };

    ghost view = { λ p. posted_in p.seat };

    ghost invariant = { λ p. IsLetterAlone p.seat };
}

impl Posted {
    // Round a seat that `send` made.
    pub(crate) fn new(seat: TableSeat) -> Posted
        requires alone { IsLetterAlone seat }
        ensures table { result.table ≡ seat.seat.table_id }
        ensures letter { result.letter ≡ letter_of (view_of seat) }
    {
        Posted { seat }
    }

    /// The letter: who sent it, to whom, its number on that way, and the parcel.
    pub fn letter(&self) -> Letter
        ensures { result ≡ self.now.letter }
    {
        let Some(letter) = self.seat.letter() else {
            unreachable!()
        };
        letter
    }

    // The seat, for `receive`.
    pub(crate) fn into_seat(self) -> TableSeat
        ensures table { result.seat.table_id ≡ self.table }
        ensures alone { HasView result (letter_view (view_of result).setting self.letter) }
        ensures view { IfSome self.letter.parcel.view IsView }
    {
        let Posted { seat } = self;
        seat
    }
}
