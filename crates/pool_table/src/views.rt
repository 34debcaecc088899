//! What a seat knows, as plain data. No value of these types but `Layout` and `Letter` is ever
//! made.
ghost use Rattle.step_law.specs.Settings.{Setting};

use pool_law::{Held, Noted, Object, Parcel, RefDid, RootId, Shape};
use std::collections::LinkedList;
use std::marker::Model;

/// A table's shape, and what each of its lanes has at the start.
#[derive(Clone, Copy)]
pub struct Layout {
    pub shape: Shape,
    /// The moves of each lane. A retain takes one of its seat, and a release that leaves its root
    /// alive gives one to its own; no other step takes or gives any. So the moves left in all seats
    /// and all counts beyond the first of each root are as many together for ever. Where other
    /// seats release what one retains they get its moves, and can hand them back by `share`.
    pub moves: u32,
    /// The turns of each lane: one for each note that it makes on an object. None comes back.
    pub turns: u64,
}

/// A note as a part keeps it, or a busy mark.
pub enum Entry {
    At {
        object: Object,
        number: u64,
        noted: Noted,
    },
    Ref {
        root: RootId,
        did: RefDid,
    },
    Busy(Held),
}

/// A seat's number, if it has one, and the notes that this seat made, oldest first.
pub struct Part {
    pub number: Option<u32>,
    pub notes: LinkedList<Entry>,
}

/// The section that a view is in: its object, and the object's notes, of which there are `number`.
pub struct Inside {
    pub object: Object,
    pub number: u64,
    pub history: LinkedList<Noted>,
}

/// What one `send` sends: the parcel, with its number among the letters of its way.
#[derive(Clone, Copy, PartialEq, Eq, Debug, Drop)]
pub struct Letter {
    /// The lane that sent it.
    pub from: u32,
    /// The lane that it is for.
    pub to: u32,
    /// Its number among the letters from the one lane to the other, from 1.
    pub number: u64,
    /// What it carries.
    pub parcel: Parcel,
}

/// What is settled once as a pool opens, as contracts see it.
pub struct Fixed {
    pub ghost told: { Setting },
}

impl Model for Fixed {
    ghost use base.Fml.{ftrue};
    ghost use Rattle.step_law.specs.Settings.{Setting};

    ghost Value = { Setting };

    ghost view = { λ l. l.told };

    ghost also_owns = { λ _. ftrue };
}

/// What a seat knows. The seat goes on in its own part.
pub struct SeatView {
    pub own: Part,
    pub others: LinkedList<Part>,
    pub inside: Option<Inside>,
    pub letters: LinkedList<Letter>,
    pub moves: u64,
    pub turns: u64,
    pub setting: Option<Fixed>,
}
