//! Lists in the types that contracts see.

ghost use Rattle.std.specs.Prelude.{◌≡◌};

use crate::command::Command;
use crate::note::Note;
use crate::report::{Access, ChunkEnd, Leak};
use crate::run::{Answered, LaneLog};
use std::marker::Model;

/// Items in order. Contracts see the list alone, and nothing of its memory.
#[derive(Drop)]
pub struct Items<T> {
    list: Vec<T>,
}

impl<T> Model for Items<T> {
    ghost use Rattle.std.specs.Prelude.{List};

    ghost Value = { List T };

    ghost view = { λ l. l.list.items };
}

impl<T> Items<T> {
    /// These items. Takes no memory.
    pub fn of(items: Vec<T>) -> Items<T>
        ensures { result ≡ items.items }
    {
        Items { list: items }
    }

    /// The items.
    pub fn items(&self) -> &[T]
        ensures { result.now ≡ self.now }
    {
        &self.list
    }

    /// The items, in the vector that they were made of.
    pub fn into_items(self) -> Vec<T>
        ensures { result.items ≡ self }
    {
        self.list
    }
}

/// The bytes.
pub type Bytes = Items<u8>;

/// The names.
pub type NameList = Items<u32>;

/// The notes of a lane, oldest first.
pub type NoteList = Items<Note>;

/// The replies of a lane, by line.
pub type ReplyList = Items<Answered>;

/// The commands of a lane, by line.
pub type CommandList = Items<Command>;

/// The commands of each lane.
pub type CommandLists = Items<CommandList>;

/// The log of each lane.
pub type LaneLogs = Items<LaneLog>;

/// The chunks that are in a list at the end, by arena and chunk.
pub type ChunkEnds = Items<ChunkEnd>;

/// The leaks, by lane and serial.
pub type LeakList = Items<Leak>;

/// The accesses that are kept, oldest first.
pub type Records = Items<Access>;
