#![tactic(auto)]
//! The pool's plain data, and the definitions that every other crate cites.

mod command;
mod id;
mod limits;
mod list;
mod named;
mod note;
mod report;
mod run;

pub use command::{Command, Trace};
pub use id::{Parcel, Part, Place, Region, RegionId, RootId, ViewData};
pub use limits::is_shape;
pub use list::{
    Bytes, ChunkEnds, CommandList, CommandLists, Items, LaneLogs, LeakList, NameList, NoteList,
    Records, ReplyList,
};
pub use named::Named;
pub use note::{CacheNo, Did, Held, Note, Noted, Object, RefDid};
pub use report::{Access, ChunkEnd, Leak, ListName, Watch};
pub use run::{Answered, LaneLog, Level, Options, Reply, Run, Shape};
