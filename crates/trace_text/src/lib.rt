//! The reader of traces: from a JSON text to the commands of each lane.
#![tactic(auto)]

ghost use Rattle.std.specs.Prelude.{◌≡◌};

mod counts;
mod forms;
mod items;
mod lane;
mod limits;
mod names;
mod options;
mod pairs;
mod reading;
mod stuck;
mod words;

pub use forms::VIEW_LIMIT;
pub use items::{RowNo, array_of, bytes_of, lane_number_of, name_of, number_of};
pub use limits::{BYTE_LIMIT, COMMAND_LIMIT, LANE_LIMIT};
pub use options::{
    OPTION_KEYS, VERSION_KEYS, has_keys_of, level_from, level_named, number_from, page_from,
};
use pool_law::{Options, Trace};
pub use reading::{TEXT_LIMIT, read_trace, value_from};
pub use words::{Word, word_from};

/// What a text is read as.
#[derive(Drop)]
pub struct Read {
    /// The commands of each lane.
    pub trace: Trace,
    /// What it asks of the pool; nothing, where the text is of version 1.
    pub options: Options,
}

/// A limit on a trace.
#[derive(Clone, Copy, Debug, PartialEq, Eq)]
pub enum Limit {
    /// The bytes of the text, 16,777,216.
    Text,
    /// The lanes, 16.
    Lanes,
    /// The commands of all lanes together, 65,536.
    Commands,
    /// The bytes that `get`, `tryget` and `read` ask to see, together, 67,108,864.
    Bytes,
}

/// Why a text is no trace. Lanes and lines count from 0.
#[derive(Clone, Copy, Debug, PartialEq, Eq)]
pub enum TraceNo {
    /// It isn't UTF-8, or no JSON text.
    Syntax,
    /// The first line that is no command.
    Shape { lane: u32, line: u32 },
    /// It passes a limit.
    Limit(Limit),
    /// The least lane that can't finish, and the line of the `recv` at which it waits.
    Stuck { lane: u32, line: u32 },
    /// There was no memory for it.
    Memory,
    /// It is an object, but none of version 2; or what it asks of the pool, together with what the
    /// words ask, makes a pool that is too large.
    Options,
}
