//! What a command does that reaches the bytes of a composite, ends one, or makes one.

use crate::access::Refusal;
use crate::composed::{Composed, Marks};
use lane_stages::{Crossing, Transfer};
use pool_law::{Part, Reply};

/// What is to be done, with all memory for it; or why it is refused.
#[derive(Drop)]
pub enum Work {
    /// It is refused.
    Refused(Refusal),
    /// No byte is reached: the composite has these marks, and the command this reply.
    Empty {
        name: u32,
        marks: Option<Marks>,
        reply: Reply,
    },
    /// The bytes of a range are set or got; then the composite has these marks.
    Cross {
        name: u32,
        marks: Option<Marks>,
        stage: Crossing,
    },
    /// The composite ends: its parts are released.
    End {
        name: u32,
        parts: Vec<Part>,
    },
    /// A name is bound to a composite.
    Bind {
        name: u32,
        whole: Box<Composed>,
    },
    /// So it is, once the composite is one part.
    Consolidate(Consolidation),
}

/// A composite that has too many parts, what is to be copied of them, and all of them.
#[derive(Drop)]
pub struct Consolidation {
    /// The name that is to be bound.
    pub name: u32,
    /// The composite, with all its parts.
    pub whole: Box<Composed>,
    /// How many bytes these have together.
    pub size: u32,
    /// The size class of so many bytes.
    pub class: u32,
    /// The parts that are not empty, with memory for their bytes twice.
    pub transfers: Vec<Transfer>,
    /// All its parts.
    pub parts: Vec<Part>,
}
