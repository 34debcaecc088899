//! What a seat knows, as plain data. No value of these types but `Opening` is ever made.

use crate::naming::Name;
use std::collections::LinkedList;

/// What a seat has of one composite, and what it did there.
pub struct Stake {
    /// How often it counts the composite.
    pub counts: u64,
    /// The end marks that it has of it: at most one.
    pub marks: u64,
    /// How often it retained it.
    pub retained: u64,
    /// The sections of it that the seat made.
    pub sections: u64,
    /// How often it took it: at most once.
    pub taken: u64,
}

/// The section that a seat is in: of which composite, how many were made of it before, and how many
/// turns all seats had left when this one began.
pub struct Inside {
    pub composite: u32,
    pub number: u64,
    pub turns: u64,
}

/// What a seat knows: its stakes by composite, the section that it is in, and what it has left.
pub struct BoardView {
    pub stakes: LinkedList<Stake>,
    pub inside: Option<Inside>,
    pub moves: u64,
    pub turns: u64,
}

/// What a table is made for.
#[derive(Drop)]
pub struct Opening<T> {
    pub composites: u32,
    pub moves: u32,
    pub turns: u64,
    /// What the composites are made from.
    pub origin: Name<T>,
}
