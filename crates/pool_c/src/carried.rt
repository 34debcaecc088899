//! What lies behind the handle of a parcel.

use shared_pool::Posted;

/// What lies behind the handle of a parcel. Let go, the parcel's buffer stays counted.
#[derive(Drop)]
pub struct Carried {
    /// The name of its pool.
    pub pool: u32,
    /// The letter, until it is accepted.
    pub posted: Option<Posted>,
}
