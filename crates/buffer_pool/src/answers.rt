//! What comes back from a call that was refused.

use crate::buffer::Buffer;
use crate::name::PoolName;
use crate::parcel::Parcel;
use pool_member::{AcceptNo, AccessNo, PartNo, TryNo};

/// A buffer that comes back from a call that was refused.
pub struct Back<B: PoolName> {
    /// Why.
    pub why: AccessNo,
    /// The buffer as it was.
    pub buffer: Buffer<B>,
}

impl<B: PoolName> Back<B> {
    /// Leaves the buffer behind.
    pub fn leave(self) {
        let Back { why: _, buffer } = self;
        buffer.leave();
    }
}

/// A buffer that comes back from a call that never waits, and is not released.
pub struct TryBack<B: PoolName> {
    /// Why.
    pub why: TryNo,
    /// The buffer as it was.
    pub buffer: Buffer<B>,
}

impl<B: PoolName> TryBack<B> {
    /// Leaves the buffer behind.
    pub fn leave(self) {
        let TryBack { why: _, buffer } = self;
        buffer.leave();
    }
}

/// A buffer that comes back, since no parcel was made of it.
pub struct Unsent<B: PoolName> {
    /// Why.
    pub why: PartNo,
    /// The buffer as it was.
    pub buffer: Buffer<B>,
}

impl<B: PoolName> Unsent<B> {
    /// Leaves the buffer behind.
    pub fn leave(self) {
        let Unsent { why: _, buffer } = self;
        buffer.leave();
    }
}

/// A parcel that comes back, since it was not accepted.
pub struct NotAccepted<B: PoolName> {
    /// Why.
    pub why: AcceptNo,
    /// The parcel as it was.
    pub parcel: Parcel<B>,
}

impl<B: PoolName> NotAccepted<B> {
    /// Leaves the parcel behind.
    pub fn leave(self) {
        let NotAccepted { why: _, parcel } = self;
        parcel.leave();
    }
}
