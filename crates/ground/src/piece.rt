//! A piece of raw memory, and the ground that it was cut from.
ghost use Rattle.std.specs.Prelude.{◌≡◌, ℕ, ◌+◌, ◌^◌, ◌<◌, ◌≤◌, ◌++◌, length, take, drop, replicate, IfOk};
ghost use Rattle.std.specs.Borrow.{Lends, Array, sem, u8 as byte};
ghost use Rattle.ground.specs.Ground.{Origin, Segment, IsWhole, Follows, Apart, with_bytes, overwritten};
ghost use Rattle.ground.specs.contracts.piece.Piece.{the_row};

use crate::claim::Claim;
use crate::raw_bytes::{Block, RawBytes, attach, detach};
use crate::site::Site;
use std::alloc::{AllocError, Global};
use std::marker::Model;
use std::mem::ManuallyDrop;

/// Where pieces come from.
pub struct Ground;

/// Some bytes of a ground, which no other piece has.
///
/// Contracts see it as its ground, where in the ground it begins, and its bytes.
///
/// It has no `Drop`: `split`, `join`, `Rack::of` and `leave` spend it, and so does `close` where it
/// is the whole ground.
pub struct Piece {
    // Where its bytes lie.
    pub(crate) ptr: *mut u8,
    // How many bytes into its ground it begins, and how many it has.
    pub(crate) start: u32,
    pub(crate) len: u32,
    pub(crate) raw_bytes: RawBytes,
    pub(crate) claim: Claim,
}

impl Model for Piece {
    ghost use Rattle.ground.specs.Ground.{Segment};

    ghost Value = { Segment };

    ghost use Rattle.ground.specs.Pieces.{segment_of, IsPiece};

    ghost view = { segment_of };

    ghost invariant = { IsPiece };
}

// `ptr` points to memory that `raw_bytes` owns.
unsafe impl Send for Piece {}

// A `&` to it shows the bytes.
unsafe impl Sync for Piece {}

/// The right to give the memory of a ground back. Contracts see it as its ground.
///
/// It has no `Drop`: `Piece::close` spends it, with the whole ground, and so does `leave`.
pub struct Deed {
    block: Block<Global>,
    site: Site,
}

impl Model for Deed {
    ghost use Rattle.ground.specs.Ground.{Origin};

    ghost Value = { Origin };

    ghost use Rattle.ground.specs.Deeds.{origin_of, IsDeed};

    ghost view = { origin_of };

    ghost invariant = { IsDeed };
}

impl Deed {
    /// Spends the deed. The memory of its ground is not given back before the program ends.
    pub fn leave(self) {
        let _left = unsafe { ManuallyDrop::new_unchecked(self) };
    }
}

impl Ground {
    /// A whole ground of `len` zeros, and its deed. `Err` is want of memory.
    ///
    /// It takes time for each byte.
    pub fn new(alloc: Global, len: usize) -> Result<(Piece, Deed), AllocError>
        requires { (1 ≤ len) × (len ≤ 2 ^ 24) }
        ensures whole { IfOk result (λ x. IsWhole x.0) }
        ensures zeros { IfOk result (λ x. x.0.bytes ≡ replicate len 0) }
        ensures deed { IfOk result (λ x. x.1 ≡ x.0.origin) }
    {
        let mut vec = Vec::from_elem(alloc, 0, len)?;
        let ptr = vec.as_mut_ptr();
        let (raw_bytes, block) = detach(vec);
        let piece = Piece {
            ptr,
            start: 0,
            len: len as u32,
            raw_bytes,
            claim: Claim::new(len),
        };
        let site = Site::of(&piece);
        Ok((piece, Deed { block, site }))
    }
}

impl Piece {
    /// How many bytes it has: one at least, and no more than its ground.
    pub fn len(&self) -> usize
        ensures len { result ≡ length self.now.bytes }
        ensures some { 0 < result }
        ensures within { self.now.start + result ≤ self.now.origin.size }
        ensures small { self.now.origin.size ≤ 2 ^ 24 }
    {
        self.len as usize
    }

    /// How many bytes into its ground it begins.
    pub fn start(&self) -> usize
        ensures start { result ≡ self.now.start }
        ensures small { result < 2 ^ 24 }
    {
        self.start as usize
    }

    /// The first `at` bytes, and the others.
    ///
    /// It takes no memory and constant time, and leaves the bytes as they are.
    pub fn split(self, at: usize) -> (Piece, Piece)
        requires { (0 < at) × (at < length self.bytes) }
        ensures left { result.0 ≡ with_bytes self (take at self.bytes) }
        ensures right { Follows result.0 result.1 × (result.1.bytes ≡ drop at self.bytes) }
    {
        let Piece {
            ptr,
            start,
            len,
            raw_bytes,
            claim,
        } = self;
        let (front, back) = raw_bytes.cut(at);
        let (first, second) = claim.cut(at);
        let count = at as u32;
        let left = Piece {
            ptr,
            start,
            len: count,
            raw_bytes: front,
            claim: first,
        };
        let right = Piece {
            ptr: unsafe { ptr.byte_add(at) },
            start: start + count,
            len: len - count,
            raw_bytes: back,
            claim: second,
        };
        (left, right)
    }

    /// This piece and the one that begins where it ends, as one piece.
    ///
    /// It takes no memory and constant time, and leaves the bytes as they are.
    pub fn join(self, right: Piece) -> Piece
        requires { Follows self right }
        ensures { result ≡ with_bytes self (self.bytes ++ right.bytes) }
    {
        let Piece {
            ptr,
            start,
            len,
            raw_bytes,
            claim,
        } = self;
        let Piece {
            ptr: _,
            start: _,
            len: more,
            raw_bytes: others,
            claim: second,
        } = right;
        Piece {
            ptr,
            start,
            len: len + more,
            raw_bytes: raw_bytes.glue(others),
            claim: claim.glue(second),
        }
    }

    /// The bytes, to read.
    pub fn bytes(&self) -> &[u8]
        ensures { result.now ≡ self.now.bytes }
    {
        self.raw_bytes.bytes(self.ptr, self.len as usize)
    }

    /// The bytes, to write: the piece then has what is in the slice when its borrow ends.
    pub fn bytes_mut(&mut self) -> &mut [u8]
        ensures* writes_back { sem 𝓛
            (Lends the_row (Array byte 0) self.entry result (overwritten self.old)) }
        ensures value { result.now ≡ self.old.bytes }
    {
        self.raw_bytes.bytes_mut(self.ptr, self.len as usize)
    }

    /// Shows that two pieces of one ground have no byte in common.
    ///
    /// Both may be one piece, as in `piece.apart(&piece)`; if they begin at different places they
    /// are two. The call does nothing when it runs.
    pub fn apart(&self, other: &Piece)
        ensures { other.now.origin ≡ self.now.origin → Apart self.now other.now }
    {
        self.claim.apart(&other.claim);
    }

    /// Gives the memory of a whole ground back to its allocator, by the ground's deed.
    pub fn close(self, deed: Deed)
        requires whole { IsWhole self }
        requires deed { deed ≡ self.origin }
    {
        let Piece {
            ptr: _,
            start: _,
            len: _,
            raw_bytes,
            claim,
        } = self;
        let _spent = unsafe { ManuallyDrop::new_unchecked(claim) };
        let Deed { block, site } = deed;
        drop(site);
        drop(attach(raw_bytes, block));
    }

    /// Spends the piece. Its memory is not given back before the program ends.
    pub fn leave(self) {
        let _left = unsafe { ManuallyDrop::new_unchecked(self) };
    }
}
