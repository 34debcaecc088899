//! A piece as elements of one size, which are taken out and put back one by one.
ghost use Rattle.std.specs.Prelude.{◌≡◌, ℕ, ◌+◌, ◌-◌, ◌*◌, ◌/◌, ◌%◌, ◌<◌, ◌≤◌, List, length, Some, None};
ghost use Rattle.ground.specs.Ground.{Segment};
ghost use Rattle.ground.specs.Rack.{Racked, HasCell, IsIn, AllIn, bytes_of, elements_of, IsElement, IsOutOf, without_element, with_element};

use crate::piece::Piece;
use crate::raw_rack::{RawPiece, RawRack};
use std::marker::Model;
use std::mem::{ManuallyDrop, replace};

/// Elements of one size side by side, some of which are out as pieces.
///
/// Contracts see it as its ground, where in the ground it begins, the size of an element, and for
/// each element its bytes, or that it is out. It keeps no list when it runs: an element's place
/// says which one it is.
///
/// It has no `Drop`: `into_piece` spends it where no element is out, and `leave` at any time.
pub struct Rack {
    raw_rack: Option<RawRack>,
    at: *mut u8,
    start: usize,
    len: usize,
    each: usize,
}

impl Model for Rack {
    ghost use Rattle.ground.specs.Rack.{Racked};

    ghost Value = { Racked };

    ghost use Rattle.ground.specs.Racks.{rack_of, IsRack};

    ghost view = { rack_of };

    ghost invariant = { IsRack };
}

// `at` points to memory that `raw_rack` owns.
unsafe impl Send for Rack {}

// A `&` to it shows nothing.
unsafe impl Sync for Rack {}

impl Rack {
    /// The piece as elements of `size` bytes, which divides its length. All of them are in.
    ///
    /// It takes no memory and constant time, and leaves the bytes as they are.
    pub fn of(piece: Piece, size: usize) -> Rack
        requires { (0 < size) × (length piece.bytes % size ≡ 0) }
        ensures { result ≡ elements_of piece size }
    {
        let Piece {
            ptr,
            start,
            len,
            raw_bytes,
            claim,
        } = piece;
        let len = len as usize;
        let raw_piece = RawPiece::of(raw_bytes, claim);
        Rack {
            raw_rack: Some(RawRack::of(raw_piece, size, len / size)),
            at: ptr,
            start: start as usize,
            len,
            each: size,
        }
    }

    /// Element `i` with its bytes. It is out from now on.
    ///
    /// It takes no memory and constant time.
    pub fn pull(&mut self, i: usize) -> Piece
        requires { IsIn i self.old.cells }
        ensures place { IsElement self.old i result }
        ensures bytes { HasCell i (Some result.bytes) self.old.cells }
        ensures rack { self.new ≡ without_element self.old i }
    {
        let Some(raw_rack) = self.raw_rack.take() else {
            unreachable!();
        };
        let (raw_piece, raw_rack) = raw_rack.pull(i);
        let empty = replace(&mut self.raw_rack, Some(raw_rack));
        let None = empty else {
            unreachable!();
        };
        let (raw_bytes, claim) = raw_piece.parts();
        let far = i * self.each;
        Piece {
            ptr: unsafe { self.at.byte_add(far) },
            start: (self.start + far) as u32,
            len: self.each as u32,
            raw_bytes,
            claim,
        }
    }

    /// Puts an element back, with the bytes that it has now.
    ///
    /// It takes no memory and constant time.
    pub fn push(&mut self, piece: Piece)
        requires { IsOutOf self.old piece }
        ensures { (i : ℕ) → IsElement self.old i piece
            → self.new ≡ with_element self.old i piece.bytes }
    {
        let Piece {
            ptr: _,
            start,
            len: _,
            raw_bytes,
            claim,
        } = piece;
        let i = (start as usize - self.start) / self.each;
        let raw_piece = RawPiece::of(raw_bytes, claim);
        let Some(raw_rack) = self.raw_rack.take() else {
            unreachable!();
        };
        let raw_rack = raw_rack.push(raw_piece, i);
        let empty = replace(&mut self.raw_rack, Some(raw_rack));
        let None = empty else {
            unreachable!();
        };
    }

    /// All the elements as one piece, where none is out.
    ///
    /// It takes no memory and constant time, and leaves the bytes as they are.
    pub fn into_piece(self) -> Piece
        requires { AllIn self.cells }
        ensures place { (result.origin ≡ self.origin) × (result.start ≡ self.start) }
        ensures bytes { result.bytes ≡ bytes_of self.cells }
        ensures len { length result.bytes ≡ length self.cells * self.each }
    {
        let Rack {
            raw_rack,
            at,
            start,
            len,
            each: _,
        } = self;
        let Some(raw_rack) = raw_rack else {
            unreachable!();
        };
        let (raw_bytes, claim) = raw_rack.whole().parts();
        Piece {
            ptr: at,
            start: start as u32,
            len: len as u32,
            raw_bytes,
            claim,
        }
    }

    /// Spends the rack with the elements that are in. Their memory is not given back before the
    /// program ends.
    pub fn leave(self) {
        let _left = unsafe { ManuallyDrop::new_unchecked(self) };
    }
}
