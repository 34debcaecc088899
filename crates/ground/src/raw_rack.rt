//! Elements side by side, of which some are out.
//! All of it is ghost state: it takes no memory and no time.
ghost use Rattle.std.specs.Prelude.{◌≡◌, ℕ, ◌+◌, ◌*◌, List, ◌∷◌, length, Some, None};
ghost use base.Fml.{fsep};
ghost use denote.RawPtr.{Ptr, ◌+ₚ◌};
ghost use Rattle.ground.specs.Ownership.{claim_owns, raw_bytes_owns, raw_rack_owns, AreAllIn};
ghost use Rattle.ground.specs.Rack.{Cell, cells_of, with_cell, HasCell, IsIn, IsOut};

use crate::claim::Claim;
use crate::raw_bytes::RawBytes;
use std::marker::Model;

// The bytes of a piece, with the claim on their places.
pub(crate) struct RawPiece {
    ghost ptr: { Ptr },
    ghost items: { List ℕ },
    ghost name: { ℕ },
    ghost start: { ℕ },
    ghost len: { ℕ },
    ghost size: { ℕ },
}

impl Model for RawPiece {
    ghost also_owns = { λ p. fsep (raw_bytes_owns p.ptr p.items)
        (claim_owns p.name p.start p.len) };
}

// Elements of `each` bytes, in the ground `name` of `size` bytes.
pub(crate) struct RawRack {
    ghost ptr: { Ptr },
    ghost cells: { List Cell },
    ghost name: { ℕ },
    ghost start: { ℕ },
    ghost each: { ℕ },
    ghost size: { ℕ },
}

impl Model for RawRack {
    ghost also_owns = { λ s. raw_rack_owns s.name s.each s.cells s.ptr s.start };
}

impl RawPiece {
    pub(crate) fn of(raw_bytes: RawBytes, claim: Claim) -> RawPiece
        ensures { (result.ptr ≡ raw_bytes.ptr) × (result.items ≡ raw_bytes.items)
            × (result.name ≡ claim.name) × (result.start ≡ claim.start)
            × (result.len ≡ claim.len) × (result.size ≡ claim.size) }
    {
        let RawBytes {} = raw_bytes;
        let Claim {} = claim;
        RawPiece {}
    }

    pub(crate) fn parts(self) -> (RawBytes, Claim)
        ensures { (result.0.ptr ≡ self.ptr) × (result.0.items ≡ self.items)
            × (result.1.name ≡ self.name) × (result.1.start ≡ self.start)
            × (result.1.len ≡ self.len) × (result.1.size ≡ self.size) }
    {
        let RawPiece {} = self;
        (RawBytes {}, Claim {})
    }
}

impl RawRack {
    // A piece as `count` elements.
    pub(crate) fn of(raw_piece: RawPiece, each: usize, count: usize) -> RawRack
        requires { (length raw_piece.items ≡ count * each) × (raw_piece.len ≡ count * each) }
        ensures { (result.ptr ≡ raw_piece.ptr)
            × (result.cells ≡ cells_of each count raw_piece.items)
            × (result.name ≡ raw_piece.name) × (result.start ≡ raw_piece.start)
            × (result.each ≡ each) × (result.size ≡ raw_piece.size) }
    {
        let RawPiece {} = raw_piece;
        RawRack {}
    }

    // Element `i`, and the rack without it.
    pub(crate) fn pull(self, i: usize) -> (RawPiece, RawRack)
        requires { IsIn i self.cells }
        ensures { (result.0.ptr ≡ (self.ptr +ₚ i * self.each))
            × HasCell i (Some result.0.items) self.cells × (result.0.name ≡ self.name)
            × (result.0.start ≡ self.start + i * self.each) × (result.0.len ≡ self.each)
            × (result.0.size ≡ self.size)
            × (result.1 ≡ record self { cells = with_cell i None self.cells }) }
    {
        let RawRack {} = self;
        (RawPiece {}, RawRack {})
    }

    // The rack with element `i` in.
    pub(crate) fn push(self, raw_piece: RawPiece, i: usize) -> RawRack
        requires { IsOut i self.cells × (raw_piece.ptr ≡ (self.ptr +ₚ i * self.each))
            × (raw_piece.name ≡ self.name) × (raw_piece.start ≡ self.start + i * self.each)
            × (raw_piece.len ≡ self.each) }
        ensures { result ≡ record self { cells = with_cell i (Some raw_piece.items) self.cells } }
    {
        let RawRack {} = self;
        let RawPiece {} = raw_piece;
        RawRack {}
    }

    // The piece of all elements, where the first is at hand and none is out.
    pub(crate) fn whole(self) -> RawPiece
        requires { (b : List ℕ) × (cs : List Cell) × (bs : List ℕ) × (self.cells ≡ Some b ∷ cs)
            × AreAllIn self.each self.cells bs }
        ensures { AreAllIn self.each self.cells result.items × (result.ptr ≡ self.ptr)
            × (result.name ≡ self.name) × (result.start ≡ self.start)
            × (result.len ≡ length self.cells * self.each) × (result.size ≡ self.size) }
    {
        let RawRack {} = self;
        RawPiece {}
    }
}
