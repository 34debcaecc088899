//! Bytes that lie in the block of a `Vec`, apart from that `Vec`.
//! `RawBytes` is ghost state: it takes no memory, and to cut or glue it takes no time.
ghost use Rattle.std.specs.Prelude.{◌≡◌, ℕ, ◌+◌, ◌^◌, ◌<◌, ◌≤◌, List, ◌++◌, length, take, drop};
ghost use Rattle.std.specs.Borrow.{Lends, Array, sem, u8 as byte};
ghost use Rattle.std.specs.Vec.{with_items};
ghost use base.Fml.{ftrue, fex, fall, fwand, fsep, feq};
ghost use denote.RawPtr.{Ptr, ◌+ₚ◌};
ghost use Rattle.ground.specs.Ownership.{Extent, extent_code, raw_bytes_owns, raw_bytes_shares};

use std::alloc::Allocator;
use std::marker::{Model, Move, Owns};
use std::slice;

// The bytes at `ptr`, which nothing else can reach.
pub(crate) struct RawBytes {
    ghost ptr: { Ptr },
    ghost items: { List ℕ },
}

impl Model for RawBytes {
    ghost also_owns = { λ s. raw_bytes_owns s.ptr s.items };

    ghost also_shares = { λ s _ κ. raw_bytes_shares s.ptr s.items κ };
}

// The block of a `Vec` whose bytes are out as `RawBytes`, and the right to free it.
pub(crate) struct Block<A: Allocator> {
    vec: Vec<u8, A>,
}

impl<A: Allocator> Owns for Block<A> {
    ghost Value = { Extent };

    ghost coded = { extent_code };

    ghost shr_at = { λ _ _ _. ftrue };
}

impl<A: Allocator> Move for Block<A> {
    ghost own_val = { λ e vs. fex Inside (λ v. fsep (feq ℕ v.vec.len e.len)
        (fall (List ℕ) (λ xs. fwand (fsep (feq ℕ (length xs) e.len) (raw_bytes_owns e.ptr xs))
        (Fields.own_val (record { vec = with_items v.vec xs }) vs)))) };
}

// Its `Vec` is one that threads can pass on.
unsafe impl<A: Allocator + Send> Send for Block<A> {}

// A `&` to it shows nothing.
unsafe impl<A: Allocator> Sync for Block<A> {}

// The bytes of a `Vec` that has some, and its block.
pub(crate) fn detach<A: Allocator>(vec: Vec<u8, A>) -> (RawBytes, Block<A>)
    requires { 0 < vec.len }
    ensures { (result.0.ptr ≡ vec.ptr) × (result.0.items ≡ vec.items)
        × (result.1.ptr ≡ vec.ptr) × (result.1.len ≡ vec.len) }
{
    (RawBytes {}, Block { vec })
}

// The `Vec` again, with the bytes of its block.
pub(crate) fn attach<A: Allocator>(raw_bytes: RawBytes, block: Block<A>) -> Vec<u8, A>
    requires { (raw_bytes.ptr ≡ block.ptr) × (length raw_bytes.items ≡ block.len) }
    ensures { result.items ≡ raw_bytes.items }
{
    let RawBytes {} = raw_bytes;
    let Block { vec } = block;
    vec
}

impl RawBytes {
    ghost use Rattle.ground.specs.Lending.{rewritten};
    ghost use Rattle.ground.specs.contracts.raw_bytes.RawBytes.{the_row};

    // The first `mid` bytes, and the others.
    pub(crate) fn cut(self, mid: usize) -> (RawBytes, RawBytes)
        requires { mid ≤ length self.items }
        ensures { (result.0.ptr ≡ self.ptr) × (result.0.items ≡ take mid self.items)
            × (result.1.ptr ≡ (self.ptr +ₚ mid)) × (result.1.items ≡ drop mid self.items) }
    {
        let RawBytes {} = self;
        (RawBytes {}, RawBytes {})
    }

    // The bytes of both, where `right` begins as these end.
    pub(crate) fn glue(self, right: RawBytes) -> RawBytes
        requires { right.ptr ≡ (self.ptr +ₚ length self.items) }
        ensures { (result.ptr ≡ self.ptr) × (result.items ≡ self.items ++ right.items) }
    {
        let RawBytes {} = self;
        let RawBytes {} = right;
        RawBytes {}
    }

    // The bytes, to read.
    pub(crate) fn bytes(&self, ptr: *mut u8, len: usize) -> &[u8]
        requires { (ptr ≡ self.now.ptr) × (length self.now.items ≡ len) × (len < 2 ^ 63) }
        ensures { result.now ≡ self.now.items }
    {
        unsafe { slice::from_raw_parts(ptr, len) }
    }

    // The bytes, to write.
    pub(crate) fn bytes_mut(&mut self, ptr: *mut u8, len: usize) -> &mut [u8]
        requires { (ptr ≡ self.old.ptr) × (length self.old.items ≡ len) × (len < 2 ^ 63) }
        ensures* writes_back { sem 𝓛
            (Lends the_row (Array byte 0) self.entry result (rewritten self.old)) }
        ensures value { result.now ≡ self.old.items }
    {
        unsafe { slice::from_raw_parts_mut(ptr, len) }
    }
}
