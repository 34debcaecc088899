//! The slots of home values. They have no tag: whether a value is in, proofs alone know, so that a
//! claim writes nothing in a slot, and what ends a section writes the value alone.

ghost use Rattle.std.specs.Prelude.{◌≡◌, ◌∷◌, Option, Some, None, IsSome};
ghost use base.Fml.{ftrue};
ghost use Rattle.atomic_table.specs.Table.{rest};
ghost use Rattle.pool_table.specs.BareSlots.{owned_if};

use crate::rule::{Opening, Rule};
use crate::views::SeatView;
use atomic_table::{Seat, Shared};
use pool_law::Noted;
use std::marker::{Move, Owns};
use std::mem::ManuallyDrop;
use step_law::Told;

/// A slot, seen as the value that is in it, if one is. While the value is out its bytes are those of
/// the value that was in last, and nobody reads them.
pub struct BareSlot<H> {
    home: H,
}

impl<H> Owns for BareSlot<H> {
    ghost Value = { Option H };

    ghost shr_at = { λ _ _ _. ftrue };
}

impl<H> Move for BareSlot<H> {
    ghost own_val = { λ o vs. owned_if (λ h. Fields.own_val (record { home = h }) vs) o };
}

unsafe impl<H: Send> Send for BareSlot<H> {}

// A `&` to it shows nothing.
unsafe impl<H> Sync for BareSlot<H> {}

impl<H> BareSlot<H> {
    /// A slot with this value in it.
    #[inline(always)]
    pub(crate) fn of(home: H) -> BareSlot<H>
        ensures { result ≡ Some home }
    {
        BareSlot { home }
    }

    /// Takes the value out. Nothing is written.
    #[inline(always)]
    pub(crate) fn take(&mut self) -> H
        requires { IsSome self.old }
        ensures { (self.old ≡ Some result) × (self.new ≡ None) }
    {
        let bare = self as *mut BareSlot<H>;
        let BareSlot { home } = unsafe { bare.read() };
        home
    }

    /// Ends a slot whose value is out.
    #[inline(always)]
    pub(crate) fn leave(self)
        requires { self ≡ None }
    {
        let _left = unsafe { ManuallyDrop::new_unchecked(self) };
    }
}

/// Lets a seat go. It has no bytes, and no slot of its own is dropped with it.
pub(crate) fn let_go<H>(seat: Seat<BareSlot<H>, SeatView>) {
    let _gone = unsafe { ManuallyDrop::new_unchecked(seat) };
}

/// Takes the home value out of the slot that the seat took last.
#[inline(always)]
pub(crate) fn taken<H: Told<Note = Noted>>(
    table: &Shared<BareSlot<H>, SeatView, Opening<H>, Rule>,
    seat: &mut Seat<BareSlot<H>, SeatView>,
    slot: usize,
) -> H
    requires own { seat.old.table_id ≡ table.now.table_id }
    requires there { (home : H) × (seat.old.me.1 ≡ (slot, Some home) ∷ rest seat.old.me.1) }
    ensures same { (seat.new.table_id ≡ seat.old.table_id) × (seat.new.id ≡ seat.old.id) }
    ensures value { seat.old.me.1 ≡ (slot, Some result) ∷ rest seat.old.me.1 }
    ensures out { seat.new.me ≡ (seat.old.me.0, (slot, None) ∷ rest seat.old.me.1) }
{
    seat.slot_mut(table, slot).take()
}

/// Puts a home value back into the slot that the seat took last, which is empty.
#[inline(always)]
pub(crate) fn put_back<H: Told<Note = Noted>>(
    table: &Shared<BareSlot<H>, SeatView, Opening<H>, Rule>,
    seat: &mut Seat<BareSlot<H>, SeatView>,
    slot: usize,
    home: H,
)
    requires own { seat.old.table_id ≡ table.now.table_id }
    requires empty { seat.old.me.1 ≡ (slot, None) ∷ rest seat.old.me.1 }
    ensures same { (seat.new.table_id ≡ seat.old.table_id) × (seat.new.id ≡ seat.old.id) }
    ensures back { seat.new.me ≡ (seat.old.me.0, (slot, Some home) ∷ rest seat.old.me.1) }
{
    table.exchange(seat, slot, BareSlot::of(home)).leave();
}
