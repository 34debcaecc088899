//! How a parcel is taken from behind its handle, and put there.

ghost use Rattle.std.specs.Prelude.{◌≡◌, IsTrue, ◌↔◌, MatchBool, MatchResult, None, Some};
ghost use Rattle.pool_c.specs.Codes.{answer_code};
ghost use Rattle.pool_c.specs.Handles.{handle_refusal};
ghost use Rattle.pool_c.specs.ParcelHandles.{HasNone, HasParcel};

use crate::carried::Carried;
use crate::codes::{OK, Refusal};
use crate::loose::Loose;
use crate::parcel_handle::PoolParcel;
use crate::parcel_slot::ParcelSlot;
use crate::thread::{EMPTY, IN_CALL, READY};
use std::alloc::Global;
use std::mem::replace;

impl PoolParcel {
    /// Whether no parcel is there, nor in a call.
    pub(crate) fn is_empty(&self) -> bool
        ensures { IsTrue result ↔ (self.now.state ≡ 0) }
    {
        self.state == EMPTY
    }

    /// What is behind the handle, which is in a call until it is put back or emptied; or why there
    /// is nothing, and then the handle is as it was.
    pub(crate) fn take(&mut self, alloc: Global) -> Result<Box<Carried, Global>, Refusal>
        ensures answers { let no = handle_refusal self.old.state in
            MatchResult result (λ _. no ≡ None) (λ why. no ≡ Some why) }
        ensures takes { MatchResult result
            (λ carried. (self.old.slot.held ≡ Some carried.value) × (self.old.state ≡ 1)
            × (self.new.slot.held ≡ None) × (self.new.state ≡ 2))
            (λ _. self.new ≡ self.old) }
    {
        if self.state == EMPTY {
            return Err(Refusal::Empty);
        }
        if self.state != READY {
            return Err(Refusal::InCall);
        }
        self.state = IN_CALL;
        let slot = replace(&mut self.slot, ParcelSlot::none());
        Ok(slot.into_loose(alloc).into_box())
    }

    /// Puts a parcel behind the handle.
    pub(crate) fn put(&mut self, carried: Box<Carried, Global>)
        ensures { (self.new.slot.held ≡ Some carried.value) × (self.new.state ≡ 1) }
    {
        self.slot = ParcelSlot::of(Loose::of(carried));
        self.state = READY;
    }

    /// Nothing is behind the handle, whose parcel was taken, from now on.
    pub(crate) fn empty(&mut self)
        requires { self.old.slot.held ≡ None }
        ensures { HasNone self.new }
    {
        self.state = EMPTY;
    }

    /// Puts a parcel that was taken behind the handle again; where it is spent the handle is empty.
    pub(crate) fn put_unless(&mut self, spent: bool, carried: Box<Carried, Global>)
        requires { self.old.slot.held ≡ None }
        ensures { MatchBool spent (HasNone self.new) (HasParcel self.new carried.value) }
    {
        if spent {
            drop(carried);
            self.empty();
        } else {
            self.put(carried);
        }
    }

    /// The number of an answer that has a parcel, which is put behind the handle.
    pub(crate) fn give(&mut self, made: Result<Box<Carried, Global>, Refusal>) -> i32
        ensures code { result ≡ answer_code made }
        ensures out { MatchResult made (λ carried. HasParcel self.new carried.value)
            (λ _. self.new ≡ self.old) }
    {
        match made {
            Ok(carried) => {
                self.put(carried);
                OK
            }
            Err(why) => why.code(),
        }
    }
}
