//! How a thread is taken from behind its handle for a call, and put back.

ghost use Rattle.std.specs.Prelude.{◌≡◌, IsTrue, ◌↔◌, MatchResult, None, Some};
ghost use Rattle.pool_c.specs.Handles.{handle_refusal, HasNothing};

use crate::codes::Refusal;
use crate::handle::PoolThread;
use crate::held::Held;
use crate::loose::Loose;
use crate::slot::Slot;
use std::alloc::Global;
use std::mem::replace;

/// Nothing is behind the handle.
pub(crate) const EMPTY: u32 = 0;

/// A thread is there.
pub(crate) const READY: u32 = 1;

/// Its thread is in a call.
pub(crate) const IN_CALL: u32 = 2;

impl PoolThread {
    /// Whether nothing was opened here.
    pub(crate) fn is_empty(&self) -> bool
        ensures { IsTrue result ↔ (self.now.state ≡ 0) }
    {
        self.state == EMPTY
    }

    /// What is behind the handle, which is in a call until it is put back; or why there is nothing,
    /// and then the handle is as it was.
    pub(crate) fn take(&mut self, alloc: Global) -> Result<Box<Held, Global>, Refusal>
        ensures answers { let no = handle_refusal self.old.state in
            MatchResult result (λ _. no ≡ None) (λ why. no ≡ Some why) }
        ensures takes { MatchResult result
            (λ held. (self.old.slot.held ≡ Some held.value) × (self.old.state ≡ 1)
            × (self.new.slot.held ≡ None) × (self.new.state ≡ 2))
            (λ _. self.new ≡ self.old) }
    {
        if self.state == EMPTY {
            return Err(Refusal::Empty);
        }
        if self.state != READY {
            return Err(Refusal::InCall);
        }
        self.state = IN_CALL;
        let slot = replace(&mut self.slot, Slot::none());
        Ok(slot.into_loose(alloc).into_box())
    }

    /// Puts a thread behind the handle.
    pub(crate) fn put(&mut self, held: Box<Held, Global>)
        ensures { (self.new.slot.held ≡ Some held.value) × (self.new.state ≡ 1) }
    {
        self.slot = Slot::of(Loose::of(held));
        self.state = READY;
    }

    /// Leaves the thread that is behind the handle, which is empty then; or it is as it was.
    pub(crate) fn leave(&mut self, alloc: Global) -> Result<(), Refusal>
        ensures answers { let no = handle_refusal self.old.state in
            MatchResult result (λ _. no ≡ None) (λ why. no ≡ Some why) }
        ensures leaves { MatchResult result (λ _. HasNothing self.new) (λ _. self.new ≡ self.old) }
    {
        let held = self.take(alloc)?;
        drop(held);
        self.empty();
        Ok(())
    }

    /// Nothing is behind the handle, whose thread was taken, from now on.
    pub(crate) fn empty(&mut self)
        requires { self.old.slot.held ≡ None }
        ensures { HasNothing self.new }
    {
        self.state = EMPTY;
    }
}
