//! How a thread has a buffer get longer, gives back what its caches keep, and looks at counts.

ghost use Rattle.std.specs.Prelude.{◌≡◌};
ghost use Rattle.pool_c.specs.Growing.{Grows, Looks, Touches, Trims};

use crate::buffer::PoolBuffer;
use crate::codes::Refusal;
use crate::held::Held;
use pool_member::TryTrimNo;
use pool_member::work::attempted::AskNo;
use pool_member::work::{access, counting, growth, trimming};

/// How many turns it takes that a buffer gets longer.
const CAPACITY_TURNS: u64 = 6;

impl Held {
    /// Has the bytes in which a buffer lies be at least so many in all. The answer is the buffer,
    /// which reaches up to the last of them.
    pub(crate) fn capacity(&mut self, buffer: &PoolBuffer, size: u32) -> Result<PoolBuffer, Refusal>
        ensures pool { self.new.common ≡ self.old.common }
        ensures grows { Grows buffer.now size self.old.common self.old.member self.new.member
            result }
    {
        let root = self.may(buffer, true, 0, 0)?;
        let Some(class) = self.common.sizes.class_of(size) else {
            return Err(Refusal::TooLarge);
        };
        if self.member.account.turns < CAPACITY_TURNS {
            return Err(Refusal::Spent);
        }
        match growth::try_grow(&self.common.shared, &mut self.member, root, size, class) {
            Ok(capacity) => {
                let mut longer = *buffer;
                longer.length = capacity - buffer.offset;
                Ok(longer)
            }
            Err(AskNo::Busy) => Err(Refusal::Busy),
            Err(AskNo::Full) => Err(Refusal::Full),
        }
    }

    /// Gives the memory that the thread's caches keep back to the arenas.
    pub(crate) fn trim(&mut self) -> Result<(), Refusal>
        ensures pool { self.new.common ≡ self.old.common }
        ensures trims { Trims self.old.common self.old.member self.new.member result }
    {
        match trimming::try_trim(&self.common.shared, &mut self.member) {
            Ok(()) => Ok(()),
            Err(TryTrimNo::Busy) => Err(Refusal::Busy),
            Err(TryTrimNo::Spent) => Err(Refusal::Spent),
        }
    }

    /// How often a buffer's bytes are counted over all threads and parcels.
    pub(crate) fn refcnt(&mut self, buffer: &PoolBuffer) -> Result<u32, Refusal>
        ensures pool { self.new.common ≡ self.old.common }
        ensures looks { Looks buffer.now self.old.common self.old.member self.new.member result }
    {
        let root = self.may(buffer, true, 0, 0)?;
        Ok(counting::look(&self.common.shared, &mut self.member, root))
    }

    /// Notes that a buffer was touched.
    pub(crate) fn touch(&mut self, buffer: &PoolBuffer) -> Result<(), Refusal>
        ensures pool { self.new.common ≡ self.old.common }
        ensures touches { Touches buffer.now self.old.common self.old.member self.new.member
            result }
    {
        let root = self.may(buffer, true, 1, 0)?;
        if access::try_touch(&self.common.shared, &mut self.member, root) {
            Ok(())
        } else {
            Err(Refusal::Busy)
        }
    }
}
