//! How buffers go from thread to thread, and end.

use crate::draws::Draws;
use crate::held::{Held, keep};
use crate::rounds::Caller;
use crate::tally::count;
use buffer_pool::{Back, Parcel, PoolName, PoolThread, TryBack, TryNo, Unsent};
use std::sync::Wait;

/// From so many buffers on their way on none is sent, so that no thread is left without handles while
/// another sleeps.
const MOST_ON_WAY: u64 = 32;

impl<'a, B: PoolName, R: Wait> Caller<'a, B, R> {
    // A buffer goes to any thread, maybe this one. What is known of it is told before.
    pub(crate) fn send(
        &self,
        me: &mut PoolThread<B>,
        draws: &mut Draws,
        one: Held<B>,
        held: &mut Vec<Held<B>>,
    ) {
        if self.tally.on_way() >= MOST_ON_WAY {
            return keep(held, one);
        }
        let Held { buffer, known } = one;
        let to = draws.up_to(self.pool.threads().saturating_sub(1));
        match me.part(self.pool, buffer, to) {
            Ok(parcel) => {
                if !self.tally.tell(self.rt, &parcel, known) {
                    return self.leave(parcel);
                }
                match self.mails.send(self.rt, parcel) {
                    Ok(()) => count(&self.tally.posted),
                    Err(parcel) => self.leave(parcel),
                }
            }
            Err(Unsent { why: _, buffer }) => {
                self.must(false, "a parcel is refused");
                keep(held, Held { buffer, known });
            }
        }
    }

    // A parcel can't be sent. That is told here, since no later one of its way is accepted.
    fn leave(&self, parcel: Parcel<B>) {
        self.must(false, "there is no memory for a parcel");
        parcel.leave();
    }

    // Takes the next buffer out of the mail.
    pub(crate) fn receive(&self, me: &mut PoolThread<B>, held: &mut Vec<Held<B>>) {
        let Some(parcel) = self.mails.next(self.rt, &*me) else {
            return;
        };
        let Some(known) = self.tally.told(self.rt, &parcel) else {
            self.must(false, "a parcel comes that nobody sent");
            return parcel.leave();
        };
        match me.accept(self.pool, parcel) {
            Ok(buffer) => {
                count(&self.tally.accepted);
                let as_long = known.bytes.len() == buffer.len() as usize;
                self.must(as_long, "a buffer comes that is longer or shorter");
                keep(held, Held { buffer, known });
            }
            Err(back) => {
                self.must(false, "a parcel is not accepted");
                back.leave();
            }
        }
    }

    // A count is given back.
    pub(crate) fn release(
        &self,
        me: &mut PoolThread<B>,
        draws: &mut Draws,
        one: Held<B>,
        held: &mut Vec<Held<B>>,
    ) {
        let Held { buffer, known } = one;
        let answer = if draws.flips() {
            me.try_release(self.pool, buffer)
        } else {
            me.release(self.rt, self.pool, buffer).map_err(as_try)
        };
        match answer {
            Ok(last) => {
                count(&self.tally.released);
                if last {
                    count(&self.tally.ended);
                }
                self.must(
                    last || !known.alone,
                    "the release of a lone buffer is not the last",
                );
            }
            Err(TryBack { why, buffer }) => {
                self.must(why == TryNo::Busy, "a release is refused");
                keep(held, Held { buffer, known });
            }
        }
    }

    // What calls that never wait began is put away, or the caches are emptied.
    pub(crate) fn put_away(&self, me: &mut PoolThread<B>, draws: &mut Draws) {
        match draws.up_to(7) {
            0 => self.must(me.trim(self.rt, self.pool).is_ok(), "a trim is refused"),
            1 => {
                let _tried = me.try_trim(self.pool);
            }
            2 => {
                let _settled = me.try_settle(self.pool);
            }
            _ => {
                me.settle(self.rt, self.pool);
                self.must(me.is_settled(), "a thread that settled is not settled");
            }
        }
    }
}

// A refusal as that of a try.
fn as_try<B: PoolName>(back: Back<B>) -> TryBack<B> {
    let Back { why, buffer } = back;
    let why = TryNo::Refused(why);
    TryBack { why, buffer }
}
