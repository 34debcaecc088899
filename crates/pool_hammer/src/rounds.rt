//! The calls that a thread makes on its buffers, drawn at random. Each byte that is read is compared
//! with those that were laid, and each answer with those that may come.

use crate::draws::{Draws, SPAN};
use crate::held::{Held, Known, keep, lay};
use crate::tally::{Tally, count};
use buffer_pool::{
    AllocNo, CapacityNo, Mails, Pool, PoolName, PoolThread, TryAllocNo, TryCapacityNo, TryNo,
};
use std::alloc::Global;
use std::sync::Wait;

/// From so many buffers on a thread allocates no more.
const MOST_HELD: u32 = 48;

/// Most sizes are up to this, and one of eight up to so many times as much.
const SMALL: u32 = 700;

const LARGE: u32 = 40;

/// What a thread makes its calls with.
#[derive(Drop)]
pub struct Caller<'a, B: PoolName, R> {
    pub rt: &'a R,
    pub alloc: Global,
    pub pool: &'a Pool<B>,
    pub mails: &'a Mails<B>,
    pub tally: &'a Tally,
}

impl<'a, B: PoolName, R: Wait> Caller<'a, B, R> {
    pub(crate) fn must(&self, is_so: bool, what: &'static str) {
        self.tally.must(self.rt, is_so, what);
    }

    /// Makes one call.
    pub fn round(&self, me: &mut PoolThread<B>, draws: &mut Draws, held: &mut Vec<Held<B>>) {
        match draws.up_to(15) {
            0..=2 if held.len() < MOST_HELD as usize => self.allocate(me, draws, held),
            3 => self.receive(me, held),
            4 => self.put_away(me, draws),
            call => {
                let at = draws.up_to(MOST_HELD) as usize;
                if at < held.len() {
                    let one = held.swap_remove(at);
                    self.work_on(me, draws, call, one, held);
                }
            }
        }
    }

    // Makes a call on a buffer.
    fn work_on(
        &self,
        me: &mut PoolThread<B>,
        draws: &mut Draws,
        call: u32,
        mut one: Held<B>,
        held: &mut Vec<Held<B>>,
    ) {
        match call {
            5 | 6 => self.write(me, draws, &mut one),
            7 | 8 => self.read(me, draws, &one),
            9 => self.twin(me, draws, &mut one, held),
            10 => self.look(me, &mut one),
            11 => self.grow(me, draws, &mut one),
            12 => return self.send(me, draws, one, held),
            _ => return self.release(me, draws, one, held),
        }
        keep(held, one);
    }

    // A new buffer, whose bytes are all 0.
    fn allocate(&self, me: &mut PoolThread<B>, draws: &mut Draws, held: &mut Vec<Held<B>>) {
        let large = if draws.up_to(7) == 0 { LARGE } else { 1 };
        let size = draws.up_to(SMALL * large);
        let answer = if draws.flips() {
            me.try_alloc(self.pool, size)
        } else {
            me.alloc(self.rt, self.pool, size)
                .map_err(TryAllocNo::Refused)
        };
        match answer {
            Ok(buffer) => {
                count(&self.tally.born);
                self.must(buffer.len() == size, "a new buffer has another length");
                match Known::fresh(self.alloc, size) {
                    Ok(known) => keep(held, Held { buffer, known }),
                    Err(_) => buffer.leave(),
                }
            }
            Err(TryAllocNo::Busy) => (),
            Err(TryAllocNo::Refused(no)) => {
                count(&self.tally.refused);
                let may = no == AllocNo::NoHandle || no == AllocNo::Full;
                self.must(may, "an allocation is refused for no reason");
            }
        }
    }

    // Bytes are laid over those of a buffer that is alone, or changed in place.
    fn write(&self, me: &mut PoolThread<B>, draws: &mut Draws, one: &mut Held<B>) {
        if !one.known.alone {
            return;
        }
        let (start, len) = draws.range(one.buffer.len());
        let bytes = draws.bytes();
        let bytes = &bytes[..len as usize];
        let answer = match draws.up_to(2) {
            0 => me.try_set(self.pool, &one.buffer, start, bytes),
            1 => me
                .set(self.rt, self.pool, &one.buffer, start, bytes)
                .map_err(TryNo::Refused),
            _ => me
                .with_bytes_mut(
                    self.rt,
                    self.pool,
                    &one.buffer,
                    start,
                    len,
                    |over: &mut [u8]| { lay(over, bytes) },
                )
                .map_err(TryNo::Refused),
        };
        match answer {
            Ok(()) => one.known.lay(start, bytes),
            Err(no) => self.must(no == TryNo::Busy, "a write is refused"),
        }
    }

    // Bytes are copied out, or shown.
    fn read(&self, me: &mut PoolThread<B>, draws: &mut Draws, one: &Held<B>) {
        let (start, len) = draws.range(one.buffer.len());
        let mut out = [0u8; SPAN];
        let out = &mut out[..len as usize];
        let known = &one.known;
        let answer = match draws.up_to(2) {
            0 => me
                .try_get(self.pool, &one.buffer, start, out)
                .map(|()| known.has(start, &*out)),
            1 => me
                .get(self.rt, self.pool, &one.buffer, start, out)
                .map(|()| known.has(start, &*out))
                .map_err(TryNo::Refused),
            _ => me
                .with_bytes(
                    self.rt,
                    self.pool,
                    &one.buffer,
                    start,
                    len,
                    |bytes: &[u8]| { known.has(start, bytes) },
                )
                .map_err(TryNo::Refused),
        };
        match answer {
            Ok(is_so) => self.must(is_so, "other bytes are read"),
            Err(no) => self.must(no == TryNo::Busy, "a read is refused"),
        }
    }

    // Another buffer on the same bytes, or on some of them. Neither is alone then.
    fn twin(
        &self,
        me: &mut PoolThread<B>,
        draws: &mut Draws,
        one: &mut Held<B>,
        held: &mut Vec<Held<B>>,
    ) {
        let len = one.buffer.len();
        let (start, many, answer) = if draws.flips() {
            (0, len, me.retain(self.pool, &one.buffer))
        } else {
            let (start, many) = draws.range(len);
            (start, many, me.slice(self.pool, &one.buffer, start, many))
        };
        let Ok(buffer) = answer else {
            return self.must(false, "a retain is refused");
        };
        count(&self.tally.retained);
        one.known.alone = false;
        match one.known.part(self.alloc, start, many) {
            Ok(known) => keep(held, Held { buffer, known }),
            Err(_) => buffer.leave(),
        }
    }

    // A buffer whose bytes are counted once is alone. Its use is noted.
    fn look(&self, me: &mut PoolThread<B>, one: &mut Held<B>) {
        let touched = me.touch(self.rt, self.pool, &one.buffer);
        self.must(touched.is_ok(), "a touch is refused");
        let counted = me.refcnt(self.pool, &one.buffer).unwrap_or(0);
        self.must(counted > 0, "a buffer that is there is counted by nobody");
        self.must(
            !one.known.alone || counted == 1,
            "a lone buffer is counted twice",
        );
        one.known.alone = counted == 1;
    }

    // A whole buffer that is alone gets more bytes, which are 0.
    fn grow(&self, me: &mut PoolThread<B>, draws: &mut Draws, one: &mut Held<B>) {
        if !(one.known.alone && one.known.whole) {
            return;
        }
        let size = draws.up_to(SMALL);
        let answer = if draws.flips() {
            me.try_capacity(self.pool, &mut one.buffer, size)
        } else {
            me.capacity(self.rt, self.pool, &mut one.buffer, size)
                .map_err(TryCapacityNo::Refused)
        };
        match answer {
            Ok(capacity) => {
                let reaches = one.buffer.len() == capacity && capacity >= size;
                self.must(reaches, "a buffer does not reach as far as it was told");
                let known = one.known.bytes.resize(capacity as usize, 0);
                self.must(known.is_ok(), "there is no memory to know its bytes");
            }
            Err(TryCapacityNo::Busy) => (),
            Err(TryCapacityNo::Refused(no)) => {
                self.must(no == CapacityNo::Full, "an ask for capacity is refused");
            }
        }
    }
}
