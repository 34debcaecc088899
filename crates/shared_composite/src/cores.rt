//! A core: the components of a shared composite, and the pool seat that counts them.

ghost use Rattle.std.specs.Prelude.{◌≡◌, ◌↔◌, ◌≤◌, Some, None};
ghost use Rattle.shared_pool.specs.declared.pool.SharedPool.{SharedPool};
ghost use Rattle.shared_pool.specs.SeatViews.{view_of};
ghost use Rattle.lane_stages.specs.declared.stepped.Stepped.TheVariants.{Finished};
ghost use Rattle.shared_composite.specs.Cores.{IsFit, IsCore, IsUnderway, IsOver, IsEmptied, HasStepped, with_ending};

use crate::ending::{end, spend};
use composite_buf::Composite;
use lane_stages::{Ending, StageStep, Stepped};
use shared_pool::{PoolSeat, Release, SharedPool};
use std::mem::replace;

/// The components of a shared composite, with the pool seat that counts each of them once.
///
/// A board gives it to its readers, one after another, and back to whom ended the last count of the
/// composite. That one steps it until its components are released, each once, in order. A core must
/// be spent, by `into_seat` or by `leave`.
pub struct Core {
    pub(crate) seat: PoolSeat,
    pub(crate) parts: Composite,
    /// How many components are released.
    pub(crate) next: u32,
    /// What is left of the last of these, where its root ended.
    pub(crate) ending: Option<Ending>,
}

impl Core {
    /// A core of these components, whose roots the seat counts, each as often as it is there.
    pub fn new(seat: PoolSeat, parts: Composite) -> Core
        requires fit { (pool : SharedPool) × IsFit pool seat parts }
        requires turns { 100 ≤ (view_of seat).turns }
        ensures core { (pool : SharedPool) → IsFit pool seat parts → IsCore pool result }
        ensures underway { (pool : SharedPool) → IsFit pool seat parts → IsUnderway pool result }
        ensures seat { result.seat ≡ seat }
        ensures parts { result.parts ≡ parts }
    {
        prove!(parts.parts() <= 25);
        Core {
            seat,
            parts,
            next: 0,
            ending: None,
        }
    }

    /// Does the next thing of releasing the components. It notes at most one section of the pool, and
    /// at most one step on a root's count. Where a component's root ends by it, the next steps retire
    /// the root, and put its region and its handle away.
    ///
    /// `Went` comes only where something was noted, `Pending` only where another seat was there, and
    /// `Finished` exactly where all was done before. It never answers `Waiting`.
    pub fn step(&mut self, pool: &SharedPool) -> Stepped
        requires core { IsUnderway pool.now self.old }
        ensures core { IsUnderway pool.now self.new }
        ensures stepped { HasStepped pool.now self.old self.new result }
        ensures finished { (result ≡ Finished) ↔ IsOver self.old }
    {
        match replace(&mut self.ending, None) {
            Some(stage) => self.go_on(pool, stage),
            None => self.release_next(pool),
        }
    }

    // Goes on with the end of a root, which is taken out.
    fn go_on(&mut self, pool: &SharedPool, stage: Ending) -> Stepped
        requires out { self.old.ending ≡ None }
        requires core { IsUnderway pool.now (with_ending self.old (Some stage)) }
        ensures core { IsUnderway pool.now self.new }
        ensures stepped { HasStepped pool.now (with_ending self.old (Some stage)) self.new result }
        ensures unfinished { result ≡ Finished → ⊥ }
    {
        match end(pool, &mut self.seat, stage) {
            StageStep::More(next) => {
                self.put(next);
                Stepped::Went
            }
            StageStep::Held(held, again) => {
                self.put(again);
                Stepped::Pending(held)
            }
            StageStep::Done(()) => Stepped::Went,
        }
    }

    // Releases the next component, if one is left.
    fn release_next(&mut self, pool: &SharedPool) -> Stepped
        requires none { self.old.ending ≡ None }
        requires core { IsUnderway pool.now self.old }
        ensures core { IsUnderway pool.now self.new }
        ensures stepped { HasStepped pool.now self.old self.new result }
        ensures finished { (result ≡ Finished) ↔ IsOver self.old }
    {
        if self.next == self.parts.parts() {
            return Stepped::Finished;
        }
        let part = self.parts.part(self.next);
        self.next += 1;
        match pool.release(&mut self.seat, part.root) {
            Release::Kept => Stepped::Went,
            Release::Ended(token) => {
                self.put(Ending::Root(token));
                Stepped::Went
            }
        }
    }

    // Keeps what is left of a root that ended, where nothing is kept.
    fn put(&mut self, stage: Ending)
        requires { self.old.ending ≡ None }
        ensures { self.new ≡ with_ending self.old (Some stage) }
    {
        match replace(&mut self.ending, Some(stage)) {
            None => {}
            Some(_) => unreachable!(),
        }
    }

    /// How many of its components the core has released.
    pub fn released(&self) -> u32
        ensures { result ≡ self.now.next }
    {
        self.next
    }

    /// The seat of a core whose components are all released.
    pub fn into_seat(self) -> PoolSeat
        requires { IsOver self }
        ensures seat { result ≡ self.seat }
        ensures emptied { (pool : SharedPool) → IsUnderway pool self → IsEmptied pool result }
    {
        let Core {
            seat,
            parts: _,
            next: _,
            ending,
        } = self;
        match ending {
            None => seat,
            Some(_) => unreachable!(),
        }
    }

    /// The seat of a core in any state, which a pool that is abandoned needs. The components that are
    /// not released stay counted, and what the seat has in hand is spent: its memory stays taken until
    /// the program ends.
    pub fn leave(self) -> PoolSeat
        ensures { result ≡ self.seat }
    {
        let Core {
            seat,
            parts: _,
            next: _,
            ending,
        } = self;
        match ending {
            None => {}
            Some(stage) => spend(stage),
        }
        seat
    }
}
