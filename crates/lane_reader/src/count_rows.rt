//! What a retain, a release and a look at a count come to.

ghost use Rattle.std.specs.Prelude.{◌≡◌, ◌+◌, ◌-◌, ◌≤◌, ◌^◌, ℕ, length, IfSome};
ghost use Rattle.pool_law.specs.declared.command.Command.{Command};
ghost use Rattle.pool_law.specs.Readers.{ToldNotes};
ghost use Rattle.lane_reader.specs.Allotting.{reply_to, reads_release, release_whole};
ghost use Rattle.lane_reader.specs.Bounding.{AreBounded, ChangeIsBounded};
ghost use Rattle.lane_reader.specs.Counting.{AreCounts, AreWithin};
ghost use Rattle.lane_reader.specs.Reading.{log_from};
ghost use Rattle.lane_reader.specs.Replying.{reply_that};
ghost use Rattle.lane_reader.specs.Turning.{Carries};
ghost use Rattle.lane_reader.specs.Viewing.{composite_in};

use crate::bound::{Bound, Change, Update};
use crate::composite::Composite;
use crate::counts::Counts;
use crate::lane::Lane;
use crate::log::{At, Log};
use crate::patterns::Released;
use crate::replies::{Said, says};
use crate::setting::Setting;
use pool_law::{Reply, Shape};

// What a release is answered.
fn said_by(released: Released) -> Said
    ensures { reply_that result ≡ reply_to released }
{
    match released {
        Released::Kept => Said::Kept,
        Released::Freed => Said::Freed,
    }
}

impl Log<'_> {
    /// What becomes of the names by a retain.
    pub(crate) fn retain_row(
        &self,
        at: At,
        setting: &Setting,
        lane: &Lane,
        name: u32,
        reply: &Reply,
    ) -> Option<(Change, At)>
        requires bounded { AreBounded (2 ^ 32) lane.now }
        ensures row { Carries setting.now lane.now (Command.Retain name) reply.now self.now at
            result }
        ensures bounded { (most : ℕ) → 1 ≤ most → AreBounded most lane.now
            → IfSome result (λ p. ChangeIsBounded (most + 1) p.0) }
    {
        let (change, behind) = match lane.named(name)? {
            Bound::Plain(view) => (Change::Same, self.retain(at, &view.root)?),
            Bound::Composed(composite) => {
                let update = Update::Count(composite.count + 1);
                (Change::Update { name, update }, at)
            }
        };
        says(reply, Said::Ok).then_some((change, behind))
    }

    // A count of a composite is taken away, and its last one releases its parts.
    fn release_whole(
        &self,
        at: At,
        shape: &Shape,
        counts: &Counts,
        composite: &Composite,
    ) -> Option<(Released, At)>
        requires handles { 1 ≤ shape.now.handles }
        requires room { AreWithin counts.now (2 ^ 64 - 1 - length self.now.notes.now) }
        ensures { (before : ToldNotes) → AreCounts counts.now before → release_whole shape.now
            (composite_in composite.now) (log_from before self.now at)
            ≡ reads_release before self.now result }
    {
        if composite.count != 1 {
            return Some((Released::Kept, at));
        }
        let behind = self.release_parts(at, shape, counts, &composite.parts)?;
        Some((Released::Freed, behind))
    }

    /// What becomes of the names by a release.
    pub(crate) fn release_row(
        &self,
        at: At,
        setting: &Setting,
        lane: &Lane,
        name: u32,
        reply: &Reply,
    ) -> Option<(Change, At)>
        requires room { AreWithin lane.now.counts (2 ^ 64 - 1 - length self.now.notes.now) }
        ensures row { Carries setting.now lane.now (Command.Release name) reply.now self.now at
            result }
        ensures bounded { (most : ℕ) → 1 ≤ most → AreBounded most lane.now
            → IfSome result (λ p. ChangeIsBounded (most + 1) p.0) }
    {
        match lane.named(name)? {
            Bound::Plain(view) => {
                let (released, behind) = self.release(at, setting.shape, &view.root)?;
                says(reply, said_by(released)).then_some((Change::Same, behind))
            }
            Bound::Composed(composite) => {
                let (released, behind) = self.release_whole(
                    at,
                    setting.shape,
                    &lane.counts,
                    composite,
                )?;
                let update = Update::Count(composite.count.saturating_sub(1));
                let change = Change::Update { name, update };
                says(reply, said_by(released)).then_some((change, behind))
            }
        }
    }

    /// What becomes of the names by a look at a count.
    pub(crate) fn refcnt_row(
        &self,
        at: At,
        setting: &Setting,
        lane: &Lane,
        name: u32,
        reply: &Reply,
    ) -> Option<(Change, At)>
        ensures row { Carries setting.now lane.now (Command.Refcnt name) reply.now self.now at
            result }
        ensures bounded { (most : ℕ) → 1 ≤ most → AreBounded most lane.now
            → IfSome result (λ p. ChangeIsBounded (most + 1) p.0) }
    {
        let (count, behind) = match lane.named(name)? {
            Bound::Plain(view) => {
                let (count, behind) = self.look(at, &view.root)?;
                (u64::from(count), behind)
            }
            Bound::Composed(composite) => (composite.count, at),
        };
        says(reply, Said::OkNumber(count)).then_some((Change::Same, behind))
    }
}
