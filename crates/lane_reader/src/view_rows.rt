//! Views that are bound, touched and forgotten.

ghost use Rattle.std.specs.Prelude.{◌≡◌, ℕ, if◌then◌else◌, option_map, IfSome};
ghost use Rattle.std.specs.Option.{option_copied};
ghost use Rattle.pool_law.specs.declared.command.Command.{Command};
ghost use Rattle.pool_law.specs.Dids as says;
ghost use Rattle.pool_law.specs.LaneStates.{LaneState, view_named};
ghost use Rattle.pool_law.specs.Readers.{ToldNotes, step, nothing};
ghost use Rattle.lane_reader.specs.declared.setting.Setting.{Setting};
ghost use Rattle.lane_reader.specs.Bounding.{ChangeIsBounded};
ghost use Rattle.lane_reader.specs.Reading.{log_from, passes};
ghost use Rattle.lane_reader.specs.Standing.{IsLane};
ghost use Rattle.lane_reader.specs.Turning.{Carries};
ghost use Rattle.lane_reader.specs.Viewing.{data_of};

use crate::bound::{Bound, Change};
use crate::lane::Lane;
use crate::log::{At, Log};
use crate::replies::{Said, says};
use crate::view::View;
use pool_law::{Reply, RootId};

impl Lane {
    /// The view of a name.
    pub(crate) fn view_named(&self, name: u32) -> Option<View>
        ensures { (s : LaneState) → IsLane self.now s
            → view_named s name ≡ option_map data_of result }
    {
        match self.named(name)? {
            Bound::Plain(view) => Some(*view),
            Bound::Composed(_) => None,
        }
    }
}

impl Log<'_> {
    // A count of the root is added, if so is asked.
    fn retain_if(&self, at: At, retained: bool, root: &RootId) -> Option<At>
        ensures { (before : ToldNotes) → (if retained then step root.now says.retain else nothing)
            (log_from before self.now at) ≡ passes before self.now result }
    {
        if retained {
            self.retain(at, root)
        } else {
            Some(at)
        }
    }

    /// A part of a view is bound.
    pub(crate) fn slice_row(
        &self,
        at: At,
        lane: &Lane,
        fresh: u32,
        name: u32,
        index: u32,
        len: u32,
        retained: bool,
        reply: &Reply,
    ) -> Option<(Change, At)>
        ensures row { (setting : Setting) → Carries setting lane.now
            (Command.Slice fresh name index len retained) reply.now self.now at result }
        ensures bounded { (most : ℕ) → IfSome result (λ p. ChangeIsBounded most p.0) }
    {
        let view = lane.view_named(name)?;
        if !view.in_range(index, len as usize) {
            return None;
        }
        let behind = self.retain_if(at, retained, &view.root)?;
        let bound = Bound::Plain(view.slice(index, len));
        says(reply, Said::Ok).then_some((Change::Bind { name: fresh, bound }, behind))
    }

    /// A view is bound to a second name.
    pub(crate) fn dup_row(
        &self,
        at: At,
        lane: &Lane,
        fresh: u32,
        name: u32,
        reply: &Reply,
    ) -> Option<(Change, At)>
        ensures row { (setting : Setting) → Carries setting lane.now
            (Command.Dup fresh name) reply.now self.now at result }
        ensures bounded { (most : ℕ) → IfSome result (λ p. ChangeIsBounded most p.0) }
    {
        let bound = Bound::Plain(lane.view_named(name)?);
        says(reply, Said::Ok).then_some((Change::Bind { name: fresh, bound }, at))
    }

    /// The root of a view is touched.
    pub(crate) fn touch_row(
        &self,
        at: At,
        lane: &Lane,
        name: u32,
        reply: &Reply,
    ) -> Option<(Change, At)>
        ensures row { (setting : Setting) → Carries setting lane.now
            (Command.Touch name) reply.now self.now at result }
        ensures bounded { (most : ℕ) → IfSome result (λ p. ChangeIsBounded most p.0) }
    {
        let view = lane.view_named(name)?;
        let behind = self.touch(at, &view.root)?;
        says(reply, Said::Ok).then_some((Change::Same, behind))
    }

    /// A name is unbound.
    pub(crate) fn forget_row(
        &self,
        at: At,
        lane: &Lane,
        name: u32,
        reply: &Reply,
    ) -> Option<(Change, At)>
        ensures row { (setting : Setting) → Carries setting lane.now (Command.Forget name) reply.now
            self.now at result }
        ensures bounded { (most : ℕ) → IfSome result (λ p. ChangeIsBounded most p.0) }
    {
        says(reply, Said::Ok).then_some((Change::Unbind { name }, at))
    }
}
