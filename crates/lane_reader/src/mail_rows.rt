//! Views that lanes send each other.

ghost use Rattle.std.specs.Prelude.{◌≡◌, ℕ, IfSome};
ghost use Rattle.pool_law.specs.declared.command.Command.{Command};
ghost use Rattle.pool_law.specs.Dids as says;
ghost use Rattle.pool_law.specs.Lanes.{parcel_of};
ghost use Rattle.pool_law.specs.Readers.{ToldNotes, note};
ghost use Rattle.lane_reader.specs.Bounding.{ChangeIsBounded};
ghost use Rattle.lane_reader.specs.Reading.{log_from, passes};
ghost use Rattle.lane_reader.specs.Turning.{Carries};
ghost use Rattle.lane_reader.specs.Viewing.{data_of};

use crate::bound::{Bound, Change};
use crate::lane::Lane;
use crate::log::{At, Log};
use crate::replies::{Said, says};
use crate::setting::Setting;
use crate::view::View;
use pool_law::{Did, Object, Parcel, Reply};

impl Log<'_> {
    // The parcel with the view is posted.
    #[tactic(auto, using(crate::proofs::ReadingLemmas::note_says))]
    fn post_view(&self, at: At, object: &Object, view: &View) -> Option<At>
        ensures { (before : ToldNotes) → note object.now (says.post (parcel_of (data_of view.now)))
            (log_from before self.now at) ≡ passes before self.now result }
    {
        match self.note(at, object)? {
            (Did::Post(Parcel { view: Some(other) }), behind) => view.is(other).then_some(behind),
            _ => None,
        }
    }

    /// A view is sent to a lane.
    pub(crate) fn send_row(
        &self,
        at: At,
        setting: &Setting,
        lane: &Lane,
        name: u32,
        to: u32,
        reply: &Reply,
    ) -> Option<(Change, At)>
        ensures row { Carries setting.now lane.now (Command.Send name to) reply.now self.now at
            result }
        ensures bounded { (most : ℕ) → IfSome result (λ p. ChangeIsBounded most p.0) }
    {
        let view = lane.view_named(name)?;
        let mail = Object::Mail {
            from: setting.lane,
            to,
        };
        let behind = self.post_view(at, &mail, &view)?;
        says(reply, Said::Ok).then_some((Change::Same, behind))
    }

    /// What a lane sent is bound, where it sent a view.
    pub(crate) fn recv_row(
        &self,
        at: At,
        setting: &Setting,
        lane: &Lane,
        fresh: u32,
        from: u32,
        reply: &Reply,
    ) -> Option<(Change, At)>
        ensures row { Carries setting.now lane.now (Command.Recv fresh from) reply.now self.now at
            result }
        ensures bounded { (most : ℕ) → IfSome result (λ p. ChangeIsBounded most p.0) }
    {
        let mail = Object::Mail {
            from,
            to: setting.lane,
        };
        let (parcel, behind) = self.fetch(at, &mail)?;
        match parcel.view {
            None => says(reply, Said::Nothing).then_some((Change::Same, behind)),
            Some(view) => {
                let bound = Bound::Plain(View::of(view));
                says(reply, Said::Ok).then_some((Change::Bind { name: fresh, bound }, behind))
            }
        }
    }
}
