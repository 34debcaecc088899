//! A root that is allocated, and bound to a name.

ghost use Rattle.std.specs.Prelude.{◌≡◌, ℕ, ◌<◌, IfSome};
ghost use Rattle.pool_law.specs.declared.command.Command.{Command};
ghost use Rattle.pool_law.specs.LaneLaw.{sweep_period};
ghost use Rattle.lane_reader.specs.Bounding.{ChangeIsBounded};
ghost use Rattle.lane_reader.specs.Turning.{Carries};

use crate::bound::{Bound, Change};
use crate::lane::Lane;
use crate::log::{At, Log};
use crate::patterns::Allotted;
use crate::replies::{Said, says};
use crate::setting::Setting;
use crate::view::View;
use pool_law::Reply;

impl Log<'_> {
    /// A root of so many bytes is allocated, and bound to a name.
    pub(crate) fn alloc_row(
        &self,
        at: At,
        setting: &Setting,
        lane: &Lane,
        name: u32,
        size: u32,
        reply: &Reply,
    ) -> Option<(Change, At)>
        requires { at.asked < sweep_period }
        ensures row { Carries setting.now lane.now (Command.Alloc name size) reply.now self.now at
            result }
        ensures bounded { (most : ℕ) → IfSome result (λ p. ChangeIsBounded most p.0) }
    {
        match self.allot(at, setting.shape, setting.classes, setting.lane, size)? {
            (Allotted::Handles, behind) => {
                says(reply, Said::Handles).then_some((Change::Same, behind))
            }
            (Allotted::Full, behind) => says(reply, Said::Full).then_some((Change::Same, behind)),
            (Allotted::New { root, region }, behind) => {
                let bound = Bound::Plain(View::whole(root));
                let change = Change::Bind { name, bound };
                says(reply, Said::OkPlace(region.place)).then_some((change, behind))
            }
        }
    }
}
