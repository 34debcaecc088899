//! The histories for which a home value stands.

use crate::home::Home;
use pool_law::Noted;
use step_law::Told;

impl Told for Home {
    ghost use Rattle.std.specs.Prelude.{⊤};
    ghost use Rattle.shared_pool.specs.Standing.{HomeStands};

    type Note = Noted;

    ghost stands = { HomeStands };

    ghost may_follow = { λ home notes n. ⊤ };

    ghost gains = { λ place generation n. 0 };

    ghost losses = { λ place generation n. 0 };

    ghost decides = { λ measures setting home xs ys left right n may. may };

    ghost use Rattle.shared_pool.specs.Settling.{settled_by};

    ghost settles = { settled_by };
}
