//! The notes for which an arena stands.

use crate::arena::Arena;
use pool_law::Noted;
use step_law::Told;

impl Told for Arena {
    ghost use Rattle.pool_arena.specs.Standing.{StandsFor, MayFollow, MayFollow-decided};

    type Note = Noted;

    ghost stands = { λ measures setting. StandsFor setting.grounds };

    ghost may_follow = { MayFollow };

    // No count of a root passes an arena.
    ghost gains = { λ place generation n. 0 };

    ghost losses = { λ place generation n. 0 };

    ghost decides = { λ measures setting. MayFollow-decided setting.grounds };

    ghost use Rattle.step_law.specs.Settings.{no_setting};

    ghost settles = { λ values. no_setting };
}
