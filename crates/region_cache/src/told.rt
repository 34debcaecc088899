//! The notes for which a cache stands.

use crate::cache::Cache;
use pool_law::Noted;
use step_law::Told;

impl Told for Cache {
    ghost use Rattle.region_cache.specs.Standing.{StandsFor, MayFollow, MayFollow-decided};

    type Note = Noted;

    ghost stands = { λ measures setting. StandsFor setting.grounds };

    ghost may_follow = { MayFollow };

    // No count of a root passes a cache.
    ghost gains = { λ place generation n. 0 };

    ghost losses = { λ place generation n. 0 };

    ghost decides = { λ measures setting. MayFollow-decided setting.grounds };

    ghost use Rattle.step_law.specs.Settings.{no_setting};

    ghost settles = { λ values. no_setting };
}
