//! What a pass on a mail knows.

use std::marker::Model;

/// What a pass on a mail's queue knows. No value of it is made: a contract sees a `KnownEnds`.
pub struct MailEnds;

impl Model for MailEnds {
    ghost use Rattle.shared_pool.specs.MailEnds.{KnownEnds, no_ends};

    ghost Value = { KnownEnds };

    ghost view = { λ t. no_ends };
}
