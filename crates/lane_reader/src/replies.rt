//! What a command is answered.

ghost use Rattle.std.specs.Prelude.{◌≡◌};
ghost use Rattle.lane_reader.specs.Replying.{same_reply, reply_of, reply_that};

use object_steps::same_bytes;
use pool_law::{Place, Reply};

/// Why a command is refused before it notes anything.
#[derive(Clone, Copy, Drop)]
pub(crate) enum Refused {
    Taken,
    Unbound,
    Composite,
    Plain,
    Illegal,
    Range,
    TooLarge,
}

/// What may be answered beside bytes.
#[derive(Clone, Copy, Drop)]
pub(crate) enum Said {
    Ok,
    OkPlace(Place),
    OkNumber(u64),
    Kept,
    Freed,
    Handles,
    Full,
    Busy(u64),
    Nothing,
    Refused(Refused),
    Stopped,
}

/// Whether a reply says this.
pub(crate) fn says(reply: &Reply, said: Said) -> bool
    ensures { result ≡ same_reply (reply_that said) reply.now }
{
    match (said, reply) {
        (Said::Ok, Reply::Ok)
        | (Said::Kept, Reply::Kept)
        | (Said::Freed, Reply::Freed)
        | (Said::Handles, Reply::Handles)
        | (Said::Full, Reply::Full)
        | (Said::Nothing, Reply::Nothing)
        | (Said::Stopped, Reply::Stopped) => true,
        (Said::OkPlace(place), Reply::OkPlace { size, place: other }) => {
            place.len == *size && place == *other
        }
        (Said::OkNumber(number), Reply::OkNumber(other)) => number == u64::from(*other),
        (Said::Busy(number), Reply::Busy(other)) => number == *other,
        (Said::Refused(refused), _) => is_refusal(reply, refused),
        _ => false,
    }
}

// Whether a reply is this refusal.
fn is_refusal(reply: &Reply, refused: Refused) -> bool
    ensures { result ≡ same_reply (reply_of refused) reply.now }
{
    matches!(
        (refused, reply),
        (Refused::Taken, Reply::Taken)
            | (Refused::Unbound, Reply::Unbound)
            | (Refused::Composite, Reply::Composite)
            | (Refused::Plain, Reply::Plain)
            | (Refused::Illegal, Reply::Illegal)
            | (Refused::Range, Reply::Range)
            | (Refused::TooLarge, Reply::TooLarge)
    )
}
