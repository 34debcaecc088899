//! The notes of a command that is refused before any, or stopped.

ghost use Rattle.std.specs.Prelude.{◌≡◌};
ghost use Rattle.pool_law.specs.Lanes.{not_carried_out};
ghost use Rattle.pool_law.specs.Readers.{ToldNotes};
ghost use Rattle.lane_reader.specs.Reading.{log_from, passes};

use crate::log::{At, Log};
use pool_law::{Command, Object, Parcel};

impl Log<'_> {
    /// The notes of a command that is not carried out: a send posts an empty parcel.
    pub(crate) fn not_carried_out(&self, at: At, lane: u32, command: &Command) -> Option<At>
        ensures { (before : ToldNotes) → not_carried_out lane command.now
            (log_from before self.now at) ≡ passes before self.now result }
    {
        match command {
            Command::Send { name: _, lane: to } => {
                let mail = Object::Mail {
                    from: lane,
                    to: *to,
                };
                self.post(at, &mail, &Parcel { view: None })
            }
            _ => Some(at),
        }
    }
}
