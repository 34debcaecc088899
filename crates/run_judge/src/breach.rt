//! The text of how a run breaks the law of the pool.

ghost use Rattle.std.specs.Prelude.{◌≡◌, ◌++◌, ◌∷◌, [], OnOk, decimal};
ghost use Rattle.pool_law.specs.Text.{dotted, object_words, spaced};
ghost use Rattle.run_judge.specs.Told.{told_at, number_place, note_place, root_place, line_place, place_text, reason_text, history_text, breach_text};

use pool_law::{Object, RootId};
use run_check::{Breach, NoteSpot};
use run_report::Writer;
use std::alloc::AllocError;

/// The part of the law that isn't kept, and where first.
pub fn write_breach(writer: &mut Writer, breach: &Breach) -> Result<(), AllocError>
    ensures { OnOk result (writer.new ≡ writer.old ++ breach_text breach.now) }
{
    write_place(writer, breach)?;
    writer.first(reason_of(breach))
}

// Where it is first that it isn't kept, if it is at one place.
fn write_place(writer: &mut Writer, breach: &Breach) -> Result<(), AllocError>
    ensures { OnOk result (writer.new ≡ writer.old ++ place_text breach.now) }
{
    match *breach {
        Breach::Measures => Ok(()),
        Breach::Lanes => Ok(()),
        Breach::Commands => Ok(()),
        Breach::History { object, number } => at_number(writer, &object, number),
        Breach::Notes(spot) => at_note(writer, spot),
        Breach::Marks(spot) => at_note(writer, spot),
        Breach::Chunks(at) => after_lines(writer, at, "chunk"),
        Breach::Answers { lane, command } => at_command(writer, lane, command),
        Breach::Uses(spot) => at_note(writer, spot),
        Breach::Totals(root) => at_root(writer, &root),
        Breach::Unborn(spot) => at_note(writer, spot),
        Breach::Looks(spot) => at_note(writer, spot),
        Breach::Leaks(at) => after_lines(writer, at, "leak"),
    }
}

// How it isn't kept.
fn reason_of(breach: &Breach) -> &'static str
    ensures { result.now ≡ reason_text breach.now }
{
    match breach {
        Breach::Measures => "the measures are past the limits of a pool",
        Breach::Lanes => "there are not commands and a log for each lane",
        Breach::Commands => "the commands of some lane are none that a lane may be given",
        Breach::History { object, .. } => history_reason(object),
        Breach::Notes(_) => "the lane may not make this note",
        Breach::Marks(_) => "with this note the busy notes of the lane cannot be right",
        Breach::Chunks(_) => "the next is not what the arenas have at the end",
        Breach::Answers { .. } => {
            "from here on the replies and notes are not those of the commands and the closing"
        }
        Breach::Uses(_) => {
            "this note uses a root that the lane does not count, or ends one that it still counts"
        }
        Breach::Totals(_) => "its counts over all lanes do not add up",
        Breach::Unborn(_) => "this note names a root that was never born",
        Breach::Looks(_) => "this note looks up a count that the root cannot have",
        Breach::Leaks(_) => "the next is not that of the next sampled root that is live",
    }
}

// How the notes at an object are none that can be.
fn history_reason(object: &Object) -> &'static str
    ensures { result.now ≡ history_text object.now }
{
    match object {
        Object::Mail { .. } => {
            "up to this one its posts are not numbered so, or what is fetched is not what was posted"
        }
        _ => "up to this one its notes have not each number once, or it does not accept them so",
    }
}

// A command of a lane, by the number of its reply line.
fn at_command(writer: &mut Writer, lane: u32, command: usize) -> Result<(), AllocError>
    ensures { OnOk result (writer.new ≡ writer.old ++ told_at (dotted lane command ∷ [])) }
{
    writer.first_dotted(u64::from(lane), command as u64)?;
    writer.first(": ")
}

// A note of a lane.
fn at_note(writer: &mut Writer, spot: NoteSpot) -> Result<(), AllocError>
    ensures { OnOk result
        (writer.new ≡ writer.old ++ told_at (note_place spot.lane spot.at)) }
{
    writer.first("lane")?;
    writer.number(u64::from(spot.lane))?;
    writer.named("after", spot.at as u64)?;
    writer.word("notes")?;
    writer.first(": ")
}

// A root.
fn at_root(writer: &mut Writer, root: &RootId) -> Result<(), AllocError>
    ensures { OnOk result (writer.new ≡ writer.old ++ told_at (root_place root.now)) }
{
    writer.first("root")?;
    writer.dotted(root.place, root.generation)?;
    writer.first(": ")
}

// The line behind so many of a kind.
fn after_lines(writer: &mut Writer, at: usize, kind: &str) -> Result<(), AllocError>
    ensures { OnOk result (writer.new ≡ writer.old ++ told_at (line_place at kind.now)) }
{
    writer.first("after")?;
    writer.number(at as u64)?;
    writer.word(kind)?;
    writer.word("lines")?;
    writer.first(": ")
}

// The notes at an object up to a number.
fn at_number(writer: &mut Writer, object: &Object, number: u64) -> Result<(), AllocError>
    ensures { OnOk result (writer.new ≡ writer.old ++ number_place object.now number) }
{
    write_object(writer, object)?;
    writer.first(" number ")?;
    writer.first_number(number)?;
    writer.first(": ")
}

// An object, as the history names it.
fn write_object(writer: &mut Writer, object: &Object) -> Result<(), AllocError>
    ensures { OnOk result (writer.new ≡ writer.old ++ spaced (object_words object.now)) }
{
    match *object {
        Object::Arena(number) => named(writer, "arena", number),
        Object::Cache { lane, class } => {
            named(writer, "cache", lane)?;
            writer.number(u64::from(class))
        }
        Object::Bin(lane) => named(writer, "bin", lane),
        Object::Mail { from, to } => {
            named(writer, "mail", from)?;
            writer.number(u64::from(to))
        }
        Object::Root(place) => named(writer, "root", place),
    }
}

// A word and its number.
fn named(writer: &mut Writer, word: &str, number: u32) -> Result<(), AllocError>
    ensures { OnOk result
        (writer.new ≡ writer.old ++ spaced (word.now ∷ decimal number ∷ [])) }
{
    writer.first(word)?;
    writer.number(u64::from(number))
}
