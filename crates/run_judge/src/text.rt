//! The text of what is said of a run.

ghost use Rattle.std.specs.Prelude.{◌≡◌, ◌++◌, IfOk, OnOk};
ghost use Rattle.std.specs.List.{flat_map};
ghost use Rattle.run_judge.specs.Told.{last_line, spot_line, text_for};
ghost use Rattle.std.specs.Prelude.{◌-◌, length, slice_get};

use crate::breach::write_breach;
use log_order::Spot;
use play_check::Played;
use pool_law::Bytes;
use run_report::Writer;
use std::alloc::{AllocError, Global};

/// What is said of a run.
pub fn text_for(alloc: Global, played: &Played) -> Result<Bytes, AllocError>
    ensures { IfOk result (λ text. text ≡ text_for played.now) }
{
    let mut writer = Writer::new(alloc);
    match played {
        Played::Ordered(_) => writer.first("legal\n")?,
        Played::Illegal(breach) => {
            writer.first("not legal: ")?;
            write_breach(&mut writer, breach)?;
            writer.end()?;
        }
        Played::Circle(circle) => {
            writer.first(
                "not legal: each of these notes must stand before the next, the last before the first\n",
            )?;
            spot_lines(&mut writer, circle)?;
        }
        Played::Stuck(order) => {
            writer.first(
                "undecided: no circle of notes, but behind these no lane can go on, of which the last is\n",
            )?;
            last_line(&mut writer, order)?;
        }
    }
    Ok(writer.into_bytes())
}

fn spot_lines(writer: &mut Writer, spots: &[Spot]) -> Result<(), AllocError>
    ensures { OnOk result (writer.new ≡ writer.old ++ flat_map spot_line spots.now) }
{
    for spot in spots {
        write_spot(writer, spot)?;
    }
    Ok(())
}

// The last of the notes, if there is one.
fn last_line(writer: &mut Writer, spots: &[Spot]) -> Result<(), AllocError>
    ensures { OnOk result (writer.new
        ≡ writer.old ++ last_line (slice_get spots.now (length spots.now - 1))) }
{
    match spots.last() {
        Some(spot) => write_spot(writer, spot),
        None => Ok(()),
    }
}

// A note, by its lane and how many of that lane's stand before it.
fn write_spot(writer: &mut Writer, spot: &Spot) -> Result<(), AllocError>
    ensures { OnOk result (writer.new ≡ writer.old ++ spot_line spot.now) }
{
    writer.first("lane")?;
    writer.number(spot.lane as u64)?;
    writer.named("after", spot.at as u64)?;
    writer.word("notes")?;
    writer.end()
}
