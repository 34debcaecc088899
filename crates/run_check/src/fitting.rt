//! Whether commands are ones that lanes may be given.

ghost use Rattle.std.specs.Prelude.{◌≡◌, ◌∷◌, ◌++◌, [], ℕ, List, ◌↔◌, IsTrue, IfOk, OnOk};
ghost use Rattle.pool_law.specs.declared.command.Command.{Command};
ghost use Rattle.pool_law.specs.Logs.{of_lane};
ghost use Rattle.pool_law.specs.Legal.{new_name, fits_after, AreCommands};
ghost use Rattle.run_check.specs.Fitting.{AreBrought};

use pool_law::{Command, CommandList, Shape};
use std::alloc::{AllocError, Global};
use std::collections::BTreeSet;

// The new name of a command, if it has one.
fn new_name(command: &Command) -> Option<u32>
    ensures { result ≡ new_name command.now }
{
    match command {
        Command::Alloc { name, size: _ } => Some(*name),
        Command::Slice {
            fresh,
            name: _,
            at: _,
            len: _,
            retained: _,
        } => Some(*fresh),
        Command::Dup { fresh, name: _ } => Some(*fresh),
        Command::Recv { fresh, lane: _ } => Some(*fresh),
        Command::Compose { fresh, names: _ } => Some(*fresh),
        _ => None,
    }
}

// A command brings its new name.
fn bring(names: &mut BTreeSet<u32>, command: &Command) -> Result<(), AllocError>
    ensures { (earlier : List Command) → AreBrought names.old earlier
        → OnOk result (AreBrought names.new (earlier ++ command.now ∷ [])) }
{
    if let Some(name) = new_name(command) {
        names.insert(name)?;
    }
    Ok(())
}

// Whether a command fits after those that brought these names.
fn fits(shape: &Shape, names: &BTreeSet<u32>, command: &Command) -> bool
    ensures { (earlier : List Command) → AreBrought names.now earlier
        → result ≡ fits_after shape.now earlier command.now }
{
    match command {
        Command::Send { name: _, lane } => *lane < shape.lanes,
        Command::Recv { fresh, lane } => *lane < shape.lanes && !names.contains(fresh),
        Command::Compose {
            fresh: _,
            names: parts,
        } => parts.items().len() >= 1 && parts.items().len() <= 24,
        _ => true,
    }
}

/// Whether these are the commands of a lane.
pub fn are_commands(alloc: Global, shape: &Shape, commands: &[Command]) -> Result<bool, AllocError>
    ensures { IfOk result (λ good. IsTrue good ↔ AreCommands shape.now commands.now) }
{
    if commands.len() > 65536 {
        return Ok(false);
    }
    let mut names = BTreeSet::new(alloc);
    for command in commands {
        if !fits(shape, &names, command) {
            return Ok(false);
        }
        bring(&mut names, command)?;
    }
    Ok(true)
}

/// Whether these are the commands of lanes.
pub fn all_are_commands(
    alloc: Global,
    shape: &Shape,
    lanes: &[CommandList],
) -> Result<bool, AllocError>
    ensures { IfOk result (λ good. IsTrue good
        ↔ ((lane : ℕ) → AreCommands shape.now (of_lane lanes.now lane))) }
{
    for commands in lanes {
        if !are_commands(alloc, shape, commands.items())? {
            return Ok(false);
        }
    }
    Ok(true)
}
