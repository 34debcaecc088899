//! A lane: its rows, read one after the other.
ghost use Rattle.std.specs.Prelude.{◌≡◌, ◌+◌, ◌<◌, ◌≤◌, ◌^◌, ◌∷◌, ◌++◌, [], OnOk, length, map};
ghost use Rattle.serde_json.specs.View.{view};
ghost use Rattle.pool_law.specs.Legal.{new_name};
ghost use Rattle.trace_text.specs.Lane.{HasFewRows, commands_after, lane_in, may_follow, nothing_read, with_row};
ghost use Rattle.trace_text.specs.Reading.{GivesAs};
ghost use Rattle.trace_text.specs.Steps.{IsTaken, TakesRow};

use crate::TraceNo;
use crate::items::{RowNo, array_of};
use crate::names::Names;
use crate::words::command;
use pool_law::{Command, CommandList};
use serde_json::Value;
use std::alloc::{AllocError, Global};
use std::collections::BTreeSet;
use std::marker::Model;

/// A lane as far as it is read, with the new names of its commands.
/// Contracts see the names that it has mentioned, and its commands.
#[derive(Drop)]
struct LaneReader {
    names: Names,
    commands: Vec<Command>,
    new_names: BTreeSet<u32>,
}

impl Model for LaneReader {
    ghost use Rattle.std.specs.Prelude.{ℕ, ◌≡◌, not};
    ghost use Rattle.std.specs.Ordering.{nat_cmp};
    ghost use Rattle.std.specs.BTreeSet.{contains};
    ghost use Rattle.trace_text.specs.Lane.{LaneRead, is_new};

    ghost Value = { LaneRead };

    ghost view = { λ r. record { names = r.names; commands = r.commands.items } };

    ghost invariant = { λ r. (name : ℕ) →
        contains nat_cmp r.new_names name ≡ not (is_new name r.commands.items) };
}

impl LaneReader {
    fn new(alloc: Global) -> LaneReader
        ensures { result ≡ nothing_read }
    {
        LaneReader {
            names: Names::new(alloc),
            commands: Vec::new(alloc),
            new_names: BTreeSet::new(alloc),
        }
    }

    /// Takes the command of one more row.
    fn read_row(
        &mut self,
        alloc: Global,
        lanes: usize,
        lane: u32,
        row: &Value,
    ) -> Result<(), TraceNo>
        requires lines { length self.old.commands < 2 ^ 32 }
        requires names { length self.old.names ≤ 2 ^ 31 }
        ensures row { TakesRow result lane self.old self.new
            (with_row lanes self.old (view row.now)) }
        ensures grown { OnOk result (length self.new.names ≤ length self.old.names + 25) }
    {
        let line = self.commands.len() as u32;
        match self.take_row(alloc, lanes, row) {
            Ok(()) => Ok(()),
            Err(RowNo::Form) => Err(TraceNo::Shape { lane, line }),
            Err(RowNo::Memory) => Err(TraceNo::Memory),
        }
    }

    #[tactic(auto, unfolding(crate::specs::Lane::with_row))]
    fn take_row(&mut self, alloc: Global, lanes: usize, row: &Value) -> Result<(), RowNo>
        requires names { length self.old.names ≤ 2 ^ 31 }
        ensures taken { IsTaken result self.new (with_row lanes self.old (view row.now)) }
        ensures grown { OnOk result (length self.new.names ≤ length self.old.names + 25) }
    {
        let command = command(alloc, lanes, &mut self.names, row)?;
        if !self.accepts(&command) {
            return Err(RowNo::Form);
        }
        self.push(command)?;
        Ok(())
    }

    fn push(&mut self, command: Command) -> Result<(), AllocError>
        ensures { OnOk result (self.new
            ≡ record self.old { commands = self.old.commands ++ command ∷ [] }) }
    {
        let name = name_made(&command);
        self.commands.push(command)?;
        if let Some(name) = name {
            if self.new_names.insert(name).is_err() {
                self.commands.pop();
                return Err(AllocError);
            }
        }
        Ok(())
    }

    fn accepts(&self, command: &Command) -> bool
        ensures { result ≡ may_follow self.now.commands command.now }
    {
        match command {
            Command::Recv { fresh, .. } => !self.new_names.contains(fresh),
            _ => true,
        }
    }
}

/// The commands of a lane among so many, from its value.
#[tactic(auto, unfolding(crate::specs::Lane::lane_in))]
pub fn lane_of(
    alloc: Global,
    lanes: usize,
    lane: u32,
    value: &Value,
) -> Result<CommandList, TraceNo>
    requires { HasFewRows (view value.now) }
    ensures { GivesAs (λ commands. commands) result (lane_in lanes lane (view value.now)) }
{
    match array_of(value) {
        Some(rows) => commands_of(alloc, lanes, lane, rows),
        None => Err(TraceNo::Shape { lane, line: 0 }),
    }
}

fn commands_of(
    alloc: Global,
    lanes: usize,
    lane: u32,
    rows: &[Value],
) -> Result<CommandList, TraceNo>
    requires { length rows.now < 2 ^ 25 }
    ensures { GivesAs (λ commands. commands) result
        (commands_after lanes lane nothing_read (map view rows.now)) }
{
    let mut reader = LaneReader::new(alloc);
    for row in rows {
        reader.read_row(alloc, lanes, lane, row)?;
    }
    Ok(CommandList::of(reader.commands))
}

/// The name that a command makes.
fn name_made(command: &Command) -> Option<u32>
    ensures { result ≡ new_name command.now }
{
    match command {
        Command::Alloc { name, .. } => Some(*name),
        Command::Slice { fresh, .. }
        | Command::Dup { fresh, .. }
        | Command::Recv { fresh, .. }
        | Command::Compose { fresh, .. } => Some(*fresh),
        _ => None,
    }
}
