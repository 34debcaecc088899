//! Commands of a name with a number, with another name or with a lane.
ghost use Rattle.std.specs.Prelude.{◌≡◌, ◌+◌, ◌≤◌, ◌^◌, OnOk, length, map};
ghost use Rattle.serde_json.specs.View.{view};
ghost use Rattle.pool_law.specs.declared.command.Command.{Command};
ghost use Rattle.trace_text.specs.Forms.{name_and_lane_in, name_and_number_in, two_names_in};
ghost use Rattle.trace_text.specs.Steps.{IsRead};
ghost use Rattle.trace_text.specs.Words.{read_as};

use crate::forms::{name_and_lane, name_and_number, two_names};
use crate::items::RowNo;
use crate::names::Names;
use pool_law::Command;
use serde_json::Value;
use std::alloc::Global;

/// A fresh name, and how many bytes it is to have.
pub fn alloc(alloc: Global, names: &mut Names, items: &[Value]) -> Result<Command, RowNo>
    requires few { length names.old ≤ 2 ^ 31 }
    ensures read { IsRead result names.new
        (read_as (λ p. Command.Alloc p.0 p.1) (name_and_number_in names.old (map view items.now))) }
    ensures grown { OnOk result (length names.new ≤ length names.old + 25) }
{
    let (name, size) = name_and_number(alloc, names, items)?;
    Ok(Command::Alloc { name, size })
}

/// A name, and how many bytes behind its reader are asked for.
pub fn read(alloc: Global, names: &mut Names, items: &[Value]) -> Result<Command, RowNo>
    requires few { length names.old ≤ 2 ^ 31 }
    ensures read { IsRead result names.new
        (read_as (λ p. Command.Read p.0 p.1) (name_and_number_in names.old (map view items.now))) }
    ensures grown { OnOk result (length names.new ≤ length names.old + 25) }
{
    let (name, len) = name_and_number(alloc, names, items)?;
    Ok(Command::Read { name, len })
}

/// A name, and how many bytes its root is to have room for.
pub fn capacity(alloc: Global, names: &mut Names, items: &[Value]) -> Result<Command, RowNo>
    requires few { length names.old ≤ 2 ^ 31 }
    ensures read { IsRead result names.new
        (read_as (λ p. Command.Capacity p.0 p.1)
        (name_and_number_in names.old (map view items.now))) }
    ensures grown { OnOk result (length names.new ≤ length names.old + 25) }
{
    let (name, size) = name_and_number(alloc, names, items)?;
    Ok(Command::Capacity { name, size })
}

/// A fresh name, and the name whose bytes it is to have too.
pub fn dup(alloc: Global, names: &mut Names, items: &[Value]) -> Result<Command, RowNo>
    requires few { length names.old ≤ 2 ^ 31 }
    ensures read { IsRead result names.new
        (read_as (λ p. Command.Dup p.0 p.1) (two_names_in names.old (map view items.now))) }
    ensures grown { OnOk result (length names.new ≤ length names.old + 25) }
{
    let (fresh, name) = two_names(alloc, names, items)?;
    Ok(Command::Dup { fresh, name })
}

/// A composite, and the name that becomes its last part.
pub fn add(alloc: Global, names: &mut Names, items: &[Value]) -> Result<Command, RowNo>
    requires few { length names.old ≤ 2 ^ 31 }
    ensures read { IsRead result names.new
        (read_as (λ p. Command.Add p.0 p.1) (two_names_in names.old (map view items.now))) }
    ensures grown { OnOk result (length names.new ≤ length names.old + 25) }
{
    let (whole, name) = two_names(alloc, names, items)?;
    Ok(Command::Add { whole, name })
}

/// A name, and the lane that it goes to.
pub fn send(
    alloc: Global,
    lanes: usize,
    names: &mut Names,
    items: &[Value],
) -> Result<Command, RowNo>
    requires few { length names.old ≤ 2 ^ 31 }
    ensures read { IsRead result names.new
        (read_as (λ p. Command.Send p.0 p.1)
        (name_and_lane_in lanes names.old (map view items.now))) }
    ensures grown { OnOk result (length names.new ≤ length names.old + 25) }
{
    let (name, lane) = name_and_lane(alloc, lanes, names, items)?;
    Ok(Command::Send { name, lane })
}

/// A fresh name, and the lane that sends it.
pub fn recv(
    alloc: Global,
    lanes: usize,
    names: &mut Names,
    items: &[Value],
) -> Result<Command, RowNo>
    requires few { length names.old ≤ 2 ^ 31 }
    ensures read { IsRead result names.new
        (read_as (λ p. Command.Recv p.0 p.1)
        (name_and_lane_in lanes names.old (map view items.now))) }
    ensures grown { OnOk result (length names.new ≤ length names.old + 25) }
{
    let (fresh, lane) = name_and_lane(alloc, lanes, names, items)?;
    Ok(Command::Recv { fresh, lane })
}
