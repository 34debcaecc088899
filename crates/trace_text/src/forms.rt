//! The forms of commands, each from the items of its row.
ghost use Rattle.std.specs.Prelude.{◌≡◌, ◌+◌, ◌≤◌, ◌^◌, OnOk, length, map};
ghost use Rattle.serde_json.specs.View.{view};
ghost use Rattle.trace_text.specs.Forms.{compose_of, get_of, name_and_lane_in, name_and_number_in, numbers_in, one_name_in, set_of, slice_of, two_names_in, write_of};
ghost use Rattle.trace_text.specs.Steps.{IsRead};

use crate::items::{RowNo, bytes_of, lane_number_of, name_of, number_of};
use crate::names::Names;
use pool_law::{Command, NameList};
use serde_json::Value;
use std::alloc::{AllocError, Global};

/// The most views of a `compose`.
pub const VIEW_LIMIT: usize = 24;

#[tactic(auto, using(crate::proofs::Values::item_view), unfolding(crate::specs::Forms::set_of))]
pub fn set(alloc: Global, tries: bool, names: &mut Names, items: &[Value]) -> Result<Command, RowNo>
    requires few { length names.old ≤ 2 ^ 31 }
    ensures read { IsRead result names.new (set_of tries names.old (map view items.now)) }
    ensures grown { OnOk result (length names.new ≤ length names.old + 25) }
{
    let [_, name, at, bytes] = items else {
        return Err(RowNo::Form);
    };
    let name = name_of(name).ok_or(RowNo::Form)?;
    let at = number_of(at).ok_or(RowNo::Form)?;
    let bytes = bytes_of(alloc, bytes)?;
    let name = names.number(alloc, name)?;
    Ok(Command::Set {
        name,
        at,
        bytes,
        tries,
    })
}

#[tactic(auto, using(crate::proofs::Values::item_view), unfolding(crate::specs::Forms::get_of))]
pub fn get(alloc: Global, tries: bool, names: &mut Names, items: &[Value]) -> Result<Command, RowNo>
    requires few { length names.old ≤ 2 ^ 31 }
    ensures read { IsRead result names.new (get_of tries names.old (map view items.now)) }
    ensures grown { OnOk result (length names.new ≤ length names.old + 25) }
{
    let [_, name, at, len] = items else {
        return Err(RowNo::Form);
    };
    let name = name_of(name).ok_or(RowNo::Form)?;
    let at = number_of(at).ok_or(RowNo::Form)?;
    let len = number_of(len).ok_or(RowNo::Form)?;
    let name = names.number(alloc, name)?;
    Ok(Command::Get {
        name,
        at,
        len,
        tries,
    })
}

#[tactic(auto, using(crate::proofs::Values::item_view), unfolding(crate::specs::Forms::write_of))]
pub fn write(alloc: Global, names: &mut Names, items: &[Value]) -> Result<Command, RowNo>
    requires few { length names.old ≤ 2 ^ 31 }
    ensures read { IsRead result names.new (write_of names.old (map view items.now)) }
    ensures grown { OnOk result (length names.new ≤ length names.old + 25) }
{
    let [_, name, bytes] = items else {
        return Err(RowNo::Form);
    };
    let name = name_of(name).ok_or(RowNo::Form)?;
    let bytes = bytes_of(alloc, bytes)?;
    let name = names.number(alloc, name)?;
    Ok(Command::Write { name, bytes })
}

#[tactic(auto, using(crate::proofs::Values::item_view), unfolding(crate::specs::Forms::slice_of))]
pub fn slice(
    alloc: Global,
    retained: bool,
    names: &mut Names,
    items: &[Value],
) -> Result<Command, RowNo>
    requires few { length names.old ≤ 2 ^ 31 }
    ensures read { IsRead result names.new (slice_of retained names.old (map view items.now)) }
    ensures grown { OnOk result (length names.new ≤ length names.old + 25) }
{
    let [_, fresh, name, at, len] = items else {
        return Err(RowNo::Form);
    };
    let fresh = name_of(fresh).ok_or(RowNo::Form)?;
    let name = name_of(name).ok_or(RowNo::Form)?;
    let at = number_of(at).ok_or(RowNo::Form)?;
    let len = number_of(len).ok_or(RowNo::Form)?;
    let fresh = names.number(alloc, fresh)?;
    let name = names.number(alloc, name)?;
    Ok(Command::Slice {
        fresh,
        name,
        at,
        len,
        retained,
    })
}

#[tactic(auto, using(crate::proofs::Values::item_view), unfolding(crate::specs::Forms::compose_of))]
pub fn compose(alloc: Global, names: &mut Names, items: &[Value]) -> Result<Command, RowNo>
    requires few { length names.old ≤ 2 ^ 31 }
    ensures read { IsRead result names.new (compose_of names.old (map view items.now)) }
    ensures grown { OnOk result (length names.new ≤ length names.old + 25) }
{
    let [_, fresh, views @ ..] = items else {
        return Err(RowNo::Form);
    };
    if views.is_empty() || views.len() > VIEW_LIMIT {
        return Err(RowNo::Form);
    }
    let fresh = name_of(fresh).ok_or(RowNo::Form)?;
    let fresh = names.number(alloc, fresh)?;
    let names = numbers(alloc, names, views)?;
    Ok(Command::Compose { fresh, names })
}

/// Names, one after the other.
fn numbers(alloc: Global, names: &mut Names, items: &[Value]) -> Result<NameList, RowNo>
    requires few { length names.old ≤ 2 ^ 31 + 1 }
    requires short { length items.now ≤ 24 }
    ensures read { IsRead result names.new (numbers_in names.old (map view items.now)) }
    ensures grown { OnOk result (length names.new ≤ length names.old + length items.now) }
{
    let mut numbers = Vec::new(alloc);
    for item in items {
        let name = name_of(item).ok_or(RowNo::Form)?;
        let number = names.number(alloc, name)?;
        numbers.push(number).map_err(AllocError::from)?;
    }
    Ok(NameList::of(numbers))
}

/// A name.
#[tactic(auto, using(crate::proofs::Values::item_view), unfolding(crate::specs::Forms::one_name_in))]
pub fn one_name(alloc: Global, names: &mut Names, items: &[Value]) -> Result<u32, RowNo>
    requires few { length names.old ≤ 2 ^ 31 }
    ensures read { IsRead result names.new (one_name_in names.old (map view items.now)) }
    ensures grown { OnOk result (length names.new ≤ length names.old + 25) }
{
    let [_, name] = items else {
        return Err(RowNo::Form);
    };
    let name = name_of(name).ok_or(RowNo::Form)?;
    Ok(names.number(alloc, name)?)
}

/// Two names.
#[tactic(auto, using(crate::proofs::Values::item_view), unfolding(crate::specs::Forms::two_names_in))]
pub fn two_names(alloc: Global, names: &mut Names, items: &[Value]) -> Result<(u32, u32), RowNo>
    requires few { length names.old ≤ 2 ^ 31 }
    ensures read { IsRead result names.new (two_names_in names.old (map view items.now)) }
    ensures grown { OnOk result (length names.new ≤ length names.old + 25) }
{
    let [_, first, second] = items else {
        return Err(RowNo::Form);
    };
    let first = name_of(first).ok_or(RowNo::Form)?;
    let second = name_of(second).ok_or(RowNo::Form)?;
    let first = names.number(alloc, first)?;
    let second = names.number(alloc, second)?;
    Ok((first, second))
}

/// A name and a number.
#[tactic(auto, using(crate::proofs::Values::item_view), unfolding(crate::specs::Forms::name_and_number_in))]
pub fn name_and_number(
    alloc: Global,
    names: &mut Names,
    items: &[Value],
) -> Result<(u32, u32), RowNo>
    requires few { length names.old ≤ 2 ^ 31 }
    ensures read { IsRead result names.new (name_and_number_in names.old (map view items.now)) }
    ensures grown { OnOk result (length names.new ≤ length names.old + 25) }
{
    let [_, name, number] = items else {
        return Err(RowNo::Form);
    };
    let name = name_of(name).ok_or(RowNo::Form)?;
    let number = number_of(number).ok_or(RowNo::Form)?;
    let name = names.number(alloc, name)?;
    Ok((name, number))
}

/// A name, and the number of one of so many lanes.
#[tactic(auto, using(crate::proofs::Values::item_view), unfolding(crate::specs::Forms::name_and_lane_in))]
pub fn name_and_lane(
    alloc: Global,
    lanes: usize,
    names: &mut Names,
    items: &[Value],
) -> Result<(u32, u32), RowNo>
    requires few { length names.old ≤ 2 ^ 31 }
    ensures read { IsRead result names.new (name_and_lane_in lanes names.old (map view items.now)) }
    ensures grown { OnOk result (length names.new ≤ length names.old + 25) }
{
    let [_, name, lane] = items else {
        return Err(RowNo::Form);
    };
    let name = name_of(name).ok_or(RowNo::Form)?;
    let lane = lane_number_of(lanes, lane).ok_or(RowNo::Form)?;
    let name = names.number(alloc, name)?;
    Ok((name, lane))
}
