//! How machines are stepped one after another.
ghost use Rattle.std.specs.Prelude.{◌≡◌, ◌≢◌, ℕ, ◌<◌, All, List, Some, slice_get, vec_len, IfOk, OnOk};
ghost use Rattle.std.specs.Bool.{OnTrue};
ghost use Rattle.work_table.specs.Places.{EachCame};

use crate::machine::{Machine, Stepped};
use std::alloc::AllocError;
use std::sync::Wait;

/// Steps this machine and all of these in turn, until all have finished or one finds no memory.
pub fn step_all<E, O: Machine<E>, M: Machine<E>, R: Wait>(
    rt: &R,
    shared: &E,
    own: &mut O,
    machines: &mut Vec<M>,
) -> Result<(), AllocError>
    requires own { (first : O) × O.comes shared.now first own.old }
    requires machines { (firsts : List M) ×
        EachCame (M.comes shared.now) firsts machines.old.items }
    ensures own { (first : O) →
        O.comes shared.now first own.old → O.comes shared.now first own.new }
    ensures machines { (firsts : List M) →
        EachCame (M.comes shared.now) firsts machines.old.items →
        EachCame (M.comes shared.now) firsts machines.new.items }
    ensures count { vec_len machines.new ≡ vec_len machines.old }
    ensures finished { OnOk result (O.finished own.new × All M.finished machines.new.items) }
{
    for _ in rt.forever() {
        let over = own.step(rt, shared)? == Stepped::Finished;
        if step_each(rt, shared, machines)? && over {
            return Ok(());
        }
    }
    unreachable!()
}

// Steps each machine once. Answers whether all had finished.
fn step_each<E, M: Machine<E>, R: Wait>(
    rt: &R,
    shared: &E,
    machines: &mut Vec<M>,
) -> Result<bool, AllocError>
    requires { (firsts : List M) × EachCame (M.comes shared.now) firsts machines.old.items }
    ensures machines { (firsts : List M) →
        EachCame (M.comes shared.now) firsts machines.old.items →
        EachCame (M.comes shared.now) firsts machines.new.items }
    ensures count { vec_len machines.new ≡ vec_len machines.old }
    ensures finished { IfOk result (λ over. OnTrue over (All M.finished machines.new.items)) }
{
    let mut over = true;
    for i in 0..machines.len() {
        over = step_at(rt, shared, machines, i)? && over;
    }
    Ok(over)
}

// Steps one machine. Answers whether it had finished.
fn step_at<E, M: Machine<E>, R: Wait>(
    rt: &R,
    shared: &E,
    machines: &mut Vec<M>,
    i: usize,
) -> Result<bool, AllocError>
    requires machines { (firsts : List M) ×
        EachCame (M.comes shared.now) firsts machines.old.items }
    requires place { i < vec_len machines.old }
    ensures machines { (firsts : List M) →
        EachCame (M.comes shared.now) firsts machines.old.items →
        EachCame (M.comes shared.now) firsts machines.new.items }
    ensures count { vec_len machines.new ≡ vec_len machines.old }
    ensures others { (k : ℕ) → k ≢ i →
        slice_get machines.new.items k ≡ slice_get machines.old.items k }
    ensures finished { IfOk result (λ over. OnTrue over
        ((m : M) → slice_get machines.new.items i ≡ Some m → M.finished m)) }
{
    let machine = &mut machines[i];
    match machine.step(rt, shared)? {
        Stepped::Finished => Ok(true),
        Stepped::Went | Stepped::Pending | Stepped::Waiting => Ok(false),
    }
}
