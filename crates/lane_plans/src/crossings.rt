//! The stretches of a composite that a command sets or gets.

ghost use Rattle.std.specs.Prelude.{◌≡◌, ◌+◌, ◌≤◌, length, IfOk};
ghost use Rattle.pool_law.specs.Composites.{most_bytes, size_of};
ghost use Rattle.lane_plans.specs.Plans.{GetsAt, SetsAt, work_on};

use lane_context::{Composed, Marks, Work};
use lane_stages::{Crossing, Stretch, next_of};
use pool_law::Reply;
use std::alloc::{AllocError, Global};

/// The stretches of a range that is set to these bytes.
pub(crate) fn set_stage(
    alloc: Global,
    whole: &Composed,
    at: u32,
    bytes: &[u8],
) -> Result<Option<Crossing>, AllocError>
    requires inside { at + length bytes.now ≤ size_of whole.now.parts }
    requires small { size_of whole.now.parts ≤ most_bytes }
    ensures { IfOk result (SetsAt whole.now at bytes.now) }
{
    let parts = whole.parts().ranges(alloc, at, bytes.len() as u32)?;
    let mut stretches = Vec::with_capacity(alloc, parts.items().len())?;
    let mut from = 0;
    for part in parts.items() {
        let behind = from + part.len as usize;
        let bytes = Vec::from_slice(alloc, &bytes[from..behind])?;
        stretches.push_reserved(Stretch { part: *part, bytes });
        from = behind;
    }
    let Some((first, later)) = next_of(stretches) else {
        return Ok(None);
    };
    Ok(Some(Crossing::Set(first, later)))
}

/// The stretches of a range that is got.
pub(crate) fn get_stage(
    alloc: Global,
    whole: &Composed,
    at: u32,
    len: u32,
) -> Result<Option<Crossing>, AllocError>
    requires { at + len ≤ size_of whole.now.parts }
    ensures { IfOk result (GetsAt whole.now at len) }
{
    let parts = whole.parts().ranges(alloc, at, len)?;
    let mut stretches = Vec::with_capacity(alloc, parts.items().len())?;
    for part in parts.items() {
        let bytes = Vec::from_elem(alloc, 0, part.len as usize)?;
        stretches.push_reserved(Stretch { part: *part, bytes });
    }
    let Some((first, later)) = next_of(stretches) else {
        return Ok(None);
    };
    let got = Vec::with_capacity(alloc, len as usize)?;
    Ok(Some(Crossing::Get(first, later, got)))
}

/// The work on a range: where it has no bytes, the reply is this.
pub(crate) fn crossing(
    name: u32,
    marks: Option<Marks>,
    stage: Option<Crossing>,
    reply: Reply,
) -> Work
    ensures { result ≡ work_on name marks stage reply }
{
    match stage {
        Some(stage) => Work::Cross { name, marks, stage },
        None => Work::Empty { name, marks, reply },
    }
}
