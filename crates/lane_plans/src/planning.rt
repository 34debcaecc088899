//! What a command on a composite is to do, planned before its first note: all memory for it is
//! taken here, and what the table refuses is refused here.

ghost use Rattle.std.specs.Prelude.{◌≡◌, ◌+◌, ◌≤◌, ◌↔◌, IsTrue, true, false, length, IfOk, IfSome, IfNone};
ghost use Rattle.pool_law.specs.declared.command.Command.{Command};
ghost use Rattle.pool_law.specs.Composites.{most_bytes, size_of};
ghost use Rattle.pool_law.specs.Limits.{geometry_of};
ghost use Rattle.pool_law.specs.LaneStates.{LaneState};
ghost use Rattle.pool_law.specs.Names.{Composed as Bound, has_range};
ghost use Rattle.lane_context.specs.Accesses.{IsState};
ghost use Rattle.lane_context.specs.Contexts.{FitsContext};
ghost use Rattle.lane_context.specs.Named.{AreComposites, AreInside, known_to};
ghost use Rattle.lane_plans.specs.Plans.{IsDenied, IsPlanOf, IsUsable};
ghost use Rattle.lane_context.specs.Works.{IsPlanned, IsReady, IsUnplanned};

use crate::composing::{add, compose};
use crate::crossings::{crossing, get_stage, set_stage};
use lane_context::{Composed, Context, Marks, Refusal, Work};
use lane_stages::OwnCounts;
use pool_law::{Bytes, Command, Reply};
use std::alloc::{AllocError, Global};

/// What the command does, if it reaches the bytes of a composite, ends one, or makes one.
pub fn plan(alloc: Global, context: &Context, command: &Command) -> Result<Option<Work>, AllocError>
    requires composites { AreComposites context.now.composes (1 + length context.now.replies.items)
        context.now.names }
    requires inside { AreInside (known_to context.now.seat) context.now.names }
    requires classes { context.now.classes ≡ geometry_of context.now.shape }
    requires fits { FitsContext context.now command.now }
    ensures ready { IfOk result (λ made. IfSome made (IsReady context.now)) }
    ensures planned { IfOk result (λ made. IfSome made (λ it. (s : LaneState) →
        IsState s context.now.names context.now.counts → IsPlanned context.now command.now it s)) }
    ensures other { IfOk result (λ it. IfNone it (IsUnplanned context.now.names command.now)) }
{
    match command {
        Command::Set {
            name,
            at,
            bytes,
            tries: false,
        } => plan_set(alloc, context, *name, *at, bytes.items()),
        Command::Get {
            name,
            at,
            len,
            tries: false,
        } => plan_get(alloc, context, *name, *at, *len),
        Command::Write { name, bytes } => plan_write(alloc, context, *name, bytes.items()),
        Command::Read { name, len } => plan_read(alloc, context, *name, *len),
        Command::Release { name } => plan_release(alloc, context, *name),
        Command::Compose { fresh, names } => {
            Ok(Some(compose(alloc, context, *fresh, names.items())?))
        }
        Command::Add { whole, name } => Ok(Some(add(alloc, context, *whole, *name)?)),
        _ => Ok(None),
    }
}

fn plan_set(
    alloc: Global,
    context: &Context,
    name: u32,
    at: u32,
    bytes: &[u8],
) -> Result<Option<Work>, AllocError>
    requires composites { AreComposites context.now.composes (1 + length context.now.replies.items)
        context.now.names }
    requires inside { AreInside (known_to context.now.seat) context.now.names }
    ensures { IfOk result (IsPlanOf context.now (Command.Set name at bytes.now false)) }
{
    let Some(whole) = context.names.composite(name) else {
        return Ok(None);
    };
    if let Some(refusal) = refusal_of(&context.counts, whole, reaches(whole, at, bytes.len())) {
        return Ok(Some(Work::Refused(refusal)));
    }
    let stage = set_stage(alloc, whole, at, bytes)?;
    Ok(Some(crossing(name, None, stage, Reply::Ok)))
}

fn plan_get(
    alloc: Global,
    context: &Context,
    name: u32,
    at: u32,
    len: u32,
) -> Result<Option<Work>, AllocError>
    requires composites { AreComposites context.now.composes (1 + length context.now.replies.items)
        context.now.names }
    requires inside { AreInside (known_to context.now.seat) context.now.names }
    ensures { IfOk result (IsPlanOf context.now (Command.Get name at len false)) }
{
    let Some(whole) = context.names.composite(name) else {
        return Ok(None);
    };
    if let Some(refusal) = refusal_of(&context.counts, whole, reaches(whole, at, len as usize)) {
        return Ok(Some(Work::Refused(refusal)));
    }
    let stage = get_stage(alloc, whole, at, len)?;
    Ok(Some(crossing(
        name,
        None,
        stage,
        Reply::OkBytes(Bytes::of(Vec::new(alloc))),
    )))
}

fn plan_write(
    alloc: Global,
    context: &Context,
    name: u32,
    bytes: &[u8],
) -> Result<Option<Work>, AllocError>
    requires composites { AreComposites context.now.composes (1 + length context.now.replies.items)
        context.now.names }
    requires inside { AreInside (known_to context.now.seat) context.now.names }
    ensures { IfOk result (IsPlanOf context.now (Command.Write name bytes.now)) }
{
    let Some(whole) = context.names.composite(name) else {
        return Ok(None);
    };
    let Marks { reader, writer } = whole.marks();
    if let Some(refusal) = refusal_of(&context.counts, whole, reaches(whole, writer, bytes.len())) {
        return Ok(Some(Work::Refused(refusal)));
    }
    let stage = set_stage(alloc, whole, writer, bytes)?;
    let marks = Marks {
        reader,
        writer: writer + bytes.len() as u32,
    };
    Ok(Some(crossing(name, Some(marks), stage, Reply::Ok)))
}

fn plan_read(
    alloc: Global,
    context: &Context,
    name: u32,
    len: u32,
) -> Result<Option<Work>, AllocError>
    requires composites { AreComposites context.now.composes (1 + length context.now.replies.items)
        context.now.names }
    requires inside { AreInside (known_to context.now.seat) context.now.names }
    ensures { IfOk result (IsPlanOf context.now (Command.Read name len)) }
{
    let Some(whole) = context.names.composite(name) else {
        return Ok(None);
    };
    let Marks { reader, writer } = whole.marks();
    if let Some(refusal) = refusal_of(&context.counts, whole, len <= writer - reader) {
        return Ok(Some(Work::Refused(refusal)));
    }
    let stage = get_stage(alloc, whole, reader, len)?;
    let marks = Marks {
        reader: reader + len,
        writer,
    };
    Ok(Some(crossing(
        name,
        Some(marks),
        stage,
        Reply::OkBytes(Bytes::of(Vec::new(alloc))),
    )))
}

// The last release of a composite.
fn plan_release(alloc: Global, context: &Context, name: u32) -> Result<Option<Work>, AllocError>
    requires composites { AreComposites context.now.composes (1 + length context.now.replies.items)
        context.now.names }
    requires inside { AreInside (known_to context.now.seat) context.now.names }
    ensures { IfOk result (IsPlanOf context.now (Command.Release name)) }
{
    let Some(whole) = context.names.composite(name) else {
        return Ok(None);
    };
    if whole.count() != 1 {
        return Ok(None);
    }
    let parts = whole.part_list(alloc)?;
    Ok(Some(Work::End { name, parts }))
}

// Whether so many bytes from an index on lie in a composite.
fn reaches(whole: &Composed, at: u32, len: usize) -> bool
    ensures inside { result ≡ has_range at len (Bound whole.now) }
    ensures small { size_of whole.now.parts ≤ most_bytes }
{
    let size = whole.len();
    at <= size && len <= (size - at) as usize
}

// Why an access to a composite is refused, if it is, where its range lies in it or doesn't.
fn refusal_of(counts: &OwnCounts, whole: &Composed, inside: bool) -> Option<Refusal>
    ensures refused { IfSome result (IsDenied counts.now whole.now inside) }
    ensures none { IfNone result (IsUsable counts.now whole.now × (inside ≡ true)) }
{
    if !is_usable(counts, whole) {
        return Some(Refusal::Illegal);
    }
    if !inside {
        return Some(Refusal::Range);
    }
    None
}

/// Whether a composite has not ended, and the lane counts the roots of all its parts.
pub(crate) fn is_usable(counts: &OwnCounts, whole: &Composed) -> bool
    ensures { IsTrue result ↔ IsUsable counts.now whole.now }
{
    if whole.count() == 0 {
        return false;
    }
    let parts = whole.parts();
    for k in 0..parts.parts() {
        if counts.of(parts.part(k).root) == 0 {
            return false;
        }
    }
    true
}
