//! How composites are made: of the readable bytes of views, one behind the other.
//! (Netty: `CompositeByteBuf.addComponent`)

ghost use Rattle.std.specs.Prelude.{◌≡◌, ℕ, ◌+◌, ◌<◌, ◌≤◌, [], ◌∷◌, ◌++◌, length, map, All, IfOk, vec_len, vec_capacity};
ghost use Rattle.pool_law.specs.declared.command.Command.{Command};
ghost use Rattle.pool_law.specs.Composites.{filled, most_bytes, readable, size_of};
ghost use Rattle.pool_law.specs.Limits.{geometry_of};
ghost use Rattle.pool_law.specs.LaneStates.{LaneState};
ghost use Rattle.lane_context.specs.Accesses.{IsState};
ghost use Rattle.lane_plans.specs.Compositions.{HasBytes, IsMade, IsPlaced, MayMake, joined, readable_at, readable_of};
ghost use Rattle.lane_context.specs.Contexts.{FitsContext};
ghost use Rattle.pool_law.specs.declared.id.RootId.{RootId};
ghost use Rattle.pool_law.specs.Views.{LiesIn};
ghost use Rattle.lane_context.specs.Named.{AreComposites, AreInside, IsInRoot, known_to};
ghost use Rattle.lane_context.specs.Works.{IsPlanned, IsReady};

use crate::refusing::{refusal_to_add, refusal_to_compose};
use byte_view::View;
use composite_buf::{Composite, PartList};
use lane_context::{Bound, Composed, Consolidation, Context, Marks, Names, Refusal, Work};
use lane_stages::Transfer;
use pool_law::Part;
use std::alloc::{AllocError, Global};

/// The most parts of a composite that stays as it is.
const MOST_PARTS: usize = 16;

/// The most bytes of a composite.
const MOST_BYTES: u64 = 65536;

/// A new composite of the readable bytes of these names, or why there is none.
pub(crate) fn compose(
    alloc: Global,
    context: &Context,
    fresh: u32,
    names: &[u32],
) -> Result<Work, AllocError>
    requires classes { context.now.classes ≡ geometry_of context.now.shape }
    requires inside { AreInside (known_to context.now.seat) context.now.names }
    requires fits { FitsContext context.now (Command.Compose fresh names.now) }
    ensures ready { IfOk result (IsReady context.now) }
    ensures planned { IfOk result (λ work. (s : LaneState) →
        IsState s context.now.names context.now.counts →
        IsPlanned context.now (Command.Compose fresh names.now) work s) }
{
    if let Some(refusal) = refusal_to_compose(&context.names, &context.counts, fresh, names) {
        return Ok(Work::Refused(refusal));
    }
    let parts = readable_parts(alloc, &context.names, names)?;
    made(alloc, context, fresh, parts, 1, 0)
}

/// A composite with the readable bytes of a name behind it, or why there is none.
pub(crate) fn add(
    alloc: Global,
    context: &Context,
    whole: u32,
    name: u32,
) -> Result<Work, AllocError>
    requires composites { AreComposites context.now.composes (1 + length context.now.replies.items)
        context.now.names }
    requires inside { AreInside (known_to context.now.seat) context.now.names }
    requires classes { context.now.classes ≡ geometry_of context.now.shape }
    ensures ready { IfOk result (IsReady context.now) }
    ensures planned { IfOk result (λ work. (s : LaneState) →
        IsState s context.now.names context.now.counts →
        IsPlanned context.now (Command.Add whole name) work s) }
{
    if let Some(refusal) = refusal_to_add(&context.names, &context.counts, whole, name) {
        return Ok(Work::Refused(refusal));
    }
    let Some(before) = context.names.composite(whole) else {
        unreachable!()
    };
    let mut parts = before.part_list(alloc)?;
    push_readable(&context.names, name, &mut parts);
    let reader = before.marks().reader;
    made(alloc, context, whole, parts, before.count(), reader)
}

// The readable bytes of a view, as a part.
fn readable(view: &View) -> Part
    ensures part { result ≡ readable view.now.at }
    ensures placed { IsPlaced result }
    ensures inside { (capacity : ℕ) → LiesIn capacity view.now.at →
        result.offset + result.len ≤ capacity }
{
    Part {
        root: view.at.root,
        offset: view.at.offset + view.at.reader,
        len: view.at.writer - view.at.reader,
    }
}

// Puts the readable bytes of a name's view behind the parts, if it has one.
fn push_readable(names: &Names, name: u32, parts: &mut Vec<Part>)
    requires { vec_len parts.old < vec_capacity parts.old }
    ensures items { parts.new.items ≡ parts.old.items ++ readable_at names.now name }
    ensures placed { All IsPlaced (readable_at names.now name) }
    ensures inside { (known : RootId → ℕ) → AreInside known names.now →
        All (IsInRoot known) (readable_at names.now name) }
    ensures room { vec_capacity parts.new ≡ vec_capacity parts.old }
    ensures len { vec_len parts.new ≤ vec_len parts.old + 1 }
{
    if let Some(Bound::Plain(view)) = names.get(name) {
        parts.push_reserved(readable(view));
    }
}

// The readable bytes of the views of these names.
fn readable_parts(alloc: Global, names: &Names, of: &[u32]) -> Result<Vec<Part>, AllocError>
    ensures items { IfOk result (λ parts. parts.items ≡ readable_of names.now of.now) }
    ensures placed { IfOk result (λ parts. All IsPlaced parts.items) }
    ensures inside { IfOk result (λ parts. (known : RootId → ℕ) → AreInside known names.now →
        All (IsInRoot known) parts.items) }
{
    let mut parts = Vec::with_capacity(alloc, of.len())?;
    for name in of {
        push_readable(names, *name, &mut parts);
    }
    Ok(parts)
}

// How many bytes parts have together.
fn total_of(parts: &[Part]) -> u64
    requires { length parts.now ≤ 24 }
    ensures { result ≡ size_of parts.now }
{
    let mut total = 0;
    for part in parts {
        total += u64::from(part.len);
    }
    total
}

// A composite of these parts, to which the name is to be bound: as it is, or where it has too many
// parts once it is one part.
fn made(
    alloc: Global,
    context: &Context,
    name: u32,
    parts: Vec<Part>,
    count: u32,
    reader: u32,
) -> Result<Work, AllocError>
    requires classes { context.now.classes ≡ geometry_of context.now.shape }
    requires may { MayMake context.now name (joined parts.items count reader) }
    ensures { IfOk result (IsMade context.now name (joined parts.items count reader)) }
{
    let total = total_of(&parts);
    if total > MOST_BYTES {
        return Ok(Work::Refused(Refusal::TooLarge));
    }
    let size = total as u32;
    let marks = Marks {
        reader,
        writer: size,
    };
    if parts.len() <= MOST_PARTS {
        let whole = whole_of(alloc, &PartList::of(parts), count, marks)?;
        return Ok(Work::Bind { name, whole });
    }
    let Some(class) = context.classes.class_of(size) else {
        return Ok(Work::Refused(Refusal::TooLarge));
    };
    let parts = PartList::of(parts);
    let whole = whole_of(alloc, &parts, count, marks)?;
    let transfers = transfers_of(alloc, parts.items())?;
    Ok(Work::Consolidate(Consolidation {
        name,
        whole,
        size,
        class,
        transfers,
        parts: parts.into_items(),
    }))
}

// A composite of these parts, as names are bound to one.
fn whole_of(
    alloc: Global,
    parts: &PartList,
    count: u32,
    marks: Marks,
) -> Result<Box<Composed>, AllocError>
    requires count { (1 ≤ length parts.now) × (length parts.now ≤ 24) }
    requires size { size_of parts.now ≤ most_bytes }
    requires placed { All IsPlaced parts.now }
    ensures { IfOk result (λ whole. whole.value ≡ record {
      parts = parts.now;
      count = count;
      reader = marks.reader;
      writer = marks.writer;
    }) }
{
    let parts = Composite::new(alloc, parts)?;
    let whole = Box::new(alloc, Composed::new(parts, count, marks))?;
    Ok(whole)
}

// The parts that are not empty, with memory for their bytes twice.
fn transfers_of(alloc: Global, parts: &[Part]) -> Result<Vec<Transfer>, AllocError>
    ensures parts { IfOk result (λ made. map (λ t. t.part) made.items ≡ filled parts.now) }
    ensures bytes { IfOk result (λ made. All HasBytes made.items) }
{
    let mut transfers = Vec::with_capacity(alloc, parts.len())?;
    for part in parts {
        push_transfer(alloc, part, &mut transfers)?;
    }
    Ok(transfers)
}

// Puts a part behind the others, where it is not empty.
fn push_transfer(
    alloc: Global,
    part: &Part,
    transfers: &mut Vec<Transfer>,
) -> Result<(), AllocError>
    requires { vec_len transfers.old < vec_capacity transfers.old }
    ensures parts { IfOk result (λ _. map (λ t. t.part) transfers.new.items
        ≡ map (λ t. t.part) transfers.old.items ++ filled (part.now ∷ [])) }
    ensures bytes { All HasBytes transfers.old.items → All HasBytes transfers.new.items }
    ensures room { vec_capacity transfers.new ≡ vec_capacity transfers.old }
    ensures len { vec_len transfers.new ≤ vec_len transfers.old + 1 }
{
    if part.len > 0 {
        transfers.push_reserved(transfer_of(alloc, part)?);
    }
    Ok(())
}

fn transfer_of(alloc: Global, part: &Part) -> Result<Transfer, AllocError>
    ensures part { IfOk result (λ t. t.part ≡ part.now) }
    ensures bytes { IfOk result HasBytes }
{
    let got = Vec::from_elem(alloc, 0, part.len as usize)?;
    let set = Vec::from_elem(alloc, 0, part.len as usize)?;
    Ok(Transfer {
        part: *part,
        got,
        set,
    })
}
