//! The history of an arena, from the logs of all lanes.

ghost use Rattle.std.specs.Prelude.{◌≡◌, ◌++◌, length, map, replicate, None, IfOk, OnOk};
ghost use Rattle.pool_law.specs.declared.note.Object.{Object};
ghost use Rattle.pool_law.specs.Arenas.{listed};
ghost use Rattle.pool_law.specs.Logs.{own, own_note, notes_at, history_of};
ghost use Rattle.run_picture.specs.Slots.{done_in, dones_in, slots_in, put_at, put, entered, all_entered, present};

use pool_law::{Did, LaneLog, Note, Object};
use std::alloc::{AllocError, Global};

/// What was done at an arena, and by which lane.
#[derive(Clone, Copy, Drop)]
pub struct Done<'a> {
    pub lane: usize,
    pub did: &'a Did,
}

/// What was done at an arena, in order of number. Of two notes of one number the first lane's first
/// counts, and a number that no note has is left out; a legal run has no such numbers.
pub fn history_of<'a>(
    alloc: Global,
    logs: &'a [LaneLog],
    arena: u32,
) -> Result<Vec<Done<'a>>, AllocError>
    ensures { IfOk result (λ dones. dones_in dones.items
        ≡ history_of (Object.Arena arena) (map (λ l. l.notes) logs.now)) }
{
    let mut slots = empty_slots(alloc, logs, arena)?;
    enter_all(&mut slots, logs, arena);
    present(alloc, &slots)
}

// An empty slot for each note that the logs have at an arena.
fn empty_slots<'a>(
    alloc: Global,
    logs: &[LaneLog],
    arena: u32,
) -> Result<Vec<Option<Done<'a>>>, AllocError>
    ensures { IfOk result (λ slots. slots_in slots.items
        ≡ replicate (notes_at (Object.Arena arena) (map (λ l. l.notes) logs.now)) None) }
{
    let mut slots = Vec::new(alloc);
    for log in logs {
        add_slots(&mut slots, log.notes.items(), arena)?;
    }
    Ok(slots)
}

// One more for each note that a log has.
fn add_slots<'a>(
    slots: &mut Vec<Option<Done<'a>>>,
    notes: &[Note],
    arena: u32,
) -> Result<(), AllocError>
    ensures { OnOk result (slots_in slots.new.items ≡ slots_in slots.old.items
        ++ replicate (length (own (Object.Arena arena) notes.now)) None) }
{
    for note in notes {
        if own_note(note, arena).is_some() {
            slots.push(None)?;
        }
    }
    Ok(())
}

// The number of a note at an arena, and what was done.
fn own_note(note: &Note, arena: u32) -> Option<(u64, &Did)>
    ensures { listed result (λ x. (x.0, x.1.now)) ≡ own_note (Object.Arena arena) note.now }
{
    match note {
        Note::At {
            object: Object::Arena(other),
            number,
            did,
        } => (*other == arena).then_some((*number, did)),
        _ => None,
    }
}

// Puts the notes of all logs at an arena into their slots.
fn enter_all<'a>(slots: &mut Vec<Option<Done<'a>>>, logs: &'a [LaneLog], arena: u32)
    ensures { slots_in slots.new.items ≡ all_entered (Object.Arena arena) 0
        (slots_in slots.old.items) (map (λ l. l.notes) logs.now) }
{
    for lane in 0..logs.len() {
        enter(slots, lane, logs[lane].notes.items(), arena);
    }
}

// Puts the notes of a log at an arena into their slots.
fn enter<'a>(slots: &mut Vec<Option<Done<'a>>>, lane: usize, notes: &'a [Note], arena: u32)
    ensures { slots_in slots.new.items
        ≡ entered lane (slots_in slots.old.items) (own (Object.Arena arena) notes.now) }
{
    for note in notes {
        if let Some((number, did)) = own_note(note, arena) {
            put(slots, number, Done { lane, did });
        }
    }
}

// Puts a note into the slot of its number, unless another is there.
fn put<'a>(slots: &mut Vec<Option<Done<'a>>>, number: u64, done: Done<'a>)
    ensures { slots_in slots.new.items
        ≡ put (slots_in slots.old.items) number (done_in done.entry) }
{
    if number != 0 {
        put_at(slots, (number - 1) as usize, done);
    }
}

// Puts a note into a slot, unless another is there.
fn put_at<'a>(slots: &mut Vec<Option<Done<'a>>>, at: usize, done: Done<'a>)
    ensures { slots_in slots.new.items ≡ put_at (slots_in slots.old.items) at (done_in done.entry) }
{
    if at >= slots.len() {
        return;
    }
    if slots[at].is_none() {
        slots[at] = Some(done);
    }
}

// What is in the slots, in order.
fn present<'a>(alloc: Global, slots: &[Option<Done<'a>>]) -> Result<Vec<Done<'a>>, AllocError>
    ensures { IfOk result (λ dones. dones_in dones.items ≡ present (slots_in slots.now)) }
{
    let mut dones = Vec::new(alloc);
    for slot in slots {
        if let Some(done) = slot {
            dones.push(*done)?;
        }
    }
    Ok(dones)
}
