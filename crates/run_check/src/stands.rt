//! Whether a lane may note what it notes.

ghost use Rattle.std.specs.Prelude.{◌≡◌, ◌≤◌, IsTrue, MatchOption};
ghost use Rattle.std.specs.List.{list_all};
ghost use Rattle.pool_law.specs.Logs.{owns, is_sender, is_receiver, has_history, may_stand, note_stands};
ghost use Rattle.run_check.specs.Placing.{BreaksAt};

use pool_law::{Did, Note, Object, Shape};

// Whether an object is a lane's own: its cache or bin, or the arena that it takes from.
fn owns(shape: &Shape, lane: u32, object: &Object) -> bool
    requires { 1 ≤ shape.now.arenas }
    ensures { result ≡ owns shape.now lane object.now }
{
    match *object {
        Object::Arena(number) => lane % shape.arenas == number,
        Object::Cache {
            lane: owner,
            class: _,
        } => lane == owner,
        Object::Bin(owner) => lane == owner,
        Object::Mail { from: _, to: _ } | Object::Root(_) => false,
    }
}

// Whether an object is a mail that the lane sends by.
fn is_sender(lane: u32, object: &Object) -> bool
    ensures { result ≡ is_sender lane object.now }
{
    match *object {
        Object::Mail { from, to: _ } => lane == from,
        _ => false,
    }
}

// Whether an object is a mail that the lane receives by.
fn is_receiver(lane: u32, object: &Object) -> bool
    ensures { result ≡ is_receiver lane object.now }
{
    match *object {
        Object::Mail { from: _, to } => lane == to,
        _ => false,
    }
}

/// Whether an object has a history: each but the mails.
pub(crate) fn has_history(object: &Object) -> bool
    ensures { result ≡ has_history object.now }
{
    match object {
        Object::Mail { from: _, to: _ } => false,
        _ => true,
    }
}

// Whether a lane may note this at an object.
fn may_stand(shape: &Shape, lane: u32, object: &Object, did: &Did) -> bool
    requires { 1 ≤ shape.now.arenas }
    ensures { result ≡ may_stand shape.now lane object.now did.now }
{
    match did {
        Did::Take { class: _, region } => owns(shape, lane, object) && region.owner == lane,
        Did::Full { class: _ }
        | Did::Hit(_)
        | Did::Miss
        | Did::Trim(_)
        | Did::Close(_)
        | Did::Shed(_)
        | Did::Handle(_)
        | Did::NoHandle => owns(shape, lane, object),
        Did::Post(_) => is_sender(lane, object),
        Did::Fetch(_) => is_receiver(lane, object),
        Did::Give(_)
        | Did::Kept(_)
        | Did::Back { region: _, no: _ }
        | Did::Home(_)
        | Did::Birth { root: _, region: _ }
        | Did::Set {
            offset: _,
            bytes: _,
        }
        | Did::Get {
            offset: _,
            bytes: _,
        }
        | Did::Touch
        | Did::Room {
            asked: _,
            capacity: _,
        }
        | Did::Extend(_)
        | Did::Grow {
            capacity: _,
            region: _,
        }
        | Did::End(_) => has_history(object),
    }
}

/// Whether a lane may note this.
pub fn note_stands(shape: &Shape, lane: u32, note: &Note) -> bool
    requires { 1 ≤ shape.now.arenas }
    ensures { result ≡ note_stands shape.now lane note.now }
{
    match note {
        Note::At {
            object,
            number: _,
            did,
        } => may_stand(shape, lane, object, did),
        Note::Ref { root: _, did: _ } => true,
        Note::Busy(held) => has_history(&held.object),
    }
}

/// The place of the first of these notes that a lane may not make, if there is one.
pub fn astray_at(shape: &Shape, lane: u32, notes: &[Note]) -> Option<usize>
    requires { 1 ≤ shape.now.arenas }
    ensures { MatchOption result (IsTrue (list_all (note_stands shape.now lane) notes.now))
        (BreaksAt (λ ns. IsTrue (list_all (note_stands shape.now lane) ns)) notes.now) }
{
    for (at, note) in notes.iter().enumerate() {
        if !note_stands(shape, lane, note) {
            return Some(at);
        }
    }
    None
}
