//! What notes are counted as.

ghost use Rattle.std.specs.Prelude.{◌≡◌};
ghost use Rattle.pool_law.specs.Kinds.{passing};
ghost use Rattle.log_order.specs.Keying.{object_key};
ghost use Rattle.log_order.specs.Tallying.{way_of, way_key, root_key, place_key, ref_key, ref_key_beside, note_key, note_key_beside};

use pool_law::{Did, Note, Object, RefDid, RootId};

/// What is counted: a kind of step, and of what.
pub(crate) type Key = (u32, u32, u32, u32);

/// A note at an object with which no parcel passes.
pub(crate) const STAYS: u32 = 0;
/// A post.
pub(crate) const GOES: u32 = 1;
/// A fetch.
pub(crate) const COMES: u32 = 2;
/// The birth of a root's count.
pub(crate) const BORN: u32 = 3;
/// A retain.
pub(crate) const RETAIN: u32 = 4;
/// A release.
pub(crate) const RELEASE: u32 = 5;
/// A release that ends its root.
pub(crate) const END: u32 = 6;
/// A vacating.
pub(crate) const VACATED: u32 = 7;
/// A birth at a place.
pub(crate) const BORN_AT: u32 = 8;
/// A vacating of a place.
pub(crate) const VACATED_AT: u32 = 9;

/// A busy mark.
pub(crate) const MARK: u32 = 10;

/// The key of an object: which kind it is, and its numbers.
pub(crate) fn object_key(object: &Object) -> (u32, u32, u32)
    ensures { result ≡ object_key object.now }
{
    match *object {
        Object::Arena(number) => (0, number, 0),
        Object::Cache { lane, class } => (1, lane, class),
        Object::Bin(lane) => (2, lane, 0),
        Object::Mail { from, to } => (3, from, to),
        Object::Root(place) => (4, place, 0),
    }
}

/// Whether a parcel passes with a note.
pub(crate) fn way_of(did: &Did) -> u32
    ensures { result ≡ way_of (passing did.now) }
{
    match did {
        Did::Post(_) => GOES,
        Did::Fetch(_) => COMES,
        _ => STAYS,
    }
}

/// Notes at an object, of one way.
pub(crate) fn way_key(way: u32, object: &Object) -> Key
    ensures { result ≡ way_key way object.now }
{
    let (kind, a, b) = object_key(object);
    (way, kind, a, b)
}

/// Steps on the count of a root, of one kind.
pub(crate) fn root_key(kind: u32, root: &RootId) -> Key
    ensures { result ≡ root_key kind root.now }
{
    (kind, root.place, root.generation, root.capacity)
}

/// Steps at a root place, of one kind.
pub(crate) fn place_key(kind: u32, place: u32) -> Key
    ensures { result ≡ place_key kind place }
{
    (kind, place, 0, 0)
}

// What a step on a count is counted as.
fn ref_key(root: &RootId, did: RefDid) -> Option<Key>
    ensures { result ≡ ref_key root.now did }
{
    match did {
        RefDid::Born => Some(root_key(BORN, root)),
        RefDid::Retain => Some(root_key(RETAIN, root)),
        RefDid::Kept | RefDid::Ended => Some(root_key(RELEASE, root)),
        RefDid::Vacated => Some(root_key(VACATED, root)),
        RefDid::Look(_) => None,
    }
}

// And what it is counted as beside.
fn ref_key_beside(root: &RootId, did: RefDid) -> Option<Key>
    ensures { result ≡ ref_key_beside root.now did }
{
    match did {
        RefDid::Born => Some(place_key(BORN_AT, root.place)),
        RefDid::Ended => Some(root_key(END, root)),
        RefDid::Vacated => Some(place_key(VACATED_AT, root.place)),
        RefDid::Retain | RefDid::Kept | RefDid::Look(_) => None,
    }
}

/// What a note is counted as.
pub(crate) fn note_key(note: &Note) -> Option<Key>
    ensures { result ≡ note_key note.now }
{
    match note {
        Note::At {
            object,
            number: _,
            did,
        } => Some(way_key(way_of(did), object)),
        Note::Ref { root, did } => ref_key(root, *did),
        Note::Busy(_) => None,
    }
}

/// And what it is counted as beside.
pub(crate) fn note_key_beside(note: &Note) -> Option<Key>
    ensures { result ≡ note_key_beside note.now }
{
    match note {
        Note::Ref { root, did } => ref_key_beside(root, *did),
        Note::At {
            object: _,
            number: _,
            did: _,
        }
        | Note::Busy(_) => None,
    }
}
