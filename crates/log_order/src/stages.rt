//! What a note speaks of, and at which number.

ghost use Rattle.std.specs.Prelude.{◌≡◌};
ghost use Rattle.pool_law.specs.Kinds.{passing};
ghost use Rattle.log_order.specs.Precedence.{is_birth, is_end};
ghost use Rattle.log_order.specs.Staging.{at_kind, ref_kind, stage_of, stage_before, post_of, first_want, second_want};

use crate::keys::{BORN, END, GOES, Key, MARK, RETAIN, STAYS, VACATED, root_key, way_key, way_of};
use crate::precedence::has_history;
use pool_law::{Did, Note, Object, RefDid};

/// What is spoken of, and the number there.
pub(crate) type Stage = (Key, u64);

// The kind of a note at an object: in a history all are of one.
fn at_kind(object: &Object, did: &Did) -> u32
    ensures { result ≡ at_kind object.now did.now }
{
    if has_history(object) {
        STAYS
    } else {
        way_of(did)
    }
}

// The kind of a step on a count: between its birth and its end all are of one.
fn ref_kind(did: RefDid) -> u32
    ensures { result ≡ ref_kind did }
{
    match did {
        RefDid::Born => BORN,
        RefDid::Retain | RefDid::Kept | RefDid::Look(_) => RETAIN,
        RefDid::Ended => END,
        RefDid::Vacated => VACATED,
    }
}

/// The stage of a note.
pub(crate) fn stage_of(note: &Note) -> Stage
    ensures { result ≡ stage_of note.now }
{
    match note {
        Note::At {
            object,
            number,
            did,
        } => (way_key(at_kind(object, did), object), *number),
        Note::Ref { root, did } => (root_key(ref_kind(*did), root), 0),
        Note::Busy(held) => (way_key(MARK, &held.object), held.number),
    }
}

// That of a kind at an object with the number before this one.
fn stage_before(kind: u32, object: &Object, number: u64) -> Option<Stage>
    ensures { result ≡ stage_before kind object.now number }
{
    if 0 < number {
        Some((way_key(kind, object), number - 1))
    } else {
        None
    }
}

// That of the post that a fetch finds.
fn post_of(mail: &Object, number: u64, did: &Did) -> Option<Stage>
    ensures { result ≡ post_of mail.now number (passing did.now) }
{
    match did {
        Did::Fetch(_) => Some((way_key(GOES, mail), number)),
        _ => None,
    }
}

// Whether a step on a count is its birth.
fn is_birth(did: RefDid) -> bool
    ensures { result ≡ is_birth did }
{
    matches!(did, RefDid::Born)
}

// Whether it is its end.
fn is_end(did: RefDid) -> bool
    ensures { result ≡ is_end did }
{
    matches!(did, RefDid::Ended)
}

/// A stage of notes that must stand before this one, if there is one.
pub(crate) fn first_want(note: &Note) -> Option<Stage>
    ensures { result ≡ first_want note.now }
{
    match note {
        Note::At {
            object,
            number,
            did,
        } => {
            if has_history(object) {
                stage_before(STAYS, object, *number)
            } else {
                post_of(object, *number, did)
            }
        }
        Note::Ref { root, did } => {
            if is_birth(*did) {
                None
            } else {
                Some((root_key(BORN, root), 0))
            }
        }
        Note::Busy(held) => {
            if has_history(&held.object) {
                Some((way_key(STAYS, &held.object), held.number))
            } else {
                None
            }
        }
    }
}

/// And another.
pub(crate) fn second_want(note: &Note) -> Option<Stage>
    ensures { result ≡ second_want note.now }
{
    match note {
        Note::At {
            object,
            number,
            did: _,
        } => {
            if has_history(object) {
                stage_before(MARK, object, *number)
            } else {
                None
            }
        }
        Note::Ref { root, did } => {
            if is_end(*did) {
                Some((root_key(RETAIN, root), 0))
            } else {
                None
            }
        }
        Note::Busy(_) => None,
    }
}
