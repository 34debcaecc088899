//! Which notes must stand before which.

ghost use Rattle.std.specs.Prelude.{◌≡◌, ◌↔◌, ◌+◌, ◌==◌, IsTrue};
ghost use Rattle.pool_law.specs.Same.{same_object, same_root};
ghost use Rattle.pool_law.specs.Kinds.{passing};
ghost use Rattle.pool_law.specs.Logs.{has_history};
ghost use Rattle.log_order.specs.Spots.{notes_in};
ghost use Rattle.log_order.specs.Precedence.{at_precedes, hands_over, ref_precedes, note_precedes, MustStandBefore};

use crate::keys::object_key;
use crate::spots::{Spot, note_at};
use pool_law::{Did, LaneLog, Note, Object, RefDid, RootId};

/// Whether an object has a history.
pub(crate) fn has_history(object: &Object) -> bool
    ensures { result ≡ has_history object.now }
{
    match object {
        Object::Arena(_) | Object::Cache { lane: _, class: _ } | Object::Bin(_) | Object::Root(_) =>
            true,
        Object::Mail { from: _, to: _ } => false,
    }
}

// Whether two objects are the same.
fn same_object(a: &Object, b: &Object) -> bool
    ensures { result ≡ same_object a.now b.now }
{
    let first = object_key(a);
    let second = object_key(b);
    first.0 == second.0 && (first.1 == second.1 && first.2 == second.2)
}

// Whether two roots are the same.
fn same_root(a: &RootId, b: &RootId) -> bool
    ensures { result ≡ same_root a.now b.now }
{
    a.place == b.place && (a.generation == b.generation && a.capacity == b.capacity)
}

// Whether the one sends a parcel, and the other gets one.
fn hands_over(first: &Did, second: &Did) -> bool
    ensures { result ≡ hands_over (passing first.now) (passing second.now) }
{
    let Did::Post(_) = first else {
        return false;
    };
    let Did::Fetch(_) = second else {
        return false;
    };
    true
}

// Whether one step on the count of a root must stand before another.
fn ref_precedes(first: RefDid, second: RefDid) -> bool
    ensures { result ≡ ref_precedes first second }
{
    match first {
        RefDid::Born => match second {
            RefDid::Born => false,
            RefDid::Retain | RefDid::Kept | RefDid::Ended | RefDid::Vacated | RefDid::Look(_) =>
                true,
        },
        RefDid::Retain | RefDid::Kept | RefDid::Look(_) => match second {
            RefDid::Ended => true,
            RefDid::Born | RefDid::Retain | RefDid::Kept | RefDid::Vacated | RefDid::Look(_) =>
                false,
        },
        RefDid::Ended | RefDid::Vacated => false,
    }
}

// Whether a number is the next behind another.
fn is_next(m: u64, n: u64) -> bool
    ensures { result ≡ (m + 1 == n) }
{
    m < n && n - m == 1
}

// Whether a note at an object must stand before another there.
fn at_precedes(object: &Object, m: u64, d: &Did, n: u64, e: &Did) -> bool
    ensures { result ≡ at_precedes (has_history object.now) m (passing d.now) n (passing e.now) }
{
    if has_history(object) {
        is_next(m, n)
    } else {
        hands_over(d, e) && m == n
    }
}

/// Whether a note must stand before another, by what they say.
pub(crate) fn note_precedes(first: &Note, second: &Note) -> bool
    ensures { result ≡ note_precedes first.now second.now }
{
    match first {
        Note::At {
            object: a,
            number: m,
            did: d,
        } => match second {
            Note::At {
                object: b,
                number: n,
                did: e,
            } => same_object(a, b) && at_precedes(a, *m, d, *n, e),
            Note::Busy(held) => {
                same_object(a, &held.object) && (has_history(a) && *m == held.number)
            }
            Note::Ref { root: _, did: _ } => false,
        },
        Note::Busy(held) => match second {
            Note::At {
                object,
                number,
                did: _,
            } => {
                same_object(&held.object, object)
                    && (has_history(&held.object) && is_next(held.number, *number))
            }
            Note::Busy(_) | Note::Ref { root: _, did: _ } => false,
        },
        Note::Ref { root: r, did: d } => match second {
            Note::Ref { root: s, did: e } => same_root(r, s) && ref_precedes(*d, *e),
            Note::Busy(_)
            | Note::At {
                object: _,
                number: _,
                did: _,
            } => false,
        },
    }
}

/// Whether the note at a place must stand before that at another.
pub(crate) fn must_precede(logs: &[LaneLog], first: &Spot, second: &Spot) -> bool
    ensures { IsTrue result ↔ MustStandBefore (notes_in logs.now) first.now second.now }
{
    let Some(a) = note_at(logs, first) else {
        return false;
    };
    let Some(b) = note_at(logs, second) else {
        return false;
    };
    if first.lane == second.lane && first.at < second.at && second.at - first.at == 1 {
        return true;
    }
    note_precedes(a, b)
}
