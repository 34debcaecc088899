//! A list, from which the first is taken.

ghost use Rattle.lane_stages.specs.Crossings.{NextOf};

/// The first of these, if there is one, and those behind it.
pub fn next_of<T: Drop>(mut left: Vec<T>) -> Option<(T, Vec<T>)>
    ensures { NextOf left.items result }
{
    if left.is_empty() {
        return None;
    }
    let first = left.remove(0);
    Some((first, left))
}
