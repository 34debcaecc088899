//! The rows of a nest, one for each view, and the way upwards from a view that was let go.

ghost use Rattle.std.specs.Prelude.{◌≡◌, ◌≤◌, is_some, length, slice_get, true, vec_capacity};
ghost use Rattle.counted_view.specs.Rows.{row_live, live_rows, ended_parent, owed, AreCounted, IsOwing, HasClimbed};

use byte_view::View;

/// What is kept of a view: its range, the view that it was made from, its own holds, and how many
/// views made from it live.
#[derive(Drop)]
pub(crate) struct Row {
    pub(crate) view: View,
    pub(crate) parent: Option<u32>,
    pub(crate) holds: u32,
    pub(crate) live: u32,
}

/// The last view on the way upwards, which lives on or is the root, and how many below it ended.
#[derive(Clone, Copy, Debug, Drop)]
pub(crate) struct Climbed {
    pub(crate) top: u32,
    pub(crate) ended: u32,
}

// Whether a view is held, or one made from it lives.
fn is_live(row: &Row) -> bool
    ensures { result ≡ row_live row.now }
{
    row.holds > 0 || row.live > 0
}

/// How many views are live.
pub(crate) fn live_total(rows: &[Row]) -> u32
    requires { length rows.now ≤ 4097 }
    ensures { result ≡ live_rows (λ parent. true) rows.now }
{
    rows.iter().filter(|row| is_live(row)).count() as u32
}

// The view that a view was made from, if it is live no more.
fn parent_of_ended(row: &Row) -> Option<u32>
    ensures { result ≡ ended_parent row.now }
{
    if is_live(row) { None } else { row.parent }
}

/// From a view that may be live no more: while one has ended, the view that it was made from counts
/// it no longer.
pub(crate) fn climb(rows: &mut Vec<Row>, start: u32) -> Climbed
    requires { IsOwing rows.old.items start }
    ensures counted { AreCounted rows.new.items }
    ensures climbed { HasClimbed rows.old.items rows.new.items start result.top result.ended }
    ensures done { owed is_some (slice_get rows.new.items result.top) ≡ 0 }
    ensures len { length rows.new.items ≡ length rows.old.items }
    ensures room { vec_capacity rows.new ≡ vec_capacity rows.old }
{
    let mut at = start;
    let mut ended = 0;
    while let Some(parent) = parent_of_ended(&rows[at as usize]) {
        rows[parent as usize].live -= 1;
        ended += 1;
        at = parent;
    }
    Climbed { top: at, ended }
}
