//! Where ranges of a buffer lie in its root.

ghost use Rattle.std.specs.Prelude.{◌≡◌, ◌+◌, ◌≤◌, ◌↔◌, IsSome, IfSome, IsTrue};
ghost use Rattle.pool_law.specs.Views.{in_range, root_index};

use byte_view::View;

/// Where in its root `len` bytes of a view lie, from `start` on. None exactly where they pass a
/// bound of the view.
pub(crate) fn offset_of(view: &View, start: u32, len: usize) -> Option<u32>
    ensures inside { IsSome result ↔ IsTrue (in_range view.now.at start len) }
    ensures offset { IfSome result (λ offset. offset ≡ root_index view.now.at start) }
    ensures within { IfSome result (λ offset.
        offset + len ≤ view.now.at.offset + view.now.at.len) }
{
    let Ok(len) = u32::try_from(len) else {
        return None;
    };
    match view.range(start, len) {
        Ok((offset, _len)) => Some(offset),
        Err(_no) => None,
    }
}
