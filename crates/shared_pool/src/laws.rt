//! Laws of the pool. Each is the contract of a function that does nothing.

ghost use Rattle.std.specs.Prelude.{List, Option, ℕ};
ghost use Rattle.pool_table.specs.declared.views.Layout.{Layout};
ghost use Rattle.pool_table.specs.declared.views.SeatView.{SeatView};
ghost use Rattle.pool_table.specs.Views.{parts_of};
ghost use Rattle.pool_table.specs.Closed.{IsClosed};
ghost use Rattle.shared_pool.specs.declared.home.Home.{Home};
ghost use Rattle.shared_pool.specs.Standing.{HomeStands};
ghost use Rattle.shared_pool.specs.Closing.{AreLanes, AreWhole, HasNoPlace};

/// Once the table is closed with the seat that has the parts of all lanes, in order, and no root
/// place in hand, its parts are whole logs: each object's history is in them, with what their
/// entries know of it, each root that they name was born, what was looked up of a count is right,
/// and the sentences on totals, busy marks and the order of notes hold.
pub fn parts_are_whole_logs()
    ensures whole { (l : Layout) (v : SeatView) (homes : List (Option Home)) (words : List ℕ) →
        IsClosed HomeStands l v homes words →
        AreLanes l.shape (parts_of v) →
        HasNoPlace v →
        AreWhole l.shape (parts_of v) }
{}
