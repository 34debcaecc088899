//! Views: which bytes of the root they mean, and what can be read and written through them.

ghost use Rattle.std.specs.Prelude.{◌≡◌, true, false};
ghost use Rattle.pool_law.specs.Views.{IsView, LiesIn, most_capacity, reaching, view_of, root_index, in_range, can_read, can_write, slice_of, after_read, after_write};
ghost use Rattle.definition_rows.specs.Notes.{root, view};

/// The view of a new root is all of it, and nothing can be read yet.
pub fn whole_views()
    ensures whole { view_of (root 0 1 16) ≡ view (root 0 1 16) 0 16 0 0 }
    ensures nothing_to_read { can_read (view_of (root 0 1 16)) 1 ≡ false }
    ensures all_to_write { can_write (view_of (root 0 1 16)) 16 ≡ true }
    ensures no_more { can_write (view_of (root 0 1 16)) 17 ≡ false }
{}

/// A slice of a slice begins at both offsets, and all of it can be read.
pub fn slices_of_slices()
    ensures slice { slice_of (view_of (root 0 1 16)) 4 8 ≡ view (root 0 1 16) 4 8 0 8 }
    ensures slice_of_a_slice { slice_of (slice_of (view_of (root 0 1 16)) 4 8) 2 4
        ≡ view (root 0 1 16) 6 4 0 4 }
    ensures byte { root_index (slice_of (slice_of (view_of (root 0 1 16)) 4 8) 2 4) 3 ≡ 9 }
    ensures all_to_read { can_read (slice_of (view_of (root 0 1 16)) 4 8) 8 ≡ true }
    ensures none_to_write { can_write (slice_of (view_of (root 0 1 16)) 4 8) 1 ≡ false }
{}

/// A range lies in a view up to its length.
pub fn ranges()
    ensures all { in_range (view (root 0 1 16) 4 8 0 0) 0 8 ≡ true }
    ensures last { in_range (view (root 0 1 16) 4 8 0 0) 7 1 ≡ true }
    ensures nothing_at_the_end { in_range (view (root 0 1 16) 4 8 0 0) 8 0 ≡ true }
    // the root has these bytes, and the view does not
    ensures past_the_end { in_range (view (root 0 1 16) 4 8 0 0) 7 2 ≡ false }
    ensures nothing_past_the_end { in_range (view (root 0 1 16) 4 8 0 0) 9 0 ≡ false }
{}

/// Reading goes from the reader to the writer, and writing from the writer to the end.
pub fn readers_and_writers()
    ensures read { can_read (view (root 0 1 16) 0 16 2 6) 4 ≡ true }
    ensures read_past_the_writer { can_read (view (root 0 1 16) 0 16 2 6) 5 ≡ false }
    ensures write { can_write (view (root 0 1 16) 0 16 2 6) 10 ≡ true }
    ensures write_past_the_end { can_write (view (root 0 1 16) 0 16 2 6) 11 ≡ false }
    ensures reader_moves { after_read (view (root 0 1 16) 0 16 2 6) 4
        ≡ view (root 0 1 16) 0 16 6 6 }
    ensures writer_moves { after_write (view (root 0 1 16) 0 16 2 6) 10
        ≡ view (root 0 1 16) 0 16 2 16 }
{}

/// A view that is to reach a capacity ends there, also where it began behind the front.
pub fn views_that_reach()
    ensures whole { reaching 112 (view (root 0 1 16) 0 16 2 6) ≡ view (root 0 1 16) 0 112 2 6 }
    ensures slice { reaching 112 (view (root 0 1 16) 4 8 0 8) ≡ view (root 0 1 16) 4 108 0 8 }
{}

/// A view lies where roots have bytes, with its reader and its writer in order, and in so much
/// capacity of its root or not.
pub fn views_of_a_root()
    ensures whole { IsView (view (root 0 1 16) 0 16 0 0) }
    ensures at_the_end { IsView (view (root 0 1 16) 16 0 0 0) }
    ensures written { IsView (view (root 0 1 16) 4 8 8 8) }
    ensures grown { IsView (view (root 0 1 16) 9 8 0 0) }
    ensures past_all_roots { ¬ IsView (view (root 0 1 16) 1 most_capacity 0 0) }
    ensures in_its_capacity { LiesIn 17 (view (root 0 1 16) 9 8 0 0) }
    ensures past_its_capacity { ¬ LiesIn 16 (view (root 0 1 16) 9 8 0 0) }
    ensures past_its_length { ¬ IsView (view (root 0 1 16) 4 8 0 9) }
    ensures out_of_order { ¬ IsView (view (root 0 1 16) 4 8 3 2) }
{}
