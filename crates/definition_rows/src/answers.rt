//! What a lane answers where it refuses nothing: the reply, the notes of the command, and the names
//! that are bound then.

ghost use Rattle.std.specs.Prelude.{◌≡◌, [], ◌∷◌, ◌++◌, None, true, false};
ghost use Rattle.pool_law.specs.declared.command.Command.TheVariants.{Alloc, Set, Get, Write, Read, Slice, Dup, Retain, Release, Refcnt, Touch, Forget, Send, Recv, Capacity};
ghost use Rattle.pool_law.specs.declared.note.Did.{Did};
ghost use Rattle.pool_law.specs.declared.note.RefDid.{RefDid};
ghost use Rattle.pool_law.specs.declared.run.Reply.{Reply};
ghost use Rattle.pool_law.specs.Names.{Plain};
ghost use Rattle.definition_rows.specs.Notes.{place, root, view, mail, post, fetch};
ghost use Rattle.definition_rows.specs.Entries.{alone, on, access};
ghost use Rattle.definition_rows.specs.LanePlays.{held, gone, held_view, gone_view, bound, answers, gives, replies, handle, home, hit, miss, cache_mark, taken_from, birth, born, third_bound, held_region, far_region, large_region, ends_with, kept_at, sent_back, gave, held_home, reached, next_region, asks_for_seventeen, next_kept};
ghost use Rattle.definition_rows.specs.GrowthPlays.{growth};

/// `alloc` takes a handle. It asks the lane's cache, and its arena after a miss or a busy mark.
/// Then a root is born, with the region's uses one higher.
pub fn alloc()
    ensures by_a_hit { answers (Alloc 2 8) (handle ∷ hit ∷ birth 2 ∷ born ∷ []) ≡ third_bound }
    ensures after_a_miss { answers (Alloc 2 8) (handle ∷ miss ∷ taken_from 0 ∷ birth 1 ∷ born ∷ [])
        ≡ third_bound }
    ensures after_a_mark { answers (Alloc 2 8)
        (handle ∷ cache_mark ∷ taken_from 0 ∷ birth 1 ∷ born ∷ [])
        ≡ third_bound }
    ensures not_both { answers (Alloc 2 8) (handle ∷ hit ∷ taken_from 0 ∷ birth 1 ∷ born ∷ [])
        ≡ None }
    ensures asks_the_cache { answers (Alloc 2 8) (handle ∷ taken_from 0 ∷ birth 1 ∷ born ∷ [])
        ≡ None }
    ensures own_arena { answers (Alloc 2 8) (handle ∷ miss ∷ taken_from 1 ∷ birth 1 ∷ born ∷ [])
        ≡ None }
    ensures one_use_more { answers (Alloc 2 8) (handle ∷ hit ∷ birth 1 ∷ born ∷ []) ≡ None }
    ensures of_this_capacity { answers (Alloc 2 7) (handle ∷ hit ∷ birth 2 ∷ born ∷ []) ≡ None }
    ensures of_this_class { answers (Alloc 2 17) (handle ∷ hit ∷ birth 2 ∷ born ∷ []) ≡ None }
{}

/// `capacity` answers what the last note about it tells, and its view then ends there. What is taken
/// for the root is put away, or is what the root leaves.
pub fn capacity()
    ensures enough { answers (Capacity 0 5) (access held 2 (Did.Room 5 8) ∷ []) ≡ reached 8 }
    ensures grown_by_another { answers (Capacity 0 5) (access held 2 (Did.Room 5 12) ∷ [])
        ≡ reached 12 }
    ensures extended { answers (Capacity 0 12) (access held 2 (Did.Extend 12) ∷ [])
        ≡ reached 12 }
    ensures replaced { answers (Capacity 0 17)
        (asks_for_seventeen ++ growth held 3 17 held_region (next_region 1)
        ∷ kept_at 0 held_region ∷ [])
        ≡ reached 17 }
    ensures outrun { answers (Capacity 0 17)
        (asks_for_seventeen ++ access held 4 (Did.Room 17 24) ∷ alone next_kept ∷ [])
        ≡ reached 24 }
    ensures unnoted { answers (Capacity 0 5) [] ≡ None }
    ensures of_another_root { answers (Capacity 0 5) (access gone 2 (Did.Room 5 8) ∷ [])
        ≡ None }
    ensures of_another_size { answers (Capacity 0 5) (access held 2 (Did.Room 4 8) ∷ []) ≡ None }
    ensures extended_to_more { answers (Capacity 0 12) (access held 2 (Did.Extend 16) ∷ [])
        ≡ None }
    ensures too_little { answers (Capacity 0 17) (access held 2 (Did.Room 17 8) ∷ []) ≡ None }
    ensures both_kept { answers (Capacity 0 17)
        (asks_for_seventeen ++ growth held 3 17 held_region (next_region 1) ∷ alone next_kept ∷ [])
        ≡ None }
{}

/// The release that ends a count is followed by the end of the root. Its owner's cache keeps the
/// region. Where that sent it back, was held or is none, the region is given. The handle goes home.
pub fn release()
    ensures count_stays { answers (Release 0) (on held RefDid.Kept ∷ []) ≡ replies Reply.Kept [] }
    ensures kept { answers (Release 0)
        (ends_with held_region (kept_at 0 held_region ∷ held_home ∷ []))
        ≡ replies Reply.Freed [] }
    ensures kept_by_its_owner { answers (Release 0)
        (ends_with far_region (kept_at 1 far_region ∷ held_home ∷ []))
        ≡ replies Reply.Freed [] }
    ensures sent_back { answers (Release 0)
        (ends_with held_region (sent_back ∷ gave held_region ∷ held_home ∷ []))
        ≡ replies Reply.Freed [] }
    ensures cache_held { answers (Release 0)
        (ends_with held_region (cache_mark ∷ gave held_region ∷ held_home ∷ []))
        ≡ replies Reply.Freed [] }
    ensures without_cache { answers (Release 0)
        (ends_with large_region (gave large_region ∷ held_home ∷ []))
        ≡ replies Reply.Freed [] }
    ensures not_past_the_cache { answers (Release 0)
        (ends_with held_region (gave held_region ∷ held_home ∷ [])) ≡ None }
    ensures not_both { answers (Release 0)
        (ends_with held_region (kept_at 0 held_region ∷ gave held_region ∷ held_home ∷ [])) ≡ None }
    ensures by_another_lane { answers (Release 0)
        (ends_with held_region (kept_at 1 held_region ∷ held_home ∷ [])) ≡ None }
    ensures home { answers (Release 0) (ends_with held_region (kept_at 0 held_region ∷ [])) ≡ None }
{}

/// An access through a view is one note at the view's offset.
pub fn accesses()
    ensures set { answers (Set 0 1 (9 ∷ []) false) (access held 2 (Did.Set 1 (9 ∷ [])) ∷ [])
        ≡ replies Reply.Ok [] }
    ensures set_nothing { answers (Set 0 8 [] false) (access held 2 (Did.Set 8 []) ∷ [])
        ≡ replies Reply.Ok [] }
    ensures tryset { answers (Set 0 1 (9 ∷ []) true) (access held 2 (Did.Set 1 (9 ∷ [])) ∷ [])
        ≡ replies Reply.Ok [] }
    ensures get { answers (Get 0 1 2 false) (access held 2 (Did.Get 1 (8 ∷ 9 ∷ [])) ∷ [])
        ≡ replies (Reply.OkBytes (8 ∷ 9 ∷ [])) [] }
    ensures tryget { answers (Get 0 1 2 true) (access held 2 (Did.Get 1 (8 ∷ 9 ∷ [])) ∷ [])
        ≡ replies (Reply.OkBytes (8 ∷ 9 ∷ [])) [] }
    ensures touch { answers (Touch 0) (access held 2 Did.Touch ∷ []) ≡ replies Reply.Ok [] }
    ensures other_bytes { answers (Set 0 1 (9 ∷ []) false) (access held 2 (Did.Set 1 (8 ∷ [])) ∷ [])
        ≡ None }
    ensures other_offset { answers (Get 0 1 2 false) (access held 2 (Did.Get 2 (8 ∷ 9 ∷ [])) ∷ [])
        ≡ None }
    ensures other_length { answers (Get 0 1 2 false) (access held 2 (Did.Get 1 (8 ∷ [])) ∷ [])
        ≡ None }
    ensures other_root { answers (Get 0 1 2 false)
        (access (root 0 2 8) 2 (Did.Get 1 (8 ∷ 9 ∷ [])) ∷ []) ≡ None }
{}

/// `write` sets at the writer and `read` gets at the reader, and each moves it.
pub fn readers_and_writers()
    ensures write { answers (Write 0 (9 ∷ 9 ∷ [])) (access held 2 (Did.Set 6 (9 ∷ 9 ∷ [])) ∷ [])
        ≡ gives Reply.Ok ((0, Plain (view held 0 8 2 8)) ∷ (1, Plain gone_view) ∷ []) [] }
    ensures read { answers (Read 0 4) (access held 2 (Did.Get 2 (1 ∷ 2 ∷ 3 ∷ 4 ∷ [])) ∷ [])
        ≡ gives (Reply.OkBytes (1 ∷ 2 ∷ 3 ∷ 4 ∷ []))
        ((0, Plain (view held 0 8 6 6)) ∷ (1, Plain gone_view) ∷ []) [] }
    ensures write_at_the_writer { answers (Write 0 (9 ∷ []))
        (access held 2 (Did.Set 0 (9 ∷ [])) ∷ []) ≡ None }
    ensures read_at_the_reader { answers (Read 0 1) (access held 2 (Did.Get 0 (1 ∷ [])) ∷ [])
        ≡ None }
{}

/// New names are bound: to a slice, which may add a count, and to the same view.
pub fn new_names()
    ensures slice { answers (Slice 2 0 1 3 false) []
        ≡ gives Reply.Ok ((2, Plain (view held 1 3 0 3)) ∷ bound) [] }
    ensures rslice { answers (Slice 2 0 1 3 true) (on held RefDid.Retain ∷ [])
        ≡ gives Reply.Ok ((2, Plain (view held 1 3 0 3)) ∷ bound) [] }
    ensures rslice_adds { answers (Slice 2 0 1 3 true) [] ≡ None }
    ensures dup { answers (Dup 2 0) [] ≡ gives Reply.Ok ((2, Plain held_view) ∷ bound) [] }
    ensures forget { answers (Forget 0) [] ≡ gives Reply.Ok ((1, Plain gone_view) ∷ []) [] }
    // counts are not asked
    ensures forget_gone { answers (Forget 1) [] ≡ gives Reply.Ok ((0, Plain held_view) ∷ []) [] }
{}

/// `retain` and `refcnt` are one step on the word; `send` and `recv` one note at the mail.
pub fn counts_and_parcels()
    ensures retain { answers (Retain 0) (on held RefDid.Retain ∷ []) ≡ replies Reply.Ok [] }
    ensures refcnt { answers (Refcnt 0) (on held (RefDid.Look 3) ∷ [])
        ≡ replies (Reply.OkNumber 3) [] }
    ensures of_this_root { answers (Retain 0) (on gone RefDid.Retain ∷ []) ≡ None }
    ensures send { answers (Send 0 1) (alone (mail 0 1 1 (post held_view)) ∷ [])
        ≡ replies Reply.Ok [] }
    ensures send_to_itself { answers (Send 0 0) (alone (mail 0 0 1 (post held_view)) ∷ [])
        ≡ replies Reply.Ok [] }
    ensures send_to_this_lane { answers (Send 0 1) (alone (mail 0 0 1 (post held_view)) ∷ [])
        ≡ None }
    ensures recv { answers (Recv 2 1) (alone (mail 1 0 1 (fetch (view (root 9 1 4) 1 2 0 2))) ∷ [])
        ≡ gives Reply.Ok ((2, Plain (view (root 9 1 4) 1 2 0 2)) ∷ bound) [] }
    ensures recv_from_this_lane { answers (Recv 2 1) (alone (mail 0 0 1 (fetch held_view)) ∷ [])
        ≡ None }
{}
