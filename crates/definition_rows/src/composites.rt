//! Composites: where their bytes lie, and what a lane answers to commands on them.

ghost use Rattle.std.specs.Prelude.{◌≡◌, [], ◌∷◌, ◌++◌, None, replicate, true, false};
ghost use Rattle.pool_law.specs.declared.command.Command.TheVariants.{Set, Get, Write, Read, Slice, Dup, Retain, Release, Refcnt, Touch, Forget, Send, Compose, Add, Capacity};
ghost use Rattle.pool_law.specs.declared.note.Did.{Did};
ghost use Rattle.pool_law.specs.declared.note.RefDid.{RefDid};
ghost use Rattle.pool_law.specs.declared.run.Reply.{Reply};
ghost use Rattle.pool_law.specs.Composites.{Composite, composite_of, extended_by, cut, ranges, readable};
ghost use Rattle.pool_law.specs.Names.{Composed, without};
ghost use Rattle.definition_rows.specs.Notes.{mail, post_nothing};
ghost use Rattle.definition_rows.specs.Entries.{alone, on, access};
ghost use Rattle.definition_rows.specs.LanePlays.{held, gone, held_view, ends_with, kept_at, held_home, gives};
ghost use Rattle.definition_rows.specs.CompositePlays.{large, held_part, gone_part, large_part, composite, bound, answers, replies, binds, handle, full, birth, no_handle, copies, copy_part, held_region};

/// A composite is the readable bytes of its parts in order. An empty part has no byte of it.
pub fn bytes_in_parts()
    ensures readable { readable held_view ≡ held_part }
    ensures new { composite_of (held_part ∷ gone_part ∷ [])
        ≡ record { parts = held_part ∷ gone_part ∷ []; count = 1; reader = 0; writer = 6 } }
    ensures longer { extended_by gone_part (composite (held_part ∷ []) 1 3)
        ≡ composite (held_part ∷ gone_part ∷ []) 1 6 }
    ensures last_and_first { ranges (cut held_part 0 3 ∷ cut held_part 0 0 ∷ large_part ∷ []) 2 3
        ≡ cut held_part 2 1 ∷ cut large_part 0 2 ∷ [] }
    ensures behind_the_empty_part { ranges
        (cut held_part 0 3 ∷ cut held_part 0 0 ∷ large_part ∷ []) 3 1
        ≡ cut large_part 0 1 ∷ [] }
    ensures within_a_part { ranges (large_part ∷ held_part ∷ []) 10 5 ≡ cut large_part 10 5 ∷ [] }
    ensures nothing { ranges (large_part ∷ held_part ∷ []) 10 0 ≡ [] }
{}

/// Up to sixteen parts make a composite without a note.
pub fn compose_and_add()
    ensures compose { answers (Compose 2 (0 ∷ 6 ∷ [])) []
        ≡ binds (Reply.OkNumber 40004) 2 (Composed (composite_of (held_part ∷ large_part ∷ []))) }
    ensures compose_sixteen { answers (Compose 2 (replicate 16 0)) []
        ≡ binds (Reply.OkNumber 64) 2 (Composed (composite_of (replicate 16 held_part))) }
    ensures add { answers (Add 3 0) []
        ≡ binds (Reply.OkNumber 8) 3 (Composed (composite (held_part ∷ held_part ∷ []) 1 8)) }
    ensures add_to_two_counts { answers (Add 7 0) []
        ≡ binds (Reply.OkNumber 40004) 7
        (Composed (composite (large_part ∷ held_part ∷ []) 2 40004)) }
{}

/// Seventeen parts are copied to a new root. Then each is released, as long as the lane counts its
/// root.
pub fn consolidation()
    ensures compose { answers (Compose 2 (replicate 17 0))
        (handle ++ birth ++ copies 0 17
        ++ ends_with held_region (kept_at 0 held_region ∷ held_home ∷ []))
        ≡ binds (Reply.OkNumber 68) 2 (Composed (composite_of (copy_part ∷ []))) }
    ensures add { answers (Add 10 0)
        (handle ++ birth ++ copies 0 17
        ++ ends_with held_region (kept_at 0 held_region ∷ held_home ∷ []))
        ≡ binds (Reply.OkNumber 68) 10 (Composed (composite (copy_part ∷ []) 1 68)) }
    ensures not_silent { answers (Compose 2 (replicate 17 0)) [] ≡ None }
    ensures all_parts { answers (Compose 2 (replicate 17 0))
        (handle ++ birth ++ copies 0 16
        ++ ends_with held_region (kept_at 0 held_region ∷ held_home ∷ [])) ≡ None }
    ensures releases { answers (Compose 2 (replicate 17 0)) (handle ++ birth ++ copies 0 17)
        ≡ None }
    ensures full { answers (Add 10 0) (handle ++ full) ≡ replies Reply.Full [] }
{}

/// An access to a composite is one note for each part of the range.
pub fn accesses()
    ensures set { answers (Set 3 1 (9 ∷ 8 ∷ []) false) (access held 2 (Did.Set 3 (9 ∷ 8 ∷ [])) ∷ [])
        ≡ replies Reply.Ok [] }
    ensures set_nothing { answers (Set 3 1 [] false) [] ≡ replies Reply.Ok [] }
    ensures get { answers (Get 10 3 6 false)
        (access held 2 (Did.Get 5 (1 ∷ [])) ∷ access held 3 (Did.Get 2 (2 ∷ 3 ∷ 4 ∷ 5 ∷ []))
        ∷ access held 4 (Did.Get 2 (6 ∷ [])) ∷ [])
        ≡ replies (Reply.OkBytes (1 ∷ 2 ∷ 3 ∷ 4 ∷ 5 ∷ 6 ∷ [])) [] }
    ensures in_order { answers (Get 10 3 2 false)
        (access held 2 (Did.Get 2 (2 ∷ [])) ∷ access held 3 (Did.Get 5 (1 ∷ [])) ∷ []) ≡ None }
    ensures read { answers (Read 3 2) (access held 2 (Did.Get 3 (1 ∷ 2 ∷ [])) ∷ [])
        ≡ binds (Reply.OkBytes (1 ∷ 2 ∷ [])) 3
        (Composed (record { parts = held_part ∷ []; count = 1; reader = 3; writer = 4 })) }
    ensures read_range { answers (Read 3 4) [] ≡ replies Reply.Range [] }
    // its writer is at its end
    ensures write_nothing { answers (Write 3 []) []
        ≡ binds Reply.Ok 3 (Composed (composite (held_part ∷ []) 1 4)) }
    ensures write_range { answers (Write 3 (1 ∷ [])) [] ≡ replies Reply.Range [] }
    ensures get_range { answers (Get 3 1 4 false) [] ≡ replies Reply.Range [] }
    ensures uncounted_before_range { answers (Get 5 9 9 false) [] ≡ replies Reply.Illegal [] }
    ensures ended { answers (Get 4 0 1 false) [] ≡ replies Reply.Illegal [] }
{}

/// A composite has counts of its own, and the last releases each part whose root the lane then
/// counts.
pub fn own_counts()
    ensures retain { answers (Retain 3) []
        ≡ binds Reply.Ok 3 (Composed (composite (held_part ∷ []) 2 4)) }
    ensures refcnt { answers (Refcnt 7) [] ≡ replies (Reply.OkNumber 2) [] }
    ensures kept { answers (Release 7) []
        ≡ binds Reply.Kept 7 (Composed (composite (large_part ∷ []) 1 40000)) }
    ensures freed { answers (Release 3)
        (ends_with held_region (kept_at 0 held_region ∷ held_home ∷ []))
        ≡ binds Reply.Freed 3 (Composed (composite (held_part ∷ []) 0 4)) }
    ensures its_root_stays { answers (Release 3) (on held RefDid.Kept ∷ [])
        ≡ binds Reply.Freed 3 (Composed (composite (held_part ∷ []) 0 4)) }
    // one root is gone, and is not released
    ensures freed_in_part { answers (Release 5)
        (ends_with held_region (kept_at 0 held_region ∷ held_home ∷ []))
        ≡ binds Reply.Freed 5 (Composed (composite (held_part ∷ gone_part ∷ []) 0 6)) }
    // sixteen parts of a root that the lane counts once
    ensures freed_once { answers (Release 10)
        (ends_with held_region (kept_at 0 held_region ∷ held_home ∷ []))
        ≡ binds Reply.Freed 10 (Composed (composite (replicate 16 held_part) 0 64)) }
    ensures not_silent { answers (Release 3) [] ≡ None }
    ensures retain_ended { answers (Retain 4) [] ≡ replies Reply.Illegal [] }
    ensures release_ended { answers (Release 4) [] ≡ replies Reply.Illegal [] }
    ensures refcnt_ended { answers (Refcnt 4) [] ≡ replies Reply.Illegal [] }
    ensures forget { answers (Forget 3) [] ≡ gives Reply.Ok (without 3 bound) [] }
    ensures forget_ended { answers (Forget 4) [] ≡ gives Reply.Ok (without 4 bound) [] }
{}

/// Commands that take no composite: where the name is one, they are refused before its counts are
/// looked at.
pub fn refused_composites()
    ensures tryset { answers (Set 4 9 (1 ∷ []) true) [] ≡ replies Reply.Composite [] }
    ensures tryget { answers (Get 4 9 1 true) [] ≡ replies Reply.Composite [] }
    ensures taken_before_composite { answers (Slice 0 4 9 1 false) [] ≡ replies Reply.Taken [] }
    ensures slice { answers (Slice 2 4 9 1 false) [] ≡ replies Reply.Composite [] }
    ensures rslice { answers (Slice 2 4 9 1 true) [] ≡ replies Reply.Composite [] }
    ensures dup { answers (Dup 2 4) [] ≡ replies Reply.Composite [] }
    ensures touch { answers (Touch 4) [] ≡ replies Reply.Composite [] }
    ensures capacity { answers (Capacity 4 4194305) [] ≡ replies Reply.Composite [] }
    ensures send { answers (Send 3 1) (alone (mail 0 1 1 post_nothing) ∷ [])
        ≡ replies Reply.Composite [] }
{}

/// `compose`: unbound, taken, composite, illegal, toolarge, handles, full.
pub fn compose()
    ensures unbound_before_taken { answers (Compose 0 (0 ∷ 9 ∷ [])) [] ≡ replies Reply.Unbound [] }
    ensures unbound_before_composite { answers (Compose 2 (3 ∷ 9 ∷ [])) []
        ≡ replies Reply.Unbound [] }
    ensures taken_before_composite { answers (Compose 0 (3 ∷ [])) [] ≡ replies Reply.Taken [] }
    ensures composite_before_illegal { answers (Compose 2 (1 ∷ 3 ∷ [])) []
        ≡ replies Reply.Composite [] }
    ensures illegal_before_toolarge { answers (Compose 2 (6 ∷ 6 ∷ 1 ∷ [])) []
        ≡ replies Reply.Illegal [] }
    ensures toolarge { answers (Compose 2 (6 ∷ 6 ∷ [])) [] ≡ replies Reply.TooLarge [] }
    ensures toolarge_before_handles { answers (Compose 2 (replicate 17 6)) no_handle
        ≡ replies Reply.TooLarge no_handle }
    ensures handles_before_full { answers (Compose 2 (replicate 17 0)) (no_handle ++ full)
        ≡ replies Reply.Handles full }
    ensures full { answers (Compose 2 (replicate 17 0)) (handle ++ full) ≡ replies Reply.Full [] }
{}

/// `add`: unbound, plain, composite, illegal, toolarge, handles, full.
pub fn add()
    ensures unbound_whole { answers (Add 9 3) [] ≡ replies Reply.Unbound [] }
    ensures unbound_before_plain { answers (Add 0 9) [] ≡ replies Reply.Unbound [] }
    ensures plain_before_composite { answers (Add 1 3) [] ≡ replies Reply.Plain [] }
    ensures plain_before_illegal { answers (Add 1 1) [] ≡ replies Reply.Plain [] }
    ensures composite_before_illegal { answers (Add 4 3) [] ≡ replies Reply.Composite [] }
    ensures composite_to_itself { answers (Add 3 3) [] ≡ replies Reply.Composite [] }
    ensures illegal_ended { answers (Add 4 0) [] ≡ replies Reply.Illegal [] }
    ensures illegal_part { answers (Add 5 0) [] ≡ replies Reply.Illegal [] }
    ensures illegal_view { answers (Add 3 1) [] ≡ replies Reply.Illegal [] }
    ensures illegal_before_toolarge { answers (Add 8 6) [] ≡ replies Reply.Illegal [] }
    ensures toolarge { answers (Add 7 6) [] ≡ replies Reply.TooLarge [] }
    ensures toolarge_before_handles { answers (Add 11 6) no_handle
        ≡ replies Reply.TooLarge no_handle }
    ensures handles_before_full { answers (Add 10 0) (no_handle ++ full)
        ≡ replies Reply.Handles full }
    ensures full { answers (Add 10 0) (handle ++ full) ≡ replies Reply.Full [] }
{}
