//! The order of refusals: where two of them have a cause, the first is answered. A refused command
//! makes no note but those named, and changes no name.

ghost use Rattle.std.specs.Prelude.{◌≡◌, [], ◌∷◌, None, true, false};
ghost use Rattle.pool_law.specs.declared.command.Command.{Command};
ghost use Rattle.pool_law.specs.declared.command.Command.TheVariants.{Alloc, Set, Get, Write, Read, Slice, Dup, Retain, Release, Refcnt, Touch, Forget, Send, Recv, Capacity};
ghost use Rattle.pool_law.specs.declared.note.Did.TheVariants.{Room};
ghost use Rattle.pool_law.specs.declared.note.Object.{Object};
ghost use Rattle.pool_law.specs.declared.note.RefDid.{RefDid};
ghost use Rattle.pool_law.specs.declared.run.Reply.{Reply};
ghost use Rattle.definition_rows.specs.Notes.{mail, post, post_nothing, fetch_nothing};
ghost use Rattle.definition_rows.specs.Entries.{alone, on, access, mark};
ghost use Rattle.definition_rows.specs.LanePlays.{held, gone, gone_view, answers, replies, handle, no_handle, home, miss, full, held_mark};

/// `alloc`: taken, toolarge, handles, full.
pub fn alloc()
    ensures taken_before_toolarge { answers (Alloc 0 4194305) (no_handle ∷ [])
        ≡ replies Reply.Taken (no_handle ∷ []) }
    ensures toolarge_before_handles { answers (Alloc 2 4194305) (no_handle ∷ [])
        ≡ replies Reply.TooLarge (no_handle ∷ []) }
    ensures handles_before_full { answers (Alloc 2 8) (no_handle ∷ full 0 ∷ [])
        ≡ replies Reply.Handles (full 0 ∷ []) }
    ensures full { answers (Alloc 2 8) (handle ∷ miss ∷ full 0 ∷ home ∷ [])
        ≡ replies Reply.Full [] }
    ensures full_without_cache { answers (Alloc 2 40960) (handle ∷ full 40 ∷ home ∷ [])
        ≡ replies Reply.Full [] }
    ensures full_and_home { answers (Alloc 2 8) (handle ∷ miss ∷ full 0 ∷ []) ≡ None }
{}

/// `capacity`: unbound, illegal, toolarge, full.
pub fn capacity()
    ensures unbound { answers (Capacity 2 4194305) [] ≡ replies Reply.Unbound [] }
    ensures illegal_before_toolarge { answers (Capacity 1 4194305) [] ≡ replies Reply.Illegal [] }
    ensures illegal_before_enough { answers (Capacity 1 8) (access gone 2 (Room 8 8) ∷ [])
        ≡ replies Reply.Illegal (access gone 2 (Room 8 8) ∷ []) }
    ensures toolarge_before_full { answers (Capacity 0 4194305)
        (access held 2 (Room 4194305 8) ∷ full 67 ∷ [])
        ≡ replies Reply.TooLarge (access held 2 (Room 4194305 8) ∷ full 67 ∷ []) }
    ensures full { answers (Capacity 0 40960) (access held 2 (Room 40960 8) ∷ full 40 ∷ [])
        ≡ replies Reply.Full [] }
    ensures full_unasked { answers (Capacity 0 40960) (full 40 ∷ []) ≡ None }
{}

/// `set` and `get`: unbound, illegal, range.
pub fn set_and_get()
    ensures set_unbound { answers (Set 2 9 (1 ∷ []) false) [] ≡ replies Reply.Unbound [] }
    ensures set_illegal_before_range { answers (Set 1 9 (1 ∷ []) false) []
        ≡ replies Reply.Illegal [] }
    ensures set_range { answers (Set 0 8 (1 ∷ []) false) [] ≡ replies Reply.Range [] }
    ensures get_unbound { answers (Get 2 9 1 false) [] ≡ replies Reply.Unbound [] }
    ensures get_illegal_before_range { answers (Get 1 9 1 false) [] ≡ replies Reply.Illegal [] }
    ensures get_range { answers (Get 0 8 1 false) [] ≡ replies Reply.Range [] }
{}

/// `tryset`: unbound, illegal, range, busy.
pub fn tryset()
    ensures unbound { answers (Set 2 9 (1 ∷ []) true) [] ≡ replies Reply.Unbound [] }
    ensures illegal_before_range { answers (Set 1 9 (1 ∷ []) true) [] ≡ replies Reply.Illegal [] }
    ensures illegal_before_busy { answers (Set 1 0 (1 ∷ []) true) (held_mark ∷ [])
        ≡ replies Reply.Illegal (held_mark ∷ []) }
    ensures range_before_busy { answers (Set 0 8 (1 ∷ []) true) (held_mark ∷ [])
        ≡ replies Reply.Range (held_mark ∷ []) }
    ensures busy { answers (Set 0 0 (1 ∷ []) true) (held_mark ∷ []) ≡ replies (Reply.Busy 5) [] }
    ensures of_the_root { answers (Set 0 0 (1 ∷ []) true) (alone (mark (Object.Root 1) 5) ∷ [])
        ≡ None }
    ensures a_set_waits { answers (Set 0 0 (1 ∷ []) false) (held_mark ∷ []) ≡ None }
{}

/// `tryget`: unbound, illegal, range, busy.
pub fn tryget()
    ensures unbound { answers (Get 2 9 1 true) [] ≡ replies Reply.Unbound [] }
    ensures illegal_before_range { answers (Get 1 9 1 true) [] ≡ replies Reply.Illegal [] }
    ensures illegal_before_busy { answers (Get 1 0 1 true) (held_mark ∷ [])
        ≡ replies Reply.Illegal (held_mark ∷ []) }
    ensures range_before_busy { answers (Get 0 8 1 true) (held_mark ∷ [])
        ≡ replies Reply.Range (held_mark ∷ []) }
    ensures busy { answers (Get 0 0 1 true) (held_mark ∷ []) ≡ replies (Reply.Busy 5) [] }
    ensures of_the_root { answers (Get 0 0 1 true) (alone (mark (Object.Root 1) 5) ∷ []) ≡ None }
    ensures a_get_waits { answers (Get 0 0 1 false) (held_mark ∷ []) ≡ None }
{}

/// `write` and `read`: unbound, illegal, range.
pub fn write_and_read()
    ensures write_unbound { answers (Write 2 (1 ∷ [])) [] ≡ replies Reply.Unbound [] }
    ensures write_illegal_before_range { answers
        (Write 1 (1 ∷ 2 ∷ 3 ∷ 4 ∷ 5 ∷ 6 ∷ 7 ∷ 8 ∷ 9 ∷ [])) []
        ≡ replies Reply.Illegal [] }
    ensures write_range { answers (Write 0 (1 ∷ 2 ∷ 3 ∷ [])) [] ≡ replies Reply.Range [] }
    ensures read_unbound { answers (Read 2 1) [] ≡ replies Reply.Unbound [] }
    ensures read_illegal_before_range { answers (Read 1 1) [] ≡ replies Reply.Illegal [] }
    ensures read_range { answers (Read 0 5) [] ≡ replies Reply.Range [] }
{}

/// `slice` and `rslice`: unbound, taken, illegal, range.
pub fn slice_and_rslice()
    ensures unbound_before_taken { answers (Slice 0 2 9 1 false) [] ≡ replies Reply.Unbound [] }
    ensures taken_before_illegal { answers (Slice 0 1 9 1 false) [] ≡ replies Reply.Taken [] }
    ensures taken_before_range { answers (Slice 1 0 9 1 false) [] ≡ replies Reply.Taken [] }
    ensures illegal_before_range { answers (Slice 2 1 9 1 false) [] ≡ replies Reply.Illegal [] }
    ensures range { answers (Slice 2 0 8 1 false) [] ≡ replies Reply.Range [] }
    ensures retained_unbound { answers (Slice 0 2 9 1 true) [] ≡ replies Reply.Unbound [] }
    ensures retained_taken { answers (Slice 0 1 9 1 true) [] ≡ replies Reply.Taken [] }
    ensures retained_illegal { answers (Slice 2 1 9 1 true) [] ≡ replies Reply.Illegal [] }
    ensures retained_range { answers (Slice 2 0 8 1 true) (on held RefDid.Retain ∷ [])
        ≡ replies Reply.Range (on held RefDid.Retain ∷ []) }
{}

/// `dup`: unbound, taken, illegal. `forget`: unbound.
pub fn dup_and_forget()
    ensures unbound_before_taken { answers (Dup 0 2) [] ≡ replies Reply.Unbound [] }
    ensures taken_before_illegal { answers (Dup 0 1) [] ≡ replies Reply.Taken [] }
    ensures illegal { answers (Dup 2 1) [] ≡ replies Reply.Illegal [] }
    ensures forget_unbound { answers (Forget 2) [] ≡ replies Reply.Unbound [] }
{}

/// `retain`, `release`, `refcnt` and `touch`: unbound, illegal.
pub fn counts_and_touches()
    ensures retain_unbound { answers (Retain 2) [] ≡ replies Reply.Unbound [] }
    ensures retain_illegal { answers (Retain 1) (on gone RefDid.Retain ∷ [])
        ≡ replies Reply.Illegal (on gone RefDid.Retain ∷ []) }
    ensures release_unbound { answers (Release 2) [] ≡ replies Reply.Unbound [] }
    ensures release_illegal { answers (Release 1) [] ≡ replies Reply.Illegal [] }
    ensures refcnt_unbound { answers (Refcnt 2) [] ≡ replies Reply.Unbound [] }
    ensures refcnt_illegal { answers (Refcnt 1) [] ≡ replies Reply.Illegal [] }
    ensures touch_unbound { answers (Touch 2) [] ≡ replies Reply.Unbound [] }
    ensures touch_illegal { answers (Touch 1) [] ≡ replies Reply.Illegal [] }
{}

/// `send`: unbound, illegal, and an empty parcel goes for either. `recv`: nothing.
pub fn send_and_recv()
    ensures unbound { answers (Send 2 1) (alone (mail 0 1 1 post_nothing) ∷ [])
        ≡ replies Reply.Unbound [] }
    ensures illegal { answers (Send 1 1) (alone (mail 0 1 1 post_nothing) ∷ [])
        ≡ replies Reply.Illegal [] }
    ensures no_parcel { answers (Send 1 1) (alone (mail 0 1 1 (post gone_view)) ∷ []) ≡ None }
    ensures not_silent { answers (Send 1 1) [] ≡ None }
    ensures nothing { answers (Recv 2 1) (alone (mail 1 0 1 fetch_nothing) ∷ [])
        ≡ replies Reply.Nothing [] }
{}
