//! Whole runs of two lanes. Each is legal, and has the text that was worked out for its trace.

ghost use Rattle.std.specs.Prelude.{◌≡◌, [], ◌∷◌, false};
ghost use Rattle.pool_law.specs.Legal.{IsLegal};
ghost use Rattle.pool_law.specs.Text.{text_of};
ghost use Rattle.definition_rows.specs.Notes.{lines};
ghost use Rattle.definition_rows.specs.LaneRuns.{hand_over, sent_after_release, unfetched};
ghost use Rattle.definition_rows.specs.BusyRuns.{tried, passed_by};

/// One lane sends a root, and the other reads and releases it.
pub fn hand_over_run()
    ensures legal { IsLegal hand_over }
    ensures text { text_of hand_over false ≡ lines
        ("0.0 alloc ok 16 0.0+0"
        ∷ "0.1 set ok"
        ∷ "0.2 send ok"
        ∷ "1.0 recv ok"
        ∷ "1.1 get ok 0a0b"
        ∷ "1.2 release freed"
        ∷ "chunk 0.0 qInit used 8192 free 4186112"
        ∷ "end roots 1 live 0 leaks 0"
        ∷ []) }
{}

/// A send that is refused posts an empty parcel.
pub fn sent_after_release_run()
    ensures legal { IsLegal sent_after_release }
    ensures text { text_of sent_after_release false ≡ lines
        ("0.0 alloc ok 16 0.0+0"
        ∷ "0.1 release freed"
        ∷ "0.2 send illegal"
        ∷ "1.0 recv nothing"
        ∷ "1.1 get unbound"
        ∷ "chunk 0.0 qInit used 8192 free 4186112"
        ∷ "end roots 1 live 0 leaks 0"
        ∷ []) }
{}

/// A parcel that nobody fetches is a leak.
pub fn unfetched_run()
    ensures legal { IsLegal unfetched }
    ensures text { text_of unfetched false ≡ lines
        ("0.0 alloc ok 16 0.0+0"
        ∷ "0.1 send ok"
        ∷ "chunk 0.0 qInit used 8192 free 4186112"
        ∷ "leak 0.1 capacity 4 count 1 records 0 dropped 0"
        ∷ "end roots 1 live 1 leaks 1"
        ∷ []) }
{}

/// A lane that tries finds the root held after one note, and then finds it free.
pub fn tried_run()
    ensures legal { IsLegal tried }
    ensures text { text_of tried false ≡ lines
        ("0.0 alloc ok 16 0.0+0"
        ∷ "0.1 retain ok"
        ∷ "0.2 send ok"
        ∷ "0.3 touch ok"
        ∷ "0.4 release kept"
        ∷ "1.0 recv ok"
        ∷ "1.1 tryset busy 1"
        ∷ "1.2 tryget ok 00"
        ∷ "1.3 release freed"
        ∷ "chunk 0.0 qInit used 8192 free 4186112"
        ∷ "end roots 1 live 0 leaks 0"
        ∷ []) }
{}

/// An allocation passes by its cache, in which the other lane is.
pub fn passed_by_run()
    ensures legal { IsLegal passed_by }
    ensures text { text_of passed_by false ≡ lines
        ("0.0 alloc ok 16 0.0+0"
        ∷ "0.1 send ok"
        ∷ "0.2 alloc ok 16 0.0+16"
        ∷ "1.0 recv ok"
        ∷ "1.1 release freed"
        ∷ "chunk 0.0 qInit used 8192 free 4186112"
        ∷ "end roots 2 live 1 leaks 0"
        ∷ []) }
{}
