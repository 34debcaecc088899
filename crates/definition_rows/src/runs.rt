//! Whole runs of one lane. Each is legal, and has the text that was worked out for its trace.

ghost use Rattle.std.specs.Prelude.{◌≡◌, [], ◌∷◌, ◌++◌, true, false};
ghost use Rattle.pool_law.specs.Legal.{IsLegal};
ghost use Rattle.pool_law.specs.Text.{text_of};
ghost use Rattle.definition_rows.specs.Notes.{lines};
ghost use Rattle.definition_rows.specs.RootRuns.{nothing, smallest, request_zero, one_handle};
ghost use Rattle.definition_rows.specs.ArenaRuns.{small_and_normal, merging, full_while_cached};
ghost use Rattle.definition_rows.specs.ViewRuns.{slices, counting};
ghost use Rattle.definition_rows.specs.LeakRuns.{leaking, leaking_by_default};
ghost use Rattle.definition_rows.specs.TextPlays.{close_lines};

/// A lane without commands notes the closing of its forty caches.
pub fn nothing_run()
    ensures legal { IsLegal nothing }
    ensures text { text_of nothing false ≡ lines ("end roots 0 live 0 leaks 0" ∷ []) }
    ensures history { text_of nothing true
        ≡ close_lines ++ lines ("end roots 0 live 0 leaks 0" ∷ []) }
{}

/// One root, from its birth to its end. The idle subpage stays.
pub fn smallest_run()
    ensures legal { IsLegal smallest }
    ensures text { text_of smallest false ≡ lines
        ("0.0 alloc ok 32 0.0+0"
        ∷ "0.1 set ok"
        ∷ "0.2 get ok 68656c6c6f"
        ∷ "0.3 release freed"
        ∷ "chunk 0.0 qInit used 8192 free 4186112"
        ∷ "end roots 1 live 0 leaks 0"
        ∷ []) }
{}

/// A request of no bytes takes the least class, and nothing can be read.
pub fn request_zero_run()
    ensures legal { IsLegal request_zero }
    ensures text { text_of request_zero false ≡ lines
        ("0.0 alloc ok 16 0.0+0"
        ∷ "0.1 get range"
        ∷ "0.2 release freed"
        ∷ "chunk 0.0 qInit used 8192 free 4186112"
        ∷ "end roots 1 live 0 leaks 0"
        ∷ []) }
{}

/// One handle; a region that comes back begins with zeros.
pub fn one_handle_run()
    ensures legal { IsLegal one_handle }
    ensures text { text_of one_handle false ≡ lines
        ("0.0 alloc ok 16 0.0+0"
        ∷ "0.1 set ok"
        ∷ "0.2 alloc handles"
        ∷ "0.3 release freed"
        ∷ "0.4 alloc ok 16 0.0+0"
        ∷ "0.5 get ok 0000000000000000"
        ∷ "0.6 release freed"
        ∷ "chunk 0.0 qInit used 8192 free 4186112"
        ∷ "end roots 2 live 0 leaks 0"
        ∷ []) }
{}

/// The last small class and the first normal one.
pub fn small_and_normal_run()
    ensures legal { IsLegal small_and_normal }
    ensures text { text_of small_and_normal false ≡ lines
        ("0.0 alloc ok 28672 0.0+0"
        ∷ "0.1 alloc ok 32768 0.0+57344"
        ∷ "0.2 release freed"
        ∷ "0.3 release freed"
        ∷ "chunk 0.0 qInit used 57344 free 4136960"
        ∷ "end roots 2 live 0 leaks 0"
        ∷ []) }
{}

/// Two runs that come back side by side hold a request of both.
pub fn merging_run()
    ensures legal { IsLegal merging }
    ensures text { text_of merging false ≡ lines
        ("0.0 alloc ok 40960 0.0+0"
        ∷ "0.1 alloc ok 40960 0.0+40960"
        ∷ "0.2 alloc ok 40960 0.0+81920"
        ∷ "0.3 release freed"
        ∷ "0.4 release freed"
        ∷ "0.5 alloc ok 81920 0.0+0"
        ∷ "chunk 0.0 q050 used 122880 free 8192"
        ∷ "end roots 4 live 2 leaks 0"
        ∷ []) }
{}

/// An arena is full while bytes wait in a cache.
pub fn full_while_cached_run()
    ensures legal { IsLegal full_while_cached }
    ensures text { text_of full_while_cached false ≡ lines
        ("0.0 alloc ok 32768 0.0+0"
        ∷ "0.1 alloc ok 32768 0.0+32768"
        ∷ "0.2 release freed"
        ∷ "0.3 alloc full"
        ∷ "chunk 0.0 q050 used 32768 free 32768"
        ∷ "end roots 2 live 1 leaks 0"
        ∷ []) }
{}

/// A slice of a slice reads and writes at the offsets of both.
pub fn slices_run()
    ensures legal { IsLegal slices }
    ensures text { text_of slices false ≡ lines
        ("0.0 alloc ok 16 0.0+0"
        ∷ "0.1 slice ok"
        ∷ "0.2 slice ok"
        ∷ "0.3 set ok"
        ∷ "0.4 get ok 0000aabb00000000"
        ∷ "0.5 get ok aabb"
        ∷ "0.6 set range"
        ∷ "0.7 release freed"
        ∷ "0.8 get illegal"
        ∷ "chunk 0.0 qInit used 8192 free 4186112"
        ∷ "end roots 1 live 0 leaks 0"
        ∷ []) }
{}

/// Counts, and the refusals after the end.
pub fn counting_run()
    ensures legal { IsLegal counting }
    ensures text { text_of counting false ≡ lines
        ("0.0 alloc ok 16 0.0+0"
        ∷ "0.1 rslice ok"
        ∷ "0.2 refcnt ok 2"
        ∷ "0.3 release kept"
        ∷ "0.4 release freed"
        ∷ "0.5 release illegal"
        ∷ "0.6 get illegal"
        ∷ "0.7 alloc taken"
        ∷ "0.8 get unbound"
        ∷ "chunk 0.0 qInit used 8192 free 4186112"
        ∷ "end roots 1 live 0 leaks 0"
        ∷ []) }
{}

/// Two live roots, each sampled, with their accesses.
pub fn leaking_run()
    ensures legal { IsLegal leaking }
    ensures text { text_of leaking false ≡ lines
        ("0.0 alloc ok 112 0.0+0"
        ∷ "0.1 forget ok"
        ∷ "0.2 alloc ok 16 0.0+57344"
        ∷ "0.3 set ok"
        ∷ "chunk 0.0 qInit used 65536 free 4128768"
        ∷ "leak 0.1 capacity 100 count 1 records 0 dropped 0"
        ∷ "leak 0.2 capacity 10 count 1 records 1 dropped 0"
        ∷ " 0 set 0+1"
        ∷ "end roots 2 live 2 leaks 2"
        ∷ []) }
{}

/// Of two live roots the first is sampled, and its accesses are not kept.
pub fn leaking_by_default_run()
    ensures legal { IsLegal leaking_by_default }
    ensures text { text_of leaking_by_default false ≡ lines
        ("0.0 alloc ok 112 0.0+0"
        ∷ "0.1 forget ok"
        ∷ "0.2 alloc ok 16 0.0+57344"
        ∷ "0.3 set ok"
        ∷ "chunk 0.0 qInit used 65536 free 4128768"
        ∷ "leak 0.1 capacity 100 count 1 records 0 dropped 0"
        ∷ "end roots 2 live 2 leaks 1"
        ∷ []) }
{}
