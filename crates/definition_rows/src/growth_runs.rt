//! Whole runs of lanes that make a root grow. Each is legal, and has the text that was worked out for
//! its trace.

ghost use Rattle.std.specs.Prelude.{◌≡◌, [], ◌∷◌, false};
ghost use Rattle.pool_law.specs.Legal.{IsLegal, logs_of};
ghost use Rattle.pool_law.specs.Text.{text_of};
ghost use Rattle.pool_law.specs.Lives.{Got, LivesOn, InOrder, moves_of};
ghost use Rattle.pool_law.specs.Apart.{EndsBefore};
ghost use Rattle.definition_rows.specs.Notes.{lines, least_region};
ghost use Rattle.definition_rows.specs.GrowthPlays.{sixteen, wider, left_taken, wider_taken};
ghost use Rattle.definition_rows.specs.GrowthRuns.{replaced, extended, too_full, outrun, far};
ghost use Rattle.definition_rows.specs.ElsewhereRuns.{elsewhere, following, first_used, far_taken, far_used, spare_used};

/// A root grows into another region, and the one that it leaves is put away.
pub fn replaced_run()
    ensures legal { IsLegal replaced }
    ensures text { text_of replaced false ≡ lines
        ("0.0 alloc ok 16 0.0+0"
        ∷ "0.1 set ok"
        ∷ "0.2 capacity ok 16"
        ∷ "0.3 capacity ok 100"
        ∷ "0.4 get ok ff00"
        ∷ "0.5 get ok 00"
        ∷ "0.6 release freed"
        ∷ "chunk 0.0 qInit used 65536 free 4128768"
        ∷ "end roots 1 live 0 leaks 0"
        ∷ []) }
{}

/// A root grows in its region.
pub fn extended_run()
    ensures legal { IsLegal extended }
    ensures text { text_of extended false ≡ lines
        ("0.0 alloc ok 32 0.0+0"
        ∷ "0.1 capacity ok 30"
        ∷ "0.2 capacity toolarge"
        ∷ "0.3 release freed"
        ∷ "chunk 0.0 qInit used 8192 free 4186112"
        ∷ "end roots 1 live 0 leaks 0"
        ∷ []) }
{}

/// A root does not grow where the arena is full.
pub fn too_full_run()
    ensures legal { IsLegal too_full }
    ensures text { text_of too_full false ≡ lines
        ("0.0 alloc ok 40960 0.0+0"
        ∷ "0.1 capacity full"
        ∷ "0.2 release freed"
        ∷ "end roots 1 live 0 leaks 0"
        ∷ []) }
{}

/// A lane that another outruns gives its root no region: the one that it took is kept unused, and
/// hit for the next root. Its view reaches as far as the other lane let the root grow.
pub fn outrun_run()
    ensures legal { IsLegal outrun }
    ensures text { text_of outrun false ≡ lines
        ("0.0 alloc ok 16 0.0+0"
        ∷ "0.1 retain ok"
        ∷ "0.2 send ok"
        ∷ "0.3 capacity ok 112"
        ∷ "0.4 alloc ok 112 0.0+8192"
        ∷ "0.5 get ok 00"
        ∷ "0.6 release freed"
        ∷ "0.7 release freed"
        ∷ "1.0 recv ok"
        ∷ "1.1 capacity ok 112"
        ∷ "1.2 release kept"
        ∷ "chunk 0.0 qInit used 65536 free 4128768"
        ∷ "chunk 1.0 qInit used 57344 free 4136960"
        ∷ "end roots 2 live 0 leaks 0"
        ∷ []) }
{}

/// A lane makes a root grow that another lane bore and holds a slice of. The slice stays as long as it
/// was, and reads what either lane wrote, while another root lies on the bytes that the root left.
pub fn elsewhere_run()
    ensures legal { IsLegal elsewhere }
    ensures text { text_of elsewhere false ≡ lines
        ("0.0 alloc ok 16 0.0+0"
        ∷ "0.1 set ok"
        ∷ "0.2 rslice ok"
        ∷ "0.3 send ok"
        ∷ "0.4 alloc ok 16 0.0+0"
        ∷ "0.5 set ok"
        ∷ "0.6 get ok 0308"
        ∷ "0.7 get range"
        ∷ "0.8 release freed"
        ∷ "0.9 release kept"
        ∷ "1.0 recv ok"
        ∷ "1.1 capacity ok 100"
        ∷ "1.2 set ok"
        ∷ "1.3 get ok 00"
        ∷ "1.4 release freed"
        ∷ "chunk 0.0 qInit used 8192 free 4186112"
        ∷ "chunk 1.0 qInit used 57344 free 4136960"
        ∷ "end roots 2 live 0 leaks 0"
        ∷ []) }
{}

/// The region that the root leaves returns once, by the lane that makes it grow, and the other lane's
/// next root uses it after that. The region that it goes on in is that lane's own. What a lane took
/// for nothing is used once, and returns once.
pub fn regions_of_these_runs()
    ensures left_lives { LivesOn Got (least_region 0) (moves_of first_used) }
    ensures left_order { InOrder (logs_of elsewhere) left_taken first_used }
    ensures far_lives { LivesOn Got (far 0) (moves_of far_used) }
    ensures far_order { InOrder (logs_of elsewhere) far_taken far_used }
    ensures apart { EndsBefore (logs_of elsewhere)
        sixteen (least_region 1) following (least_region 2) }
    ensures spare_lives { LivesOn Got (wider 0) (moves_of spare_used) }
    ensures spare_order { InOrder (logs_of outrun) wider_taken spare_used }
{}
