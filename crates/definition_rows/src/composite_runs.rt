//! Whole runs of one lane that makes composites. Each is legal, and has the text that was worked
//! out for its trace.

ghost use Rattle.std.specs.Prelude.{◌≡◌, [], ◌∷◌, ◌++◌, false};
ghost use Rattle.pool_law.specs.Legal.{IsLegal};
ghost use Rattle.pool_law.specs.Text.{text_of};
ghost use Rattle.definition_rows.specs.Notes.{lines};
ghost use Rattle.definition_rows.specs.CompositeRuns.{two_parts, consolidated};

/// A composite of two roots sets and gets the bytes of both, and releases them at its end.
pub fn two_parts_run()
    ensures legal { IsLegal two_parts }
    ensures text { text_of two_parts false ≡ lines
        ("0.0 alloc ok 16 0.0+0"
        ∷ "0.1 write ok"
        ∷ "0.2 alloc ok 16 0.0+16"
        ∷ "0.3 write ok"
        ∷ "0.4 compose ok 3"
        ∷ "0.5 set ok"
        ∷ "0.6 get ok 01ff"
        ∷ "0.7 get ok 01ffee"
        ∷ "0.8 release freed"
        ∷ "0.9 release illegal"
        ∷ "chunk 0.0 qInit used 8192 free 4186112"
        ∷ "end roots 2 live 0 leaks 0"
        ∷ []) }
{}

/// Seventeen parts of one root are copied to a new one, and the root is released as often.
pub fn consolidated_run()
    ensures legal { IsLegal consolidated }
    ensures text { text_of consolidated false ≡ lines
        ("0.0 alloc ok 16 0.0+0"
        ∷ "0.1 write ok"
        ∷ "0.2 retain ok"
        ∷ "0.3 retain ok"
        ∷ "0.4 retain ok"
        ∷ "0.5 retain ok"
        ∷ "0.6 retain ok"
        ∷ "0.7 retain ok"
        ∷ "0.8 retain ok"
        ∷ "0.9 retain ok"
        ∷ "0.10 retain ok"
        ∷ "0.11 retain ok"
        ∷ "0.12 retain ok"
        ∷ "0.13 retain ok"
        ∷ "0.14 retain ok"
        ∷ "0.15 retain ok"
        ∷ "0.16 retain ok"
        ∷ "0.17 retain ok"
        ∷ "0.18 compose ok 68"
        ∷ "0.19 get ok 6162636461626364616263646162636461626364616263646162636461626364616263646162636461626364616263646162636461626364616263646162636461626364"
        ∷ "0.20 release freed"
        ∷ "chunk 0.0 qInit used 49152 free 4145152"
        ∷ "end roots 2 live 0 leaks 0"
        ∷ []) }
{}
