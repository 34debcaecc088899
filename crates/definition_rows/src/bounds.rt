//! The most notes that a lane of given commands makes.

ghost use Rattle.std.specs.Prelude.{◌≡◌, [], ◌∷◌, replicate, true, false};
ghost use Rattle.pool_law.specs.declared.command.Command.TheVariants.{Alloc, Set, Get, Write, Read, Slice, Dup, Release, Forget, Compose, Add, Capacity};
ghost use Rattle.pool_law.specs.Bounds.{most_drained, note_bound};

/// Without composites, a release makes at most six notes and an access one.
pub fn bounds_of_lanes()
    ensures closing { note_bound [] ≡ 40 }
    ensures alloc { note_bound (Alloc 0 8 ∷ []) ≡ 47 }
    ensures capacity { note_bound (Capacity 0 8 ∷ []) ≡ 48 }
    ensures few { note_bound
        (Set 0 0 [] false ∷ Set 0 0 [] true ∷ Write 0 [] ∷ Release 0 ∷ Dup 1 0 ∷ Forget 0
        ∷ Slice 1 0 0 0 false ∷ Slice 1 0 0 0 true ∷ []) ≡ 50 }
    ensures sweeps { most_drained 8191 ≡ 16422 }
    ensures one_more_sweep { most_drained 8192 ≡ 16464 }
{}

/// In a lane that makes a composite, both may go through its parts.
pub fn bounds_of_composites()
    ensures compose { note_bound (Compose 1 (0 ∷ []) ∷ []) ≡ 239 }
    ensures add { note_bound (Add 1 0 ∷ []) ≡ 183 }
    ensures release { note_bound (Release 0 ∷ Compose 1 (0 ∷ []) ∷ []) ≡ 335 }
    ensures access { note_bound (Get 0 0 1 false ∷ Compose 1 (0 ∷ []) ∷ []) ≡ 255 }
    ensures trying { note_bound (Get 0 0 1 true ∷ Compose 1 (0 ∷ []) ∷ []) ≡ 240 }
{}
