//! How a log is cut by its replies, and the notes behind the last of them: the closing of the
//! caches.

ghost use Rattle.std.specs.Prelude.{◌≡◌, ℕ, [], ◌∷◌, ◌++◌, Some, None, false};
ghost use Rattle.pool_law.specs.declared.command.Command.TheVariants.{Get, Retain};
ghost use Rattle.pool_law.specs.declared.note.Did.{Did};
ghost use Rattle.pool_law.specs.declared.note.RefDid.{RefDid};
ghost use Rattle.pool_law.specs.declared.run.Reply.{Reply};
ghost use Rattle.pool_law.specs.LaneLaw.{pieces, behind};
ghost use Rattle.definition_rows.specs.Notes.{default_shape, least_region, cache, arena, closes};
ghost use Rattle.definition_rows.specs.Entries.{on, access};
ghost use Rattle.definition_rows.specs.LanePlays.{held, replies_of_run, step_reply, closes_with};

/// Each reply owns its notes, and the rest is behind them.
pub fn pieces_of_a_log()
    ensures pieces { pieces {X = ℕ} (2 ∷ 0 ∷ 1 ∷ []) (1 ∷ 2 ∷ 3 ∷ 4 ∷ [])
        ≡ (1 ∷ 2 ∷ []) ∷ [] ∷ (3 ∷ []) ∷ [] }
    ensures behind { behind {X = ℕ} (2 ∷ 0 ∷ 1 ∷ []) (1 ∷ 2 ∷ 3 ∷ 4 ∷ []) ≡ 4 ∷ [] }
    ensures exactly { step_reply (Retain 0) (on held RefDid.Retain ∷ []) ≡ Some Reply.Ok }
    ensures no_more { step_reply (Retain 0) (on held RefDid.Retain ∷ on held RefDid.Retain ∷ [])
        ≡ None }
    ensures no_less { step_reply (Retain 0) [] ≡ None }
{}

/// Commands are answered in order, each with the notes of the lane before it.
pub fn commands_in_order()
    ensures both { replies_of_run (Retain 0 ∷ Get 0 0 1 false ∷ [])
        ((on held RefDid.Retain ∷ []) ∷ (access held 2 (Did.Get 0 (7 ∷ [])) ∷ []) ∷ [])
        ≡ Some (Reply.Ok ∷ Reply.OkBytes (7 ∷ []) ∷ []) }
    ensures other_order { replies_of_run (Retain 0 ∷ Get 0 0 1 false ∷ [])
        ((access held 2 (Did.Get 0 (7 ∷ [])) ∷ []) ∷ (on held RefDid.Retain ∷ []) ∷ []) ≡ None }
    ensures unanswered { replies_of_run (Retain 0 ∷ []) [] ≡ None }
    ensures unasked { replies_of_run [] ([] ∷ []) ≡ None }
{}

/// The forty caches are closed in ascending class, and each sheds its quota to the arena.
pub fn closings()
    ensures empty { closes_with (closes 0 0 40) ≡ Some tt }
    ensures shed { closes_with (cache 0 0 2 (Did.Close 1) ∷ cache 0 0 3 (Did.Shed (least_region 1))
        ∷ arena 0 2 (Did.Give (least_region 1)) ∷ closes 0 1 39) ≡ Some tt }
    ensures one_too_few { closes_with (closes 0 0 39) ≡ None }
    ensures one_too_many { closes_with (closes 0 0 41) ≡ None }
    ensures of_another_lane { closes_with (closes 1 0 40) ≡ None }
    ensures out_of_order { closes_with (closes 0 1 39 ++ closes 0 0 1) ≡ None }
    ensures quota_left { closes_with (cache 0 0 2 (Did.Close 1) ∷ closes 0 1 39) ≡ None }
    ensures not_given { closes_with
        (cache 0 0 2 (Did.Close 1) ∷ cache 0 0 3 (Did.Shed (least_region 1)) ∷ closes 0 1 39)
        ≡ None }
{}
