//! Lanes that their gate stops: whole runs of a hand-over, and what a stopped lane notes.

ghost use Rattle.std.specs.Prelude.{◌≡◌, [], ◌∷◌, Some, None, false};
ghost use Rattle.pool_law.specs.declared.command.Command.TheVariants.{Alloc, Send, Recv, Release};
ghost use Rattle.pool_law.specs.declared.run.Reply.{Reply};
ghost use Rattle.pool_law.specs.LaneLaw.{before_stop, stopped_run};
ghost use Rattle.pool_law.specs.Legal.{IsLegal};
ghost use Rattle.pool_law.specs.Text.{text_of};
ghost use Rattle.definition_rows.specs.Notes.{lines, mail, post, post_nothing, fetch_nothing};
ghost use Rattle.definition_rows.specs.Entries.{alone};
ghost use Rattle.definition_rows.specs.LaneRuns.{whole_four};
ghost use Rattle.definition_rows.specs.StopRuns.{stopped_receiver, stopped_sender};

/// The lane that receives is stopped at its first command. Nobody fetches the parcel.
pub fn stopped_receiver_run()
    ensures legal { IsLegal stopped_receiver }
    ensures text { text_of stopped_receiver false ≡ lines
        ("0.0 alloc ok 16 0.0+0"
        ∷ "0.1 set ok"
        ∷ "0.2 send ok"
        ∷ "1.0 recv stopped"
        ∷ "1.1 get stopped"
        ∷ "1.2 release stopped"
        ∷ "chunk 0.0 qInit used 8192 free 4186112"
        ∷ "leak 0.1 capacity 4 count 1 records 0 dropped 0"
        ∷ "end roots 1 live 1 leaks 1"
        ∷ []) }
{}

/// The lane that sends is stopped at its send, which posts an empty parcel.
pub fn stopped_sender_run()
    ensures legal { IsLegal stopped_sender }
    ensures text { text_of stopped_sender false ≡ lines
        ("0.0 alloc ok 16 0.0+0"
        ∷ "0.1 set ok"
        ∷ "0.2 send stopped"
        ∷ "1.0 recv nothing"
        ∷ "1.1 get unbound"
        ∷ "1.2 release unbound"
        ∷ "chunk 0.0 qInit used 8192 free 4186112"
        ∷ "leak 0.1 capacity 4 count 1 records 0 dropped 0"
        ∷ "end roots 1 live 1 leaks 1"
        ∷ []) }
{}

/// A stopped lane answers every command that it is stopped. It notes nothing but its sends.
pub fn stopped_lanes()
    ensures never { before_stop (Reply.Ok ∷ Reply.Freed ∷ []) ≡ 2 }
    ensures at_once { before_stop (Reply.Stopped ∷ Reply.Stopped ∷ []) ≡ 0 }
    ensures after_one { before_stop (Reply.Ok ∷ Reply.Stopped ∷ []) ≡ 1 }
    ensures send { stopped_run 0 (Alloc 0 8 ∷ Send 0 1 ∷ Release 0 ∷ [])
        ([] ∷ (alone (mail 0 1 1 post_nothing) ∷ []) ∷ [] ∷ [])
        ≡ Some (Reply.Stopped ∷ Reply.Stopped ∷ Reply.Stopped ∷ []) }
    ensures not_silent { stopped_run 0 (Send 0 1 ∷ []) ([] ∷ []) ≡ None }
    ensures no_view { stopped_run 0 (Send 0 1 ∷ [])
        ((alone (mail 0 1 1 (post whole_four)) ∷ []) ∷ []) ≡ None }
    ensures no_fetch { stopped_run 0 (Recv 0 1 ∷ [])
        ((alone (mail 1 0 1 fetch_nothing) ∷ []) ∷ []) ≡ None }
{}
