//! Stuck traces: which lane waits for a parcel that never comes, and at which line.

ghost use Rattle.std.specs.Prelude.{◌≡◌, [], ◌∷◌, Some, None};
ghost use Rattle.pool_law.specs.declared.command.Command.TheVariants.{Alloc, Release, Send, Recv, Touch};
ghost use Rattle.pool_law.specs.Stuck.{stuck_at};

/// Lanes that wait for each other, or for a parcel that nobody sends.
pub fn stuck_traces()
    ensures both { stuck_at ((Recv 0 1 ∷ []) ∷ (Recv 0 0 ∷ []) ∷ []) ≡ Some (0, 0) }
    ensures round { stuck_at
        ((Recv 0 2 ∷ Send 1 1 ∷ []) ∷ (Recv 0 0 ∷ Send 1 2 ∷ []) ∷ (Recv 0 1 ∷ Send 1 0 ∷ []) ∷ [])
        ≡ Some (0, 0) }
    ensures one_parcel_too_few { stuck_at
        ((Alloc 0 4 ∷ Send 0 1 ∷ []) ∷ (Recv 0 0 ∷ Recv 1 0 ∷ []) ∷ [])
        ≡ Some (1, 1) }
    ensures sent_elsewhere { stuck_at ((Send 0 2 ∷ []) ∷ (Touch 0 ∷ Recv 1 0 ∷ []) ∷ [] ∷ [])
        ≡ Some (1, 1) }
    ensures before_its_own_send { stuck_at ((Recv 0 0 ∷ Send 0 0 ∷ []) ∷ []) ≡ Some (0, 0) }
    // lane 0 waits too, for what lane 1 sends behind the receive at which it waits
    ensures least_lane { stuck_at
        ((Touch 0 ∷ Recv 1 1 ∷ []) ∷ (Recv 0 2 ∷ Send 1 0 ∷ []) ∷ [] ∷ []) ≡ Some (0, 1) }
{}

/// Lanes of which each passes its last command.
pub fn traces_that_end()
    ensures no_command { stuck_at ([] ∷ []) ≡ None }
    ensures no_parcel { stuck_at ((Alloc 0 4 ∷ Release 0 ∷ []) ∷ []) ≡ None }
    ensures hand_over { stuck_at ((Alloc 0 4 ∷ Send 0 1 ∷ []) ∷ (Recv 0 0 ∷ []) ∷ []) ≡ None }
    ensures there_and_back { stuck_at
        ((Send 0 1 ∷ Recv 1 1 ∷ []) ∷ (Recv 0 0 ∷ Send 0 0 ∷ []) ∷ []) ≡ None }
    ensures to_itself { stuck_at ((Send 0 0 ∷ Recv 1 0 ∷ []) ∷ []) ≡ None }
    ensures unfetched { stuck_at ((Send 0 1 ∷ Send 0 1 ∷ []) ∷ (Recv 0 0 ∷ []) ∷ []) ≡ None }
    // a send that will be refused counts too
    ensures refused { stuck_at ((Send 0 1 ∷ []) ∷ (Recv 0 0 ∷ []) ∷ []) ≡ None }
{}
