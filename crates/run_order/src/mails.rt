//! Logs with parcels between two lanes, whose notes stand in no one order, and one whose notes do.

ghost use Rattle.std.specs.Prelude.{All, [], ◌∷◌};
ghost use Rattle.run_order.specs.Order.{InOneOrder};
ghost use Rattle.run_order.specs.Turns.{turn, InTurns};
ghost use Rattle.run_order.specs.MailLogs.{forged_mails, fetched_in_turn};

/// Parcels that are fetched out of their turn, fetched twice, or numbered otherwise than 1, 2, .. among
/// the posts and among the fetches of their mail.
pub fn forged_mails_are_refused()
    ensures refused { All (λ logs. InOneOrder logs → ⊥) forged_mails }
{}

/// Posts and fetches are numbered apart: the first fetch may come behind the second post.
pub fn fetched_in_turn_stands()
    ensures stands { InTurns (turn 0 2 ∷ turn 1 2 ∷ turn 0 1 ∷ turn 1 1 ∷ []) fetched_in_turn }
{}
