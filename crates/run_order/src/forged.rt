//! Logs that no pool makes, whose notes stand in no one order.

ghost use Rattle.std.specs.Prelude.{All};
ghost use Rattle.run_order.specs.Order.{InOneOrder};
ghost use Rattle.run_order.specs.ForgedSteps.{forged_steps};
ghost use Rattle.run_order.specs.Forged.{freed_in_the_mail, freed_in_a_circle, read_before_write, retained_late};

/// A lane ends a root whose parcel lies in its mail, and puts another on its bytes.
pub fn freed_in_the_mail_is_refused()
    ensures refused { InOneOrder freed_in_the_mail → ⊥ }
{}

/// A root that ends only behind a release that comes only behind the birth of another on its bytes.
pub fn freed_in_a_circle_is_refused()
    ensures refused { InOneOrder freed_in_a_circle → ⊥ }
{}

/// A read behind the parcel that was sent behind a write, numbered before the write.
pub fn read_before_write_is_refused()
    ensures refused { InOneOrder read_before_write → ⊥ }
{}

/// A retain of a root behind its end.
pub fn retained_late_is_refused()
    ensures refused { InOneOrder retained_late → ⊥ }
{}

/// Logs of which one step fits nowhere: a root born, ended or vacated twice, a release that ends at
/// two counts or keeps at one, a look that tells another count, a note or a mark with another number,
/// and a parcel fetched before it was posted.
pub fn forged_steps_are_refused()
    ensures refused { All (λ logs. InOneOrder logs → ⊥) forged_steps }
{}
