#![tactic(auto)]
//! What one lane writes to a root before it sends it is what another reads of it. The law is the
//! contract of a function that does nothing. It speaks of the logs of any run, whatever else is in
//! them.

ghost use Rattle.std.specs.Prelude.{◌≡◌, ℕ};
ghost use Rattle.pool_law.specs.declared.run.Shape.{Shape};
ghost use Rattle.pool_law.specs.Legal.{HistoriesHold};
ghost use Rattle.pool_law.specs.Logs.{Logs};
ghost use Rattle.run_order.specs.Order.{InOneOrder};
ghost use Rattle.handed_bytes.specs.Handed.{FetchesWhatIsPosted, ReadsWhatIsWritten, TakesWhatIsSent, WritesEachOnce};

/// In logs whose histories hold and whose steps stand in one order: the k-th parcel that a lane
/// fetches from another is the k-th that this one posted to it; and where a lane writes to a root
/// but once, and then posts a parcel, what the other reads of the root behind its fetch of that
/// parcel is what was written.
pub fn what_was_sent_is_read()
    ensures fetched { (shape : Shape) (logs : Logs) → HistoriesHold shape logs →
        FetchesWhatIsPosted logs }
    ensures read { (shape : Shape) (logs : Logs) → HistoriesHold shape logs → InOneOrder logs →
        ReadsWhatIsWritten logs }
{}

/// In logs whose histories hold and whose steps stand in one order: what a lane takes as the k-th
/// piece from another is the k-th piece that this one sent.
pub fn what_is_taken_was_sent()
    ensures taken { (shape : Shape) (logs : Logs) → HistoriesHold shape logs → InOneOrder logs →
        TakesWhatIsSent logs }
{}

/// In logs whose steps stand in one order: where one lane alone writes, and writes to each root
/// behind its birth and before another is born, each root is written once.
pub fn each_root_is_written_once()
    ensures once { (logs : Logs) → InOneOrder logs → WritesEachOnce logs }
{}
