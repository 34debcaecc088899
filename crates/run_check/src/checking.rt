//! Whether a run is legal.

ghost use Rattle.std.specs.Prelude.{◌≡◌, ◌≤◌, ◌^◌, ◌↔◌, ℕ, length, IsTrue, IfOk, MatchOption};
ghost use Rattle.pool_law.specs.Limits.{IsShape, geometry_of};
ghost use Rattle.pool_law.specs.Logs.{of_lane};
ghost use Rattle.pool_law.specs.Legal.{AreCommands, IsLegal, logs_of};
ghost use Rattle.run_check.specs.Storing.{AreHistories};
ghost use Rattle.run_check.specs.Entering.{AreTold};
ghost use Rattle.run_check.specs.Breaches.{Breaks, HasLanes};
ghost use Rattle.run_check.specs.Checking.{CountsRight, NotesRight, AnswersRight};

use crate::breach::Breach;
use crate::ending::{ends_of, first_unlike};
use crate::entries::told_of_lanes;
use crate::fitting::all_are_commands;
use crate::histories::Histories;
use crate::lanes::{
    first_astray, first_misanswered, first_miscounted, first_mislooked, first_mismarked,
    first_unborn,
};
use crate::leaks::{Report, first_misreported};
use crate::tally::tallies_of;
use crate::totals::first_mistotaled;
use object_steps::{PlaceTold, Sizes};
use pool_law::{Run, is_shape};
use std::alloc::{AllocError, Global};

// Whether a run has commands and a log for each lane.
fn has_lanes(run: &Run) -> bool
    ensures { IsTrue result ↔ ((length run.now.trace.lanes ≡ run.now.shape.lanes)
        × (length run.now.logs ≡ run.now.shape.lanes)) }
{
    let lanes = run.shape.lanes as usize;
    run.trace.lanes.items().len() == lanes && run.logs.items().len() == lanes
}

// What of the sentences on counts isn't kept, or that the live roots are not reported.
fn breach_of_counts(
    alloc: Global,
    run: &Run,
    histories: &Histories,
    told: &[Vec<PlaceTold>],
) -> Result<Option<Breach>, AllocError>
    requires shape { IsShape run.now.shape }
    requires logs { length run.now.logs ≡ run.now.shape.lanes }
    requires histories { AreHistories run.now.shape (logs_of run.now) histories.now }
    requires told { AreTold (logs_of run.now) told.now run.now.logs }
    ensures { IfOk result (λ found. MatchOption found (CountsRight run.now) (Breaks run.now)) }
{
    let logs = run.logs.items();
    let tallies = tallies_of(alloc, logs)?;
    if let Some(spot) = first_miscounted(alloc, logs, told)? {
        return Ok(Some(Breach::Uses(spot)));
    }
    if let Some(root) = first_mistotaled(&tallies, logs) {
        return Ok(Some(Breach::Totals(root)));
    }
    if let Some(spot) = first_unborn(&tallies, logs) {
        return Ok(Some(Breach::Unborn(spot)));
    }
    if let Some(spot) = first_mislooked(alloc, &tallies, logs, told)? {
        return Ok(Some(Breach::Looks(spot)));
    }
    let report = Report {
        shape: &run.shape,
        histories,
        tallies: &tallies,
        leaks: run.leaks.items(),
    };
    if let Some(at) = first_misreported(alloc, &report, logs)? {
        return Ok(Some(Breach::Leaks(at)));
    }
    Ok(None)
}

// What of the notes that each lane may make, of the marks and of the chunks isn't right.
fn breach_of_notes(
    alloc: Global,
    run: &Run,
    sizes: &Sizes,
    histories: &Histories,
) -> Result<Option<Breach>, AllocError>
    requires shape { IsShape run.now.shape }
    requires logs { length run.now.logs ≡ run.now.shape.lanes }
    requires sizes { sizes.now ≡ geometry_of run.now.shape }
    requires histories { AreHistories run.now.shape (logs_of run.now) histories.now }
    ensures { IfOk result (λ found. MatchOption found (NotesRight run.now) (Breaks run.now)) }
{
    let logs = run.logs.items();
    if let Some(spot) = first_astray(&run.shape, logs) {
        return Ok(Some(Breach::Notes(spot)));
    }
    if let Some(spot) = first_mismarked(alloc, histories, logs)? {
        return Ok(Some(Breach::Marks(spot)));
    }
    let ends = ends_of(alloc, &run.shape, sizes, histories)?;
    if let Some(at) = first_unlike(run.chunks.items(), &ends) {
        return Ok(Some(Breach::Chunks(at)));
    }
    Ok(None)
}

// The first command of a lane whose reply and notes are not its own.
fn breach_of_answers(
    alloc: Global,
    run: &Run,
    sizes: &Sizes,
    told: &[Vec<PlaceTold>],
) -> Result<Option<Breach>, AllocError>
    requires shape { IsShape run.now.shape }
    requires lanes { length run.now.trace.lanes ≡ run.now.shape.lanes }
    requires logs { length run.now.logs ≡ run.now.shape.lanes }
    requires sizes { sizes.now ≡ geometry_of run.now.shape }
    requires commands { (lane : ℕ) → AreCommands run.now.shape (of_lane run.now.trace.lanes lane) }
    requires told { AreTold (logs_of run.now) told.now run.now.logs }
    ensures { IfOk result (λ found. MatchOption found (AnswersRight run.now) (Breaks run.now)) }
{
    let lanes = run.trace.lanes.items();
    let logs = run.logs.items();
    if let Some(found) = first_misanswered(alloc, &run.shape, sizes, lanes, logs, told)? {
        return Ok(Some(Breach::Answers {
            lane: found.0,
            command: found.1,
        }));
    }
    Ok(None)
}

/// What of the law of the pool a run doesn't keep, the first that is found, and the first place where it doesn't:
/// None exactly where the pool can make the run. Its measures and commands are looked at first, then the histories of objects
/// in the order in which the logs name them, what each lane may note and its marks, the chunks,
/// the replies and notes of each lane, the counts of roots, and the leaks.
pub fn find_breach(alloc: Global, run: &Run) -> Result<Option<Breach>, AllocError>
    ensures { IfOk result (λ found. MatchOption found (IsLegal run.now) (Breaks run.now)) }
{
    if !is_shape(&run.shape) {
        return Ok(Some(Breach::Measures));
    }
    if !has_lanes(run) {
        return Ok(Some(Breach::Lanes));
    }
    if !all_are_commands(alloc, &run.shape, run.trace.lanes.items())? {
        return Ok(Some(Breach::Commands));
    }
    let sizes = Sizes::new(alloc, run.shape.order, run.shape.page)?;
    let logs = run.logs.items();
    let histories = match Histories::in_logs(alloc, &run.shape, &sizes, logs)? {
        Ok(histories) => histories,
        Err(broken) => {
            return Ok(Some(Breach::History {
                object: broken.object,
                number: broken.number,
            }));
        }
    };
    breach_of_logs(alloc, run, &sizes, &histories)
}

// The same of a run whose histories hold.
fn breach_of_logs(
    alloc: Global,
    run: &Run,
    sizes: &Sizes,
    histories: &Histories,
) -> Result<Option<Breach>, AllocError>
    requires shape { IsShape run.now.shape }
    requires lanes { HasLanes run.now }
    requires sizes { sizes.now ≡ geometry_of run.now.shape }
    requires commands { (lane : ℕ) → AreCommands run.now.shape (of_lane run.now.trace.lanes lane) }
    requires histories { AreHistories run.now.shape (logs_of run.now) histories.now }
    ensures { IfOk result (λ found. MatchOption found (IsLegal run.now) (Breaks run.now)) }
{
    if let Some(breach) = breach_of_notes(alloc, run, sizes, histories)? {
        return Ok(Some(breach));
    }
    let told = told_of_lanes(alloc, histories, run.logs.items())?;
    if let Some(breach) = breach_of_answers(alloc, run, sizes, &told)? {
        return Ok(Some(breach));
    }
    breach_of_counts(alloc, run, histories, &told)
}

/// Whether the pool can make a run: its measures and commands are within bounds, and its logs,
/// replies and reports are those that the law of the pool gives.
pub fn check_run(alloc: Global, run: &Run) -> Result<bool, AllocError>
    ensures { IfOk result (λ good. IsTrue good ↔ IsLegal run.now) }
{
    let found = find_breach(alloc, run)?;
    Ok(found.is_none())
}
