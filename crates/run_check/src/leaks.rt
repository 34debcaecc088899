//! Whether a report is that of the live roots that are sampled.

ghost use Rattle.std.specs.Prelude.{◌≡◌, ◌+◌, ◌∷◌, ◌<◌, ◌≤◌, ◌^◌, ◌↔◌, [], false, length, IsTrue, IfOk, MatchOption, MatchResult};
ghost use Rattle.pool_law.specs.Leaks.{births, is_sampled, accesses};
ghost use Rattle.run_check.specs.Storing.{history_in};
ghost use Rattle.run_check.specs.Reporting.{capacity_by, leak_by, one_leak, leaks_in, all_leaks, GoesOn, Strays};
ghost use Rattle.run_check.specs.Placing.{DifferAt};

use crate::histories::{Histories, dids_of};
use crate::records::{accesses_to, is_leak};
use crate::tally::{Tally, Totals, total_of};
use crate::totals::born;
use object_steps::capacity_after;
use pool_law::{LaneLog, Leak, Level, Note, Object, RootId, Shape};
use std::alloc::{AllocError, Global};

// Whether the birth with this serial is sampled.
fn is_sampled(shape: &Shape, serial: u64) -> bool
    requires { 1 ≤ shape.now.interval }
    ensures { result ≡ is_sampled shape.now.level shape.now.interval serial }
{
    match shape.level {
        Level::Disabled => false,
        Level::Simple | Level::Advanced => {
            serial.saturating_sub(1) % u64::from(shape.interval) == 0
        }
        Level::Paranoid => true,
    }
}

/// What a report is checked by.
#[derive(Clone, Copy, Drop)]
pub struct Report<'a, 's> {
    pub shape: &'s Shape,
    pub histories: &'s Histories<'a>,
    pub tallies: &'s [Tally],
    pub leaks: &'s [Leak],
}

// Whether this is the report of a root with these sums.
fn is_leak_of(
    alloc: Global,
    report: &Report,
    lane: usize,
    serial: u64,
    root: &RootId,
    sums: &Totals,
    leak: &Leak,
) -> Result<bool, AllocError>
    ensures { IfOk result (λ good. IsTrue good ↔ (leak.now ≡ leak_by report.now.shape.now.level lane
        serial (capacity_by report.now.histories.now root.now) sums.now (accesses root.now false
        (history_in report.now.histories.now (Object.Root root.now.place))))) }
{
    let history = report.histories.of(&Object::Root(root.place));
    let dones = accesses_to(alloc, root, history)?;
    let capacity = capacity_after(alloc, root, &dids_of(alloc, history)?)?;
    let level = report.shape.level;
    Ok(is_leak(leak, level, lane, serial, capacity, sums, &dones))
}

// The place in a report behind what it has of a root, or none where it has something else.
fn next_leak(
    alloc: Global,
    report: &Report,
    lane: usize,
    serial: u64,
    root: &RootId,
    at: usize,
) -> Result<Option<usize>, AllocError>
    requires interval { 1 ≤ report.now.shape.now.interval }
    requires inside { at ≤ length report.now.leaks.now }
    ensures { IfOk result (λ next. MatchOption next
        (Strays report.now.leaks.now at (one_leak report.now.shape.now report.now.histories.now
        report.now.tallies.now lane serial root.now) at)
        (GoesOn report.now.leaks.now at (one_leak report.now.shape.now report.now.histories.now
        report.now.tallies.now lane serial root.now))) }
{
    let sums = total_of(report.tallies, root);
    if sums.is_over() || !is_sampled(report.shape, serial) {
        return Ok(Some(at));
    }
    if at >= report.leaks.len() {
        return Ok(None);
    }
    if !is_leak_of(alloc, report, lane, serial, root, &sums, &report.leaks[at])? {
        return Ok(None);
    }
    Ok(Some(at + 1))
}

// The place in a report behind what it has of the root that a note lets be born, and how many were born
// then, of so many before; or none where it has something else.
fn after_note(
    alloc: Global,
    report: &Report,
    lane: usize,
    before: u64,
    note: &Note,
    at: usize,
) -> Result<Option<(usize, u64)>, AllocError>
    requires before { before + 1 < 2 ^ 64 }
    requires interval { 1 ≤ report.now.shape.now.interval }
    requires inside { at ≤ length report.now.leaks.now }
    ensures { IfOk result (λ next. MatchOption next
        (Strays report.now.leaks.now at (leaks_in report.now.shape.now report.now.histories.now
        report.now.tallies.now lane (before + 1) (note.now ∷ [])) at)
        (λ n. GoesOn report.now.leaks.now at (leaks_in report.now.shape.now report.now.histories.now
        report.now.tallies.now lane (before + 1) (note.now ∷ [])) n.0
        × (n.1 ≡ before + length (births (note.now ∷ []))))) }
{
    let Some(root) = born(note) else {
        return Ok(Some((at, before)));
    };
    let serial = before + 1;
    let found = next_leak(alloc, report, lane, serial, &root, at)?;
    let Some(next) = found else {
        return Ok(None);
    };
    Ok(Some((next, serial)))
}

// The place in a report behind what it has of the roots born in a lane; or the first where it has something
// else, which is an error.
fn lane_leaks(
    alloc: Global,
    report: &Report,
    lane: usize,
    notes: &[Note],
    from: usize,
) -> Result<Result<usize, usize>, AllocError>
    requires interval { 1 ≤ report.now.shape.now.interval }
    requires inside { from ≤ length report.now.leaks.now }
    ensures { IfOk result (λ found. MatchResult found
        (GoesOn report.now.leaks.now from (leaks_in report.now.shape.now report.now.histories.now
        report.now.tallies.now lane 1 notes.now))
        (Strays report.now.leaks.now from (leaks_in report.now.shape.now report.now.histories.now
        report.now.tallies.now lane 1 notes.now))) }
{
    let mut at = from;
    let mut before = 0;
    for note in notes {
        let found = after_note(alloc, report, lane, before, note, at)?;
        let Some(next) = found else {
            return Ok(Err(at));
        };
        at = next.0;
        before = next.1;
    }
    Ok(Ok(at))
}

/// The first place where a report isn't that of the live roots that are sampled, by lane and serial, if there is
/// one.
pub fn first_misreported(
    alloc: Global,
    report: &Report,
    logs: &[LaneLog],
) -> Result<Option<usize>, AllocError>
    requires { 1 ≤ report.now.shape.now.interval }
    ensures { IfOk result (λ found. MatchOption found
        (report.now.leaks.now ≡ all_leaks report.now.shape.now report.now.histories.now
        report.now.tallies.now 0 logs.now)
        (DifferAt report.now.leaks.now (all_leaks report.now.shape.now report.now.histories.now
        report.now.tallies.now 0 logs.now))) }
{
    let mut at = 0;
    for lane in 0..logs.len() {
        let notes = logs[lane].notes.items();
        match lane_leaks(alloc, report, lane, notes, at)? {
            Ok(next) => at = next,
            Err(other) => return Ok(Some(other)),
        }
    }
    if at < report.leaks.len() {
        return Ok(Some(at));
    }
    Ok(None)
}
