//! How far what is fetched from a mail is what is posted to it.

ghost use Rattle.std.specs.Prelude.{◌≡◌, ◌++◌, ◌↔◌, ◌&&◌, ◌==◌, ℕ, IsTrue, IfOk, OnOk, MatchOption};
ghost use Rattle.pool_law.specs.declared.run.Shape.{Shape};
ghost use Rattle.pool_law.specs.Same.{same_parcel};
ghost use Rattle.pool_law.specs.Kinds.{passing};
ghost use Rattle.pool_law.specs.Logs.{Logs};
ghost use Rattle.pool_law.specs.Mails.{gone, come};
ghost use Rattle.run_check.specs.Gathering.{notes_data};
ghost use Rattle.run_check.specs.ByObject.{laned, AreByObject};
ghost use Rattle.run_check.specs.Mailing.{sent_among, received_among, all_passed, IsInTurn, IsOfPost, Passes, FailsAt, IsHeldMail};
ghost use Rattle.run_check.specs.Fronts.{IsBrokenAt};

use crate::gathering::HistoryNote;
use crate::object_notes::ObjectNotes;
use pool_law::{Did, Object, Parcel};
use std::alloc::{AllocError, Global};

/// A parcel that was posted or fetched, with the number of its note.
#[derive(Clone, Copy, Drop)]
struct Passed {
    number: u64,
    parcel: Parcel,
}

// One more note at a mail: its parcel, if it is posted.
fn push_sent(all: &mut Vec<Passed>, note: &HistoryNote) -> Result<(), AllocError>
    ensures { OnOk result (all_passed all.new.items
        ≡ all_passed all.old.items ++ gone note.now.number (passing note.now.did.now)) }
{
    match note.did {
        Did::Post(parcel) => {
            all.push(Passed {
                number: note.number,
                parcel: *parcel,
            })?;
            Ok(())
        }
        _ => Ok(()),
    }
}

// One more note at a mail: its parcel, if it is fetched.
fn push_received(all: &mut Vec<Passed>, note: &HistoryNote) -> Result<(), AllocError>
    ensures { OnOk result (all_passed all.new.items
        ≡ all_passed all.old.items ++ come note.now.number (passing note.now.did.now)) }
{
    match note.did {
        Did::Fetch(parcel) => {
            all.push(Passed {
                number: note.number,
                parcel: *parcel,
            })?;
            Ok(())
        }
        _ => Ok(()),
    }
}

// What these notes at a mail post.
fn sent_in(alloc: Global, notes: &[HistoryNote]) -> Result<Vec<Passed>, AllocError>
    ensures { IfOk result (λ all. all_passed all.items ≡ sent_among (notes_data notes.now)) }
{
    let mut all = Vec::new(alloc);
    for note in notes {
        push_sent(&mut all, note)?;
    }
    Ok(all)
}

// What these notes at a mail fetch.
fn received_in(alloc: Global, notes: &[HistoryNote]) -> Result<Vec<Passed>, AllocError>
    ensures { IfOk result (λ all. all_passed all.items ≡ received_among (notes_data notes.now)) }
{
    let mut all = Vec::new(alloc);
    for note in notes {
        push_received(&mut all, note)?;
    }
    Ok(all)
}

// What a lane posts to a mail.
fn sent_by(
    alloc: Global,
    lanes: &[ObjectNotes],
    lane: u32,
    mail: &Object,
) -> Result<Vec<Passed>, AllocError>
    ensures { IfOk result (λ all. all_passed all.items
        ≡ sent_among (laned lanes.now mail.now lane)) }
{
    let at = lane as usize;
    if lanes.len() <= at {
        return Ok(Vec::new(alloc));
    }
    let all = sent_in(alloc, lanes[at].at(mail))?;
    Ok(all)
}

// What a lane fetches from a mail.
fn received_by(
    alloc: Global,
    lanes: &[ObjectNotes],
    lane: u32,
    mail: &Object,
) -> Result<Vec<Passed>, AllocError>
    ensures { IfOk result (λ all. all_passed all.items
        ≡ received_among (laned lanes.now mail.now lane)) }
{
    let at = lane as usize;
    if lanes.len() <= at {
        return Ok(Vec::new(alloc));
    }
    let all = received_in(alloc, lanes[at].at(mail))?;
    Ok(all)
}

// Whether a parcel has this number.
fn has_number(passed: &Passed, number: u64) -> bool
    ensures { result ≡ (passed.now.number == number) }
{
    passed.number == number
}

// Whether the post of this place, if there is one, has the number of its place, from 1.
fn is_in_turn(posts: &[Passed], at: usize) -> bool
    ensures { IsTrue result ↔ IsInTurn posts.now at }
{
    if posts.len() <= at {
        return true;
    }
    has_number(&posts[at], at as u64 + 1)
}

// Whether two parcels, and their numbers, are the same.
fn is_same(a: &Passed, b: &Passed) -> bool
    ensures { result ≡ ((a.now.number == b.now.number) && same_parcel a.now.parcel b.now.parcel) }
{
    a.number == b.number && a.parcel == b.parcel
}

// Whether the fetch of this place, if there is one, is the post there.
fn is_of_post(posts: &[Passed], fetches: &[Passed], at: usize) -> bool
    ensures { IsTrue result ↔ IsOfPost posts.now fetches.now at }
{
    if fetches.len() <= at {
        return true;
    }
    if posts.len() <= at {
        return false;
    }
    is_same(&fetches[at], &posts[at])
}

// Whether the post and the fetch of this place hold.
fn passes(posts: &[Passed], fetches: &[Passed], at: usize) -> bool
    ensures { IsTrue result ↔ Passes posts.now fetches.now at }
{
    is_in_turn(posts, at) && is_of_post(posts, fetches, at)
}

// The first place, from 1, at which a post or a fetch does not hold.
fn first_unheld(posts: &[Passed], fetches: &[Passed]) -> Option<u64>
    ensures { MatchOption result ((k : ℕ) → Passes posts.now fetches.now k)
        (λ number. FailsAt posts.now fetches.now number) }
{
    for at in 0..posts.len().max(fetches.len()) {
        if !passes(posts, fetches, at) {
            return Some(at as u64 + 1);
        }
    }
    None
}

/// The first place, from 1, at which a mail does not hold: its posts are numbered from 1, and each fetch
/// is the post of its place. None where it holds, or where the object is no mail.
pub(crate) fn mail_broken_at(
    alloc: Global,
    lanes: &[ObjectNotes],
    object: &Object,
) -> Result<Option<u64>, AllocError>
    ensures { (shape : Shape) → (logs : Logs) → AreByObject lanes.now logs
        → IfOk result (λ found. MatchOption found (IsHeldMail logs object.now)
        (IsBrokenAt shape logs object.now)) }
{
    match object {
        Object::Mail { from, to } => {
            let posts = sent_by(alloc, lanes, *from, object)?;
            let fetches = received_by(alloc, lanes, *to, object)?;
            Ok(first_unheld(&posts, &fetches))
        }
        _ => Ok(None),
    }
}
