//! The totals of the roots that were born, and that each root that is named was born.

ghost use Rattle.std.specs.Prelude.{◌≡◌, ◌∷◌, [], ◌<◌, ◌↔◌, true, option_to_list, IsTrue, MatchOption};
ghost use Rattle.std.specs.List.{AllZip, list_any};
ghost use Rattle.pool_law.specs.declared.id.RootId.{RootId};
ghost use Rattle.pool_law.specs.Logs.{entries_of};
ghost use Rattle.pool_law.specs.Leaks.{births};
ghost use Rattle.pool_law.specs.Counts.{TotalHolds, count_over, is_birth, names_root, root_is};
ghost use Rattle.run_check.specs.Placing.{BreaksAt};
ghost use Rattle.run_check.specs.ByObject.{notes_in};
ghost use Rattle.run_check.specs.Tallying.{total_sums, IsTally, AreTotals, BirthsHold, NamesHold};

use crate::tally::{Tally, total_of};
use pool_law::{Did, LaneLog, Note, RootId};

/// The root that a note lets be born.
pub fn born(note: &Note) -> Option<RootId>
    ensures one { option_to_list result ≡ births (note.now ∷ []) }
    ensures root { (root : RootId) → is_birth root note.now ≡ root_is root result }
{
    match note {
        Note::At {
            object: _,
            number: _,
            did,
        } => match did {
            Did::Birth { root, region: _ } => Some(*root),
            _ => None,
        },
        _ => None,
    }
}

// The root that a note lets be born, if its totals are not right.
fn mistotaled(tallies: &[Tally], note: &Note) -> Option<RootId>
    ensures { MatchOption result
        ((root : RootId) → is_birth root note.now ≡ true → AreTotals (total_sums tallies.now root))
        (λ root. IsTrue (is_birth root note.now) × (AreTotals (total_sums tallies.now root) → ⊥)) }
{
    let root = born(note)?;
    if total_of(tallies, &root).are_totals() {
        None
    } else {
        Some(root)
    }
}

// The first root that these notes let be born whose totals are not right, if there is one.
fn mistotaled_in(tallies: &[Tally], notes: &[Note]) -> Option<RootId>
    ensures { MatchOption result (BirthsHold tallies.now notes.now)
        (λ root. IsTrue (list_any (is_birth root) notes.now)
        × (AreTotals (total_sums tallies.now root) → ⊥)) }
{
    for note in notes {
        if let Some(root) = mistotaled(tallies, note) {
            return Some(root);
        }
    }
    None
}

/// The first root that was born whose totals are not right, if there is one.
pub fn first_mistotaled(tallies: &[Tally], logs: &[LaneLog]) -> Option<RootId>
    requires { AllZip IsTally tallies.now logs.now }
    ensures { MatchOption result
        ((root : RootId) → 0 < count_over (is_birth root) (entries_of (notes_in logs.now))
        → TotalHolds root (entries_of (notes_in logs.now)))
        (λ root. (0 < count_over (is_birth root) (entries_of (notes_in logs.now)))
        × (TotalHolds root (entries_of (notes_in logs.now)) → ⊥)) }
{
    for log in logs {
        if let Some(root) = mistotaled_in(tallies, log.notes.items()) {
            return Some(root);
        }
    }
    None
}

// The root that a note names, if it names one.
fn named(note: &Note) -> Option<RootId>
    ensures { (root : RootId) → names_root root note.now ≡ root_is root result }
{
    match note {
        Note::Ref { root, did: _ } => Some(*root),
        Note::At {
            object: _,
            number: _,
            did,
        } => match did {
            Did::Post(parcel) => parcel.view.map(|view| view.root),
            Did::Fetch(parcel) => parcel.view.map(|view| view.root),
            _ => None,
        },
        Note::Busy(_) => None,
    }
}

// Whether the root that a note names was born.
fn name_holds(tallies: &[Tally], note: &Note) -> bool
    ensures { IsTrue result ↔ ((root : RootId) → names_root root note.now ≡ true
        → 0 < (total_sums tallies.now root).births) }
{
    match named(note) {
        Some(root) => total_of(tallies, &root).births > 0,
        None => true,
    }
}

/// The place of the first note that names a root which was never born, if there is one.
pub fn unborn_at(tallies: &[Tally], notes: &[Note]) -> Option<usize>
    ensures { MatchOption result (NamesHold tallies.now notes.now)
        (BreaksAt (NamesHold tallies.now) notes.now) }
{
    for (at, note) in notes.iter().enumerate() {
        if !name_holds(tallies, note) {
            return Some(at);
        }
    }
    None
}
