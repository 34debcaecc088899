//! The roots that were born in a run, and which of them are live at its end.

ghost use Rattle.std.specs.Prelude.{◌≡◌, ◌++◌, ℕ, IfOk, OnOk, length, map, count_by, nat_le};
ghost use Rattle.pool_law.specs.declared.id.RootId.{RootId};
ghost use Rattle.pool_law.specs.Text.{born_roots, live_in};
ghost use Rattle.run_report.specs.Roots.{counted, key_of, roots_in, roots_over, root_of, times};

use pool_law::{Did, LaneLog, Note, RefDid, RootId};
use std::alloc::{AllocError, Global};
use std::collections::HashMap;

/// What a note may do to the life of a root.
#[derive(Clone, Copy, Drop)]
pub enum Step {
    Birth,
    Retain,
    Release,
}

/// Place, generation and capacity of a root.
type RootKey = (u32, u32, u32);

/// How many roots were born, and how many of them are live.
#[derive(Clone, Copy, Drop)]
pub struct RootCounts {
    pub born: usize,
    pub live: usize,
}

/// How many roots were born in these logs, and how many of them are live at the end.
pub fn counts_of(alloc: Global, logs: &[LaneLog]) -> Result<RootCounts, AllocError>
    ensures born { IfOk result (λ counts.
        counts.born ≡ length (born_roots (map (λ l. l.notes) logs.now))) }
    ensures live { IfOk result (λ counts. counts.live
        ≡ live_in (map (λ l. l.notes) logs.now) (born_roots (map (λ l. l.notes) logs.now))) }
{
    let born = roots_over(alloc, Step::Birth, logs)?;
    let retains = tally(alloc, &roots_over(alloc, Step::Retain, logs)?)?;
    let releases = tally(alloc, &roots_over(alloc, Step::Release, logs)?)?;
    Ok(RootCounts {
        born: born.len(),
        live: live_among(&born, &retains, &releases),
    })
}

// The root for which a note is such a step.
fn root_of(step: Step, note: &Note) -> Option<RootId>
    ensures { result ≡ root_of step note.now }
{
    match (step, note) {
        (
            Step::Birth,
            Note::At {
                did: Did::Birth { root, .. },
                ..
            },
        ) => Some(*root),
        (
            Step::Retain,
            Note::Ref {
                root,
                did: RefDid::Retain,
            },
        ) => Some(*root),
        (
            Step::Release,
            Note::Ref {
                root,
                did: RefDid::Kept | RefDid::Ended,
            },
        ) => Some(*root),
        _ => None,
    }
}

// Appends the roots of such steps in a log.
fn add_roots(step: Step, notes: &[Note], roots: &mut Vec<RootId>) -> Result<(), AllocError>
    ensures { OnOk result (roots.new.items ≡ roots.old.items ++ roots_in step notes.now) }
{
    for note in notes {
        if let Some(root) = root_of(step, note) {
            roots.push(root)?;
        }
    }
    Ok(())
}

// The roots of such steps in all logs, lane by lane.
fn roots_over(alloc: Global, step: Step, logs: &[LaneLog]) -> Result<Vec<RootId>, AllocError>
    ensures { IfOk result (λ roots. roots.items ≡ roots_over step logs.now) }
{
    let mut roots = Vec::new(alloc);
    for log in logs {
        add_roots(step, log.notes.items(), &mut roots)?;
    }
    Ok(roots)
}

fn key_of(root: &RootId) -> RootKey
    ensures { result ≡ key_of root.now }
{
    (root.place, root.generation, root.capacity)
}

// How often each root is in the list.
fn tally(alloc: Global, roots: &[RootId]) -> Result<HashMap<RootKey, usize>, AllocError>
    ensures { IfOk result (λ tally. (root : RootId) → counted tally root ≡ times roots.now root) }
{
    let mut tally = HashMap::new(alloc);
    for root in roots {
        let key = key_of(root);
        let count = tally.get(&key).copied().unwrap_or(0);
        tally.insert(key, count + 1)?;
    }
    Ok(tally)
}

// Whether it was released as often as born and retained, or not.
fn is_live(
    root: &RootId,
    retains: &HashMap<RootKey, usize>,
    releases: &HashMap<RootKey, usize>,
) -> bool
    ensures { result ≡ nat_le (counted releases.now root.now) (counted retains.now root.now) }
{
    let key = key_of(root);
    let retained = retains.get(&key).copied().unwrap_or(0);
    let released = releases.get(&key).copied().unwrap_or(0);
    released <= retained
}

// How many of these roots are live.
fn live_among(
    born: &[RootId],
    retains: &HashMap<RootKey, usize>,
    releases: &HashMap<RootKey, usize>,
) -> usize
    ensures { result ≡ count_by
        (λ root. nat_le (counted releases.now root) (counted retains.now root)) born.now }
{
    born.iter()
        .filter(|root| is_live(root, retains, releases))
        .count()
}
