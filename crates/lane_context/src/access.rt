//! What a name gives a command: a view whose root is counted, or why the command is refused.

ghost use Rattle.std.specs.Prelude.{◌≡◌, ◌<◌, Some, None, IfOk, IfErr};
ghost use Rattle.pool_law.specs.Names.{Plain};
ghost use Rattle.lane_context.specs.Named.{bound_at};
ghost use Rattle.lane_stages.specs.Counting.{counted};
ghost use Rattle.lane_context.specs.Accesses.{IsRefused, IsRefusedFresh, IsRefusedCount, IsOwned};

use crate::bound::Bound;
use crate::names::Names;
use byte_view::View;
use lane_stages::OwnCounts;
use pool_law::{RootId, ViewData};

/// Why a command is refused before it makes a note.
#[derive(Clone, Copy, Drop)]
pub enum Refusal {
    /// The name isn't bound.
    Unbound,
    /// A name that is to be bound is bound.
    Taken,
    /// The name is bound to a composite.
    Composite,
    /// The lane has no count of a root, or the composite has ended.
    Illegal,
    /// The bytes do not all lie there.
    Range,
    /// The name is bound to a view.
    Plain,
    /// No size class has so many bytes, or no composite may have them.
    TooLarge,
}

/// What a command on a count works on: the root of a view, or a composite with a count of its own.
#[derive(Clone, Copy, Drop)]
pub(crate) enum Owned {
    View(ViewData),
    Composite(u32),
}

/// Where a command reaches bytes of a root, and what its name is bound to afterwards.
#[derive(Drop)]
pub struct Reach {
    /// The root.
    pub root: RootId,
    /// Where the bytes begin in it.
    pub offset: u32,
    /// Where another seat is there, the command says so and doesn't wait.
    pub tries: bool,
    /// The name whose view it is.
    pub name: u32,
    /// The view to which the name is bound afterwards.
    pub after: View,
}

/// An access that a command asks for, with the memory for its note and its reply; or why it is
/// refused.
#[derive(Drop)]
pub enum Access {
    /// It is refused.
    Refused(Refusal),
    /// These bytes are set.
    Set(Reach, Vec<u8>),
    /// So many bytes as each of these has are got: into the first for the note, into the second for
    /// the reply.
    Get(Reach, Vec<u8>, Vec<u8>),
}

/// The view of a name, where the lane counts its root.
pub fn counted<'a>(names: &'a Names, counts: &OwnCounts, name: u32) -> Result<&'a View, Refusal>
    ensures ok { IfOk result (λ view. (bound_at names.now name ≡ Some (Plain view.now.at))
        × (0 < counted counts.now view.now.at.root)) }
    ensures refused { IfErr result (IsRefused names.now counts.now name) }
{
    let view = match names.get(name) {
        Some(Bound::Plain(view)) => view,
        Some(Bound::Composed(_)) => return Err(Refusal::Composite),
        None => return Err(Refusal::Unbound),
    };
    if counts.of(view.at.root) == 0 {
        return Err(Refusal::Illegal);
    }
    Ok(view)
}

/// What the name's count is one of, where it isn't 0.
pub(crate) fn own_count(names: &Names, counts: &OwnCounts, name: u32) -> Result<Owned, Refusal>
    ensures ok { IfOk result (IsOwned names.now counts.now name) }
    ensures refused { IfErr result (IsRefusedCount names.now counts.now name) }
{
    match names.get(name) {
        Some(Bound::Plain(view)) => {
            if counts.of(view.at.root) == 0 {
                return Err(Refusal::Illegal);
            }
            Ok(Owned::View(view.at))
        }
        Some(Bound::Composed(composed)) => {
            let count = composed.count();
            if count == 0 {
                return Err(Refusal::Illegal);
            }
            Ok(Owned::Composite(count))
        }
        None => Err(Refusal::Unbound),
    }
}

/// The same as `counted`, with a new name that may not be bound.
pub(crate) fn derived<'a>(
    names: &'a Names,
    counts: &OwnCounts,
    fresh: u32,
    name: u32,
) -> Result<&'a View, Refusal>
    ensures ok { IfOk result (λ view. (bound_at names.now name ≡ Some (Plain view.now.at))
        × (bound_at names.now fresh ≡ None) × (0 < counted counts.now view.now.at.root)) }
    ensures refused { IfErr result (IsRefusedFresh names.now counts.now fresh name) }
{
    let Some(bound) = names.get(name) else {
        return Err(Refusal::Unbound);
    };
    if let Some(_) = names.get(fresh) {
        return Err(Refusal::Taken);
    }
    let Bound::Plain(view) = bound else {
        return Err(Refusal::Composite);
    };
    if counts.of(view.at.root) == 0 {
        return Err(Refusal::Illegal);
    }
    Ok(view)
}
