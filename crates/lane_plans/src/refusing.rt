//! Why a composite is not made: the tests of the table, in its order.

ghost use Rattle.std.specs.Prelude.{◌≡◌, option_map};
ghost use Rattle.std.specs.List.{list_any};
ghost use Rattle.pool_law.specs.Refusals.{first_refusal};
ghost use Rattle.lane_context.specs.Accesses.{reply_for};
ghost use Rattle.lane_plans.specs.Compositions.{is_composite, is_illegal, is_plain, is_unbound, refusals_to_add, refusals_to_compose};

use crate::planning::is_usable;
use lane_context::{Bound, Names, Refusal};
use lane_stages::OwnCounts;

/// Why no composite is made of these names, if none is.
pub(crate) fn refusal_to_compose(
    names: &Names,
    counts: &OwnCounts,
    fresh: u32,
    of: &[u32],
) -> Option<Refusal>
    ensures { option_map reply_for result
        ≡ first_refusal (refusals_to_compose names.now counts.now fresh of.now) }
{
    if any_unbound(names, of) {
        return Some(Refusal::Unbound);
    }
    if !is_unbound(names, fresh) {
        return Some(Refusal::Taken);
    }
    if any_composite(names, of) {
        return Some(Refusal::Composite);
    }
    if any_illegal(names, counts, of) {
        return Some(Refusal::Illegal);
    }
    None
}

/// Why nothing is put behind a composite, if nothing is.
pub(crate) fn refusal_to_add(
    names: &Names,
    counts: &OwnCounts,
    whole: u32,
    name: u32,
) -> Option<Refusal>
    ensures { option_map reply_for result
        ≡ first_refusal (refusals_to_add names.now counts.now whole name) }
{
    if is_unbound(names, whole) || is_unbound(names, name) {
        return Some(Refusal::Unbound);
    }
    if is_plain(names, whole) {
        return Some(Refusal::Plain);
    }
    if is_composite(names, name) {
        return Some(Refusal::Composite);
    }
    if is_illegal(names, counts, whole) || is_illegal(names, counts, name) {
        return Some(Refusal::Illegal);
    }
    None
}

fn is_unbound(names: &Names, name: u32) -> bool
    ensures { result ≡ is_unbound names.now name }
{
    names.get(name).is_none()
}

fn is_plain(names: &Names, name: u32) -> bool
    ensures { result ≡ is_plain names.now name }
{
    match names.get(name) {
        Some(Bound::Plain(_)) => true,
        Some(Bound::Composed(_)) => false,
        None => false,
    }
}

fn is_composite(names: &Names, name: u32) -> bool
    ensures { result ≡ is_composite names.now name }
{
    match names.get(name) {
        Some(Bound::Plain(_)) => false,
        Some(Bound::Composed(_)) => true,
        None => false,
    }
}

// Whether a root of what the name is bound to isn't counted, or it is a composite that has ended.
fn is_illegal(names: &Names, counts: &OwnCounts, name: u32) -> bool
    ensures { result ≡ is_illegal names.now counts.now name }
{
    match names.get(name) {
        Some(Bound::Plain(view)) => counts.of(view.at.root) == 0,
        Some(Bound::Composed(whole)) => !is_usable(counts, whole),
        None => false,
    }
}

fn any_unbound(names: &Names, of: &[u32]) -> bool
    ensures { result ≡ list_any (is_unbound names.now) of.now }
{
    of.iter().any(|name| is_unbound(names, *name))
}

fn any_composite(names: &Names, of: &[u32]) -> bool
    ensures { result ≡ list_any (is_composite names.now) of.now }
{
    of.iter().any(|name| is_composite(names, *name))
}

fn any_illegal(names: &Names, counts: &OwnCounts, of: &[u32]) -> bool
    ensures { result ≡ list_any (is_illegal names.now counts.now) of.now }
{
    of.iter().any(|name| is_illegal(names, counts, *name))
}
