//! The usages between which a chunk stays in a list, and where it goes else.

ghost use Rattle.std.specs.Prelude.{◌≡◌, ◌≤◌, [], ◌∷◌, Some, IfSome, IfNone};
ghost use Rattle.pool_law.specs.ChunkLists.{greatest, least, lists_above, lists_below, risen, sunk};
ghost use Rattle.chunk_list.specs.Settling.{goes_to, IsWithin};

use pool_law::ListName;

// From this usage on a chunk goes to the next list. No usage is so great that it leaves the last.
fn greatest_of(list: ListName) -> u32
    ensures { result ≡ greatest list }
{
    match list {
        ListName::QInit => 25,
        ListName::Q000 => 50,
        ListName::Q025 => 75,
        ListName::Q050 => 100,
        ListName::Q075 => 100,
        ListName::Q100 => 101,
    }
}

// Below this usage a chunk goes to the list before. From the first it never does.
fn least_of(list: ListName) -> u32
    ensures { result ≡ least list }
{
    match list {
        ListName::QInit => 0,
        ListName::Q000 => 1,
        ListName::Q025 => 25,
        ListName::Q050 => 50,
        ListName::Q075 => 75,
        ListName::Q100 => 100,
    }
}

fn next_above(list: ListName) -> Option<ListName>
    ensures some { IfSome result (λ next. lists_above list ≡ next ∷ lists_above next) }
    ensures none { IfNone result (lists_above list ≡ []) }
{
    match list {
        ListName::QInit => Some(ListName::Q000),
        ListName::Q000 => Some(ListName::Q025),
        ListName::Q025 => Some(ListName::Q050),
        ListName::Q050 => Some(ListName::Q075),
        ListName::Q075 => Some(ListName::Q100),
        ListName::Q100 => None,
    }
}

// Below the second list there is none, and the first is left upwards alone.
fn next_below(list: ListName) -> Option<ListName>
    ensures some { IfSome result (λ next. lists_below list ≡ next ∷ lists_below next) }
    ensures none { IfNone result (lists_below list ≡ []) }
{
    match list {
        ListName::QInit => None,
        ListName::Q000 => None,
        ListName::Q025 => Some(ListName::Q000),
        ListName::Q050 => Some(ListName::Q025),
        ListName::Q075 => Some(ListName::Q050),
        ListName::Q100 => Some(ListName::Q075),
    }
}

/// The list in which a chunk of this usage stops, going up.
#[tactic(auto, using(crate::proofs::SettlingLaws::risen_stays))]
pub(crate) fn up_from(list: ListName, usage: u32) -> ListName
    ensures { result ≡ risen usage list (lists_above list) }
{
    if usage < greatest_of(list) {
        return list;
    }
    match next_above(list) {
        Some(next) => up_from(next, usage),
        None => list,
    }
}

/// The list in which a chunk of this usage stops, going down.
fn down_from(list: ListName, usage: u32) -> Option<ListName>
    ensures { result ≡ sunk usage list (lists_below list) }
{
    if usage >= least_of(list) {
        return Some(list);
    }
    match next_below(list) {
        Some(next) => down_from(next, usage),
        None => None,
    }
}

/// The list in which a chunk of this usage stops, going up or else down.
#[tactic(auto, using(crate::proofs::Usages::goes_within))]
pub(crate) fn settle(list: ListName, usage: u32) -> Option<ListName>
    ensures list { result ≡ goes_to usage (Some list) }
    ensures within { usage ≤ 100 → IfSome result (IsWithin usage) }
{
    if usage >= greatest_of(list) {
        Some(up_from(list, usage))
    } else {
        down_from(list, usage)
    }
}
