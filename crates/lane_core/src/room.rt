//! How much a lane of given commands can need: names, and notes.

ghost use Rattle.std.specs.Prelude.{◌≡◌, ◌≤◌, if◌then◌else◌, All, length};
ghost use Rattle.std.specs.List.{list_any};
ghost use Rattle.pool_law.specs.Bounds.{composes, may_ask, most_notes, note_bound};
ghost use Rattle.lane_stages.specs.Budgets.{most_of_lane};
ghost use Rattle.lane_core.specs.Opened.{ChangesBelow};

use lane_context::SWEEP_PERIOD;
use pool_law::Command;
use size_classes::CACHED_CLASSES;

// How many caches a lane has.
const CACHES: usize = CACHED_CLASSES as usize;

// After how many asks it sweeps them.
const PERIOD: usize = SWEEP_PERIOD as usize;

/// One more than the greatest name of the commands, or none.
pub(crate) fn name_count(commands: &[Command]) -> usize
    ensures { All (ChangesBelow result) commands.now }
{
    let mut count = 0;
    for command in commands {
        count = count.max(names_of(command));
    }
    count
}

// One more than the greatest name of a command.
fn names_of(command: &Command) -> usize
    ensures { ChangesBelow result command.now }
{
    let name = match command {
        Command::Slice { fresh, name, .. } | Command::Dup { fresh, name } => (*fresh).max(*name),
        Command::Alloc { name, .. }
        | Command::Set { name, .. }
        | Command::Get { name, .. }
        | Command::Write { name, .. }
        | Command::Read { name, .. }
        | Command::Retain { name }
        | Command::Release { name }
        | Command::Refcnt { name }
        | Command::Touch { name }
        | Command::Forget { name }
        | Command::Send { name, .. }
        | Command::Capacity { name, .. } => *name,
        Command::Recv { fresh, .. } => *fresh,
        Command::Compose { fresh, .. } => *fresh,
        Command::Add { whole, name } => (*whole).max(*name),
    };
    name as usize + 1
}

/// Whether one of the commands makes a composite.
pub(crate) fn makes_composites(commands: &[Command]) -> bool
    ensures { result ≡ list_any composes commands.now }
{
    commands.iter().any(|command| makes_composite(command))
}

fn makes_composite(command: &Command) -> bool
    ensures { result ≡ composes command.now }
{
    matches!(command, Command::Compose { .. })
}

/// The most notes that a lane of these commands makes, its sweeps and its closing among them.
pub(crate) fn note_bound(commands: &[Command], composites: bool) -> usize
    requires few { length commands.now ≤ 65536 }
    requires kind { composites ≡ list_any composes commands.now }
    ensures bound { result ≡ note_bound commands.now }
    ensures most { result ≤ most_of_lane }
{
    let mut bound = CACHES;
    let mut asks = 0;
    for command in commands {
        bound += bound_of(command, composites);
        asks += asks_of(command);
    }
    bound + CACHES * (asks / PERIOD) + 2 * asks
}

// The most notes of one command, in a lane that makes composites or in one that makes none.
fn bound_of(command: &Command, composites: bool) -> usize
    ensures notes { result ≡ most_notes composites command.now }
    ensures few { result ≤ 197 }
{
    match command {
        Command::Alloc { .. } => 5,
        Command::Set { tries: false, .. } | Command::Get { tries: false, .. } => {
            bound_of_access(composites)
        }
        Command::Write { .. } | Command::Read { .. } => bound_of_access(composites),
        Command::Slice {
            retained: false,
            ..
        } => 0,
        Command::Dup { .. } | Command::Forget { .. } => 0,
        Command::Release { .. } => bound_of_release(composites),
        Command::Compose { .. } => 197,
        Command::Add { .. } => 141,
        Command::Capacity { .. } => 6,
        _ => 1,
    }
}

// The most notes of an access: one for each part of a composite that stays as it is.
fn bound_of_access(composites: bool) -> usize
    ensures { result ≡ if composites then 16 else 1 }
{
    if composites { 16 } else { 1 }
}

// The most notes of a release: of each part of a composite one count may be the last.
fn bound_of_release(composites: bool) -> usize
    ensures { result ≡ if composites then 96 else 6 }
{
    if composites { 96 } else { 6 }
}

// How many caches one command asks.
fn asks_of(command: &Command) -> usize
    ensures asks { result ≡ may_ask command.now }
    ensures few { result ≤ 1 }
{
    match command {
        Command::Alloc { .. }
        | Command::Compose { .. }
        | Command::Add { .. }
        | Command::Capacity { .. } => 1,
        _ => 0,
    }
}
