//! What the lanes of a trace need of their pool: room for notes, for roots and for parcels.
ghost use Rattle.std.specs.Prelude.{◌≡◌, ℕ, ◌*◌, ◌^◌, ◌<◌, ◌≤◌, if◌then◌else◌, count_by, length, IfOk};
ghost use Rattle.std.specs.List.{list_any};
ghost use Rattle.pool_law.specs.Bounds.{composes, may_ask, most_notes, note_bound};
ghost use Rattle.pool_law.specs.Logs.{of_lane};
ghost use Rattle.lane_core.specs.Lanes.{left_for_all};
ghost use Rattle.trace_top.specs.Needs.{AreSent, HasRoomFor, is_move, is_send};

use pool_law::{Command, CommandList, Shape};
use pool_table::Layout;
use size_classes::CACHED_CLASSES;
use std::alloc::{AllocError, Global};

// How many caches a lane has, and how many asks it sweeps them behind.
const CACHES: u64 = CACHED_CLASSES as u64;

const SWEEP_PERIOD: u64 = 8192;

/// The layout of a pool for these lanes.
pub fn layout_for(lanes: &[CommandList], shape: &Shape) -> Layout
    requires few { (lane : ℕ) → length (of_lane lanes.now lane) ≤ 65536 }
    ensures shape { result.shape ≡ shape.now }
    ensures room { (lane : ℕ) → lane < length lanes.now →
        HasRoomFor result (of_lane lanes.now lane) }
    ensures moves { result.moves ≤ 65536 }
    ensures turns { result.turns ≤ 2 ^ 24 }
{
    let mut moves = 0u32;
    let mut turns = 0u64;
    for commands in lanes {
        moves = moves.max(moves_of(commands.items()));
        turns = turns.max(turns_of(commands.items()));
    }
    Layout {
        shape: *shape,
        moves,
        turns,
    }
}

/// For each two lanes, how many parcels the first sends to the second.
pub fn mail_for(alloc: Global, lanes: &[CommandList]) -> Result<Vec<u32>, AllocError>
    requires few { (lane : ℕ) → length (of_lane lanes.now lane) ≤ 65536 }
    requires lanes { length lanes.now ≤ 16 }
    ensures many { IfOk result (λ mail. length mail.items ≡ length lanes.now * length lanes.now) }
    ensures sent { IfOk result (λ mail. AreSent lanes.now mail.items) }
{
    let count = lanes.len();
    let mut mail = Vec::new(alloc);
    for index in 0..count * count {
        let to = (index % count) as u32;
        mail.push(sends_to(lanes[index / count].items(), to))?;
    }
    Ok(mail)
}

// How many roots the commands make or retain.
fn moves_of(commands: &[Command]) -> u32
    requires { length commands.now ≤ 65536 }
    ensures moves { result ≡ (left_for_all commands.now).moves }
    ensures most { result ≤ 65536 }
{
    moves(commands) as u32
}

// How many parcels the commands send to a lane.
fn sends_to(commands: &[Command], to: u32) -> u32
    requires { length commands.now ≤ 65536 }
    ensures { result ≡ (left_for_all commands.now).sends to }
{
    sends(commands, to) as u32
}

// The most notes of a lane with these commands, its sweeps and its closing among them.
fn turns_of(commands: &[Command]) -> u64
    requires { length commands.now ≤ 65536 }
    ensures turns { result ≡ note_bound commands.now }
    ensures most { result ≤ 2 ^ 24 }
{
    let composites = any_composes(commands);
    let mut notes = 0;
    let mut asks = 0;
    for command in commands {
        notes += notes_of(command, composites);
        asks += asks_of(command);
    }
    notes + CACHES * (1 + asks / SWEEP_PERIOD) + 2 * asks
}

// Whether one of the commands makes a composite.
fn any_composes(commands: &[Command]) -> bool
    ensures { result ≡ list_any composes commands.now }
{
    commands.iter().any(|command| composes(command))
}

// The most notes of a command, in a lane that makes composites or in one that makes none.
fn notes_of(command: &Command, composites: bool) -> u64
    ensures notes { result ≡ most_notes composites command.now }
    ensures few { result ≤ 197 }
{
    match command {
        Command::Alloc { .. } => 5,
        Command::Set { tries: false, .. } | Command::Get { tries: false, .. } => {
            notes_of_access(composites)
        }
        Command::Write { .. } | Command::Read { .. } => notes_of_access(composites),
        Command::Slice {
            retained: false,
            ..
        } => 0,
        Command::Dup { .. } | Command::Forget { .. } => 0,
        Command::Release { .. } => notes_of_release(composites),
        Command::Compose { .. } => 197,
        Command::Add { .. } => 141,
        Command::Capacity { .. } => 6,
        _ => 1,
    }
}

// The most notes of an access that is made whether or not another lane is at the root.
fn notes_of_access(composites: bool) -> u64
    ensures { result ≡ if composites then 16 else 1 }
{
    if composites { 16 } else { 1 }
}

// The most notes of a release.
fn notes_of_release(composites: bool) -> u64
    ensures { result ≡ if composites then 96 else 6 }
{
    if composites { 96 } else { 6 }
}

// How many caches a command may ask.
fn asks_of(command: &Command) -> u64
    ensures asks { result ≡ may_ask command.now }
    ensures few { result ≤ 1 }
{
    match command {
        Command::Alloc { .. }
        | Command::Compose { .. }
        | Command::Add { .. }
        | Command::Capacity { .. } => 1,
        _ => 0,
    }
}

fn moves(commands: &[Command]) -> usize
    ensures count { result ≡ count_by is_move commands.now }
    ensures most { result ≤ length commands.now }
{
    commands.iter().filter(|command| is_move(command)).count()
}

fn sends(commands: &[Command], to: u32) -> usize
    ensures count { result ≡ count_by (is_send to) commands.now }
    ensures most { result ≤ length commands.now }
{
    commands
        .iter()
        .filter(|command| is_send(command, to))
        .count()
}

// Whether it makes a composite.
fn composes(command: &Command) -> bool
    ensures { result ≡ composes command.now }
{
    matches!(command, Command::Compose { .. })
}

// Whether it may make a root, or retains one.
fn is_move(command: &Command) -> bool
    ensures { result ≡ is_move command.now }
{
    match command {
        Command::Alloc { .. }
        | Command::Retain { .. }
        | Command::Compose { .. }
        | Command::Add { .. } => true,
        Command::Slice { retained, .. } => *retained,
        _ => false,
    }
}

// Whether it sends to this lane.
fn is_send(command: &Command, to: u32) -> bool
    ensures { result ≡ is_send to command.now }
{
    match command {
        Command::Send { lane, .. } => *lane == to,
        _ => false,
    }
}
