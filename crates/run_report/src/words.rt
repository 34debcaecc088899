//! The words of commands, lists of chunks and refusals of a cache.

ghost use Rattle.std.specs.Prelude.{◌≡◌};
ghost use Rattle.pool_law.specs.Text.{command_word, list_word, why_word};

use pool_law::{CacheNo, Command, ListName};

/// The word of a command, as in the trace.
pub fn word_of(command: &Command) -> &'static str
    ensures { result.now ≡ command_word command.now }
{
    match command {
        Command::Alloc { .. } => "alloc",
        Command::Set { tries: false, .. } => "set",
        Command::Set { .. } => "tryset",
        Command::Get { tries: false, .. } => "get",
        Command::Get { .. } => "tryget",
        Command::Write { .. } => "write",
        Command::Read { .. } => "read",
        Command::Slice {
            retained: false,
            ..
        } => "slice",
        Command::Slice { .. } => "rslice",
        Command::Dup { .. } => "dup",
        Command::Retain { .. } => "retain",
        Command::Release { .. } => "release",
        Command::Refcnt { .. } => "refcnt",
        Command::Touch { .. } => "touch",
        Command::Forget { .. } => "forget",
        Command::Send { .. } => "send",
        Command::Recv { .. } => "recv",
        Command::Compose { .. } => "compose",
        Command::Add { .. } => "add",
        Command::Capacity { .. } => "capacity",
    }
}

/// The name of a list of chunks.
pub fn name_of(list: ListName) -> &'static str
    ensures { result.now ≡ list_word list }
{
    match list {
        ListName::QInit => "qInit",
        ListName::Q000 => "q000",
        ListName::Q025 => "q025",
        ListName::Q050 => "q050",
        ListName::Q075 => "q075",
        ListName::Q100 => "q100",
    }
}

/// Why a cache sent a region back.
pub fn reason_of(no: CacheNo) -> &'static str
    ensures { result.now ≡ why_word no }
{
    match no {
        CacheNo::Full => "full",
        CacheNo::Closed => "closed",
    }
}
