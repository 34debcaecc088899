//! Texts, and what each is read as. Names are numbers.
use crate::rows::{COMMANDS, VERSION_TWO};
use pool_law::{Command, Options, Trace};
use std::alloc::{AllocError, Global};
use std::process::Abort;
use std::test::Fail;
use trace_text::read_trace;

/// Each command of a lane between `;`, each lane between `|`, and what is asked of the pool.
fn told(alloc: Global, text: &[u8]) -> Result<String, AllocError> {
    let Ok(read) = read_trace(alloc, text) else {
        return String::from_str(alloc, "refused");
    };
    let mut told = told_trace(alloc, &read.trace)?;
    let asked = told_options(alloc, &read.options)?;
    told.push_str(asked.as_str())?;
    Ok(told)
}

fn told_options(alloc: Global, options: &Options) -> Result<String, AllocError> {
    let mut text = String::new(alloc);
    let numbers = [
        ("page", options.page),
        ("order", options.order),
        ("arenas", options.arenas),
        ("chunks", options.chunks),
        ("handles", options.handles),
        ("interval", options.interval),
    ];
    for (name, number) in numbers {
        if let Some(number) = number {
            let word = format!(in alloc; " {name} {number}")?;
            text.push_str(word.as_str())?;
        }
    }
    if let Some(level) = options.level {
        let word = format!(in alloc; " level {level:?}")?;
        text.push_str(word.as_str())?;
    }
    Ok(text)
}

/// The commands of each lane between `|`, each with a `;` behind it.
pub(crate) fn told_trace(alloc: Global, trace: &Trace) -> Result<String, AllocError> {
    let mut text = String::from_str(alloc, "|")?;
    for lane in trace.lanes.items() {
        for command in lane.items() {
            let words = told_command(alloc, command)?;
            text.push_str(words.as_str())?;
            text.push_str(";")?;
        }
        text.push_str("|")?;
    }
    Ok(text)
}

fn told_command(alloc: Global, command: &Command) -> Result<String, AllocError> {
    let (word, numbers) = word_of(command);
    let mut text = String::from_str(alloc, word)?;
    for number in numbers {
        if let Some(number) = number {
            push_number(alloc, &mut text, number)?;
        }
    }
    if let Some(bytes) = bytes_of(command) {
        let hex = hex::encode(alloc, bytes)?;
        text.push_str(" ")?;
        text.push_str(hex.as_str())?;
    }
    for name in names_of(command) {
        push_number(alloc, &mut text, *name)?;
    }
    Ok(text)
}

fn push_number(alloc: Global, text: &mut String, number: u32) -> Result<(), AllocError> {
    let number = format!(in alloc; " {number}")?;
    text.push_str(number.as_str())
}

/// The word of a command as it stands in a trace, and its numbers.
fn word_of(command: &Command) -> (&'static str, [Option<u32>; 4]) {
    match command {
        Command::Alloc { name, size } => ("alloc", two(*name, *size)),
        Command::Set {
            name,
            at,
            tries,
            ..
        } => (tried(*tries, "tryset", "set"), two(*name, *at)),
        Command::Get {
            name,
            at,
            len,
            tries,
        } => (
            tried(*tries, "tryget", "get"),
            [Some(*name), Some(*at), Some(*len), None],
        ),
        Command::Write { name, .. } => ("write", one(*name)),
        Command::Read { name, len } => ("read", two(*name, *len)),
        Command::Slice {
            fresh,
            name,
            at,
            len,
            retained,
        } => (
            tried(*retained, "rslice", "slice"),
            [Some(*fresh), Some(*name), Some(*at), Some(*len)],
        ),
        Command::Dup { fresh, name } => ("dup", two(*fresh, *name)),
        Command::Retain { name } => ("retain", one(*name)),
        Command::Release { name } => ("release", one(*name)),
        Command::Refcnt { name } => ("refcnt", one(*name)),
        Command::Touch { name } => ("touch", one(*name)),
        Command::Forget { name } => ("forget", one(*name)),
        Command::Send { name, lane } => ("send", two(*name, *lane)),
        Command::Recv { fresh, lane } => ("recv", two(*fresh, *lane)),
        Command::Compose { fresh, .. } => ("compose", one(*fresh)),
        Command::Add { whole, name } => ("add", two(*whole, *name)),
        Command::Capacity { name, size } => ("capacity", two(*name, *size)),
    }
}

fn tried(tries: bool, yes: &'static str, no: &'static str) -> &'static str {
    if tries { yes } else { no }
}

fn one(number: u32) -> [Option<u32>; 4] {
    [Some(number), None, None, None]
}

fn two(first: u32, second: u32) -> [Option<u32>; 4] {
    [Some(first), Some(second), None, None]
}

/// The bytes that a command lays.
fn bytes_of(command: &Command) -> Option<&[u8]> {
    match command {
        Command::Set { bytes, .. } => Some(bytes.items()),
        Command::Write { bytes, .. } => Some(bytes.items()),
        _ => None,
    }
}

/// The buffers of which a composite is made.
fn names_of(command: &Command) -> &[u32] {
    match command {
        Command::Compose { names, .. } => names.items(),
        _ => &[],
    }
}

/// Each line of a table is a text and what it is read as, with ` => ` between them.
fn check_table(rt: &(impl Abort + AllocGlobal), table: &str) -> Result<(), Fail> {
    for row in table.lines() {
        let (text, want) = row.split_once(" => ").expect(rt, "a row has an arrow");
        let found = told(rt.alloc(), text.as_bytes())?;
        assert!(rt; found.as_str() == want, "at {text}");
    }
    Ok(())
}

#[test]
fn reads_each_command(rt: HostRuntime) -> Result<(), Fail> {
    for table in [COMMANDS, VERSION_TWO] {
        check_table(&rt, table)?;
    }
    Ok(())
}
