//! Generated traces, told as texts.
use crate::traces::told_trace;
use pool_law::{Command, Trace};
use std::alloc::{AllocError, Global};
use std::test::Fail;
use trace_make::*;

/// The sizes and the first bytes of each lane's buffers, a `;` behind each.
fn told_draws(alloc: Global, trace: &Trace) -> Result<String, AllocError> {
    let mut text = String::new(alloc);
    for lane in trace.lanes.items() {
        text.push_str("|")?;
        for command in lane.items() {
            text.push_str(told_draw(alloc, command)?.as_str())?;
        }
    }
    Ok(text)
}

fn told_draw(alloc: Global, command: &Command) -> Result<String, AllocError> {
    match command {
        Command::Alloc { size, .. } => format!(in alloc; "{size} "),
        Command::Set { bytes, .. } => {
            let byte = bytes.items().first().copied().unwrap_or(0);
            format!(in alloc; "{byte};")
        }
        _ => Ok(String::new(alloc)),
    }
}

/// The one block of one lane, and of each of three.
const COMMANDS: [(u32, u32, &str); 2] = [
    (
        1,
        8,
        "|alloc 0 64;set 0 0 16161616;slice 1 0 2 8;get 1 0 4;send 0 0;recv 2 0;get 2 0 4;release 2;|",
    ),
    (
        3,
        47,
        "|alloc 0 64;set 0 0 16161616;slice 1 0 2 8;get 1 0 4;send 0 1;recv 2 2;get 2 0 4;release 2;\
         |alloc 0 177;set 0 0 1c1c1c1c;slice 1 0 2 8;get 1 0 4;send 0 2;recv 2 0;get 2 0 4;release 2;\
         |alloc 0 671;set 0 0 1c1c1c1c;slice 1 0 2 8;get 1 0 4;send 0 0;recv 2 1;get 2 0 4;release 2;|",
    ),
];

#[test]
fn makes_the_commands_of_a_block(rt: HostRuntime) -> Result<(), Fail> {
    let alloc = rt.alloc();
    for (lanes, commands, want) in COMMANDS {
        let trace = make(alloc, 0, lanes, commands)?;
        let text = told_trace(alloc, &trace)?;
        assert!(rt; text.as_str() == want, "at {lanes} {commands}");
    }
    Ok(())
}

/// Lane by lane, block by block, the size before the byte. A start is taken modulo 2^31.
const DRAWS: [(u64, u32, u32, &str); 5] = [
    (0, 1, 8, "|64 22;"),
    (1, 1, 8, "|222 176;"),
    (0, 2, 39, "|64 22;177 28;|671 28;1004 207;"),
    (2_147_483_648, 1, 8, "|64 22;"),
    (18_446_744_073_709_551_615, 1, 15, "|696 124;"),
];

#[test]
fn draws_lane_by_lane(rt: HostRuntime) -> Result<(), Fail> {
    let alloc = rt.alloc();
    for (start, lanes, commands, want) in DRAWS {
        let trace = make(alloc, start, lanes, commands)?;
        let text = told_draws(alloc, &trace)?;
        assert!(rt; text.as_str() == want, "at {start} {lanes} {commands}");
    }
    Ok(())
}

#[test]
fn makes_the_longest_traces(rt: HostRuntime) -> Result<(), Fail> {
    let alloc = rt.alloc();
    for (lanes, want) in [(1, 65_536), (3, 21_840), (16, 4_096)] {
        let trace = make(alloc, 1, lanes, 65_536)?;
        let counts = trace.lanes.items().iter().map(|lane| lane.items().len());
        assert!(rt; counts.max() == Some(want), "at {lanes}");
    }
    Ok(())
}
