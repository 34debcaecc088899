//! The runs of the table: their words and traces, what the ends and the gate do, and what comes of them.

use crate::tests::gates::{LanePlace, NOWHERE};
use trace_top::Status;

/// The most bytes that a source gives at a read.
pub const GIVEN: usize = 1;

/// The most bytes that a sink takes at a write.
pub const MOST: usize = 10;

// The lines of two faults.
const NO_READ: &str = "read fault\n";

const NO_WRITE: &str = "write fault\n";

// Room for each of the texts.
const ROOM: usize = 1000;

// A call of an end that never comes.
const NEVER: u64 = 0;

/// One run.
#[derive(Drop)]
pub struct Row {
    /// How many workers its words ask for.
    pub workers: &'static str,
    pub trace: &'static str,
    /// The lane that is stopped, and its line.
    pub stop: LanePlace,
    /// Whether each of two lanes waits in the gate for the other.
    pub meets: bool,
    /// The read that fails, from 1.
    pub no_read: u64,
    /// The write that fails, from 1.
    pub no_write: u64,
    /// How many bytes the sink takes in all.
    pub room: usize,
    pub status: Status,
    /// What is written.
    pub text: &'static str,
    /// The line of the outcome.
    pub line: &'static str,
    /// For how many lines of its two lanes the gate was asked.
    pub asked: (u64, u64),
}

// A lane makes a buffer and hands it to another.
const HAND_OVER: &str = concat!(
    r#"[[["alloc","a",4],["set","a",0,"0a0b"],["send","a",1]],"#,
    r#"[["recv","x",0],["get","x",0,2],["release","x"]]]"#,
);

// What is written of it where the lane that receives is stopped at once, so that nobody fetches the parcel.
const RECEIVER_STOPPED: &str = "\
0.0 alloc ok 16 0.0+0
0.1 set ok
0.2 send ok
1.0 recv stopped
1.1 get stopped
1.2 release stopped
chunk 0.0 qInit used 8192 free 4186112
leak 0.1 capacity 4 count 1 records 0 dropped 0
end roots 1 live 1 leaks 1
";

// The lane that sends is stopped at its send, so the parcel is empty.
const SENDER_STOPPED: &str = "\
0.0 alloc ok 16 0.0+0
0.1 set ok
0.2 send stopped
1.0 recv nothing
1.1 get unbound
1.2 release unbound
chunk 0.0 qInit used 8192 free 4186112
leak 0.1 capacity 4 count 1 records 0 dropped 0
end roots 1 live 1 leaks 1
";

// A lane sends itself a buffer.
const TO_ITSELF: &str = r#"[[["alloc","a",4],["send","a",0],["recv","b",0]]]"#;

// It is stopped at once, and behind its send.
const STOPPED_AT_ONCE: &str = "\
0.0 alloc stopped
0.1 send stopped
0.2 recv stopped
end roots 0 live 0 leaks 0
";

const STOPPED_BEHIND_ITS_SEND: &str = "\
0.0 alloc ok 16 0.0+0
0.1 send ok
0.2 recv stopped
chunk 0.0 qInit used 8192 free 4186112
leak 0.1 capacity 4 count 1 records 0 dropped 0
end roots 1 live 1 leaks 1
";

// Each of two lanes is at its command at the same time as the other.
const AT_ONCE: &str = r#"[[["touch","a"]],[["touch","a"]]]"#;

const AT_ONCE_TEXT: &str = "\
0.0 touch unbound
1.0 touch unbound
end roots 0 live 0 leaks 0
";

// How many reads find all of that trace, and the end.
const READS: u64 = 33 + 1;

// How many writes take all of its text, which has 63 bytes.
const WRITES: u64 = 7;

/// What a run under a gate that stops a lane is given, and what comes of it: its workers, its trace,
/// the lane that is stopped and its line, the status, what is written, and for how many lines of its
/// two lanes the gate was asked.
pub type StopRow = (
    &'static str,
    &'static str,
    LanePlace,
    Status,
    &'static str,
    (u64, u64),
);

/// Those of which a lane is stopped: the lane that receives, the lane that sends, and one that sends
/// itself a buffer.
pub const STOPPED_RUNS: [StopRow; 10] = [
    (
        "1",
        HAND_OVER,
        (1, 0),
        Status::Leaks,
        RECEIVER_STOPPED,
        (3, 1),
    ),
    (
        "2",
        HAND_OVER,
        (1, 0),
        Status::Leaks,
        RECEIVER_STOPPED,
        (3, 1),
    ),
    (
        "4",
        HAND_OVER,
        (1, 0),
        Status::Leaks,
        RECEIVER_STOPPED,
        (3, 1),
    ),
    (
        "16",
        HAND_OVER,
        (1, 0),
        Status::Leaks,
        RECEIVER_STOPPED,
        (3, 1),
    ),
    (
        "1",
        HAND_OVER,
        (0, 2),
        Status::Leaks,
        SENDER_STOPPED,
        (3, 3),
    ),
    (
        "2",
        HAND_OVER,
        (0, 2),
        Status::Leaks,
        SENDER_STOPPED,
        (3, 3),
    ),
    (
        "4",
        HAND_OVER,
        (0, 2),
        Status::Leaks,
        SENDER_STOPPED,
        (3, 3),
    ),
    (
        "16",
        HAND_OVER,
        (0, 2),
        Status::Leaks,
        SENDER_STOPPED,
        (3, 3),
    ),
    (
        "1",
        TO_ITSELF,
        (0, 0),
        Status::Whole,
        STOPPED_AT_ONCE,
        (1, 0),
    ),
    (
        "1",
        TO_ITSELF,
        (0, 2),
        Status::Leaks,
        STOPPED_BEHIND_ITS_SEND,
        (3, 0),
    ),
];

/// What the ends of a run of two lanes that meet do, and what comes of it: the read and the write
/// that fail, the room, the status, what is written, the line of the outcome, and for how many lines
/// of each lane the gate was asked.
pub type MeetRow = (u64, u64, usize, Status, &'static str, &'static str, u64);

/// Those that meet.
pub const MET_RUNS: [MeetRow; 8] = [
    (NEVER, NEVER, ROOM, Status::Whole, AT_ONCE_TEXT, "", 1),
    (1, NEVER, ROOM, Status::ReadFault, "", NO_READ, 0),
    (READS, NEVER, ROOM, Status::ReadFault, "", NO_READ, 0),
    (READS + 1, NEVER, ROOM, Status::Whole, AT_ONCE_TEXT, "", 1),
    (NEVER, 1, ROOM, Status::WriteFault, "", NO_WRITE, 1),
    (
        NEVER,
        2,
        ROOM,
        Status::WriteFault,
        "0.0 touch ",
        NO_WRITE,
        1,
    ),
    (
        NEVER,
        NEVER,
        25,
        Status::WriteFault,
        "0.0 touch unbound\n1.0 tou",
        NO_WRITE,
        1,
    ),
    (NEVER, WRITES + 1, ROOM, Status::Whole, AT_ONCE_TEXT, "", 1),
];

/// The run of a row of the first table.
pub fn stopped(row: StopRow) -> Row {
    let (workers, trace, stop, status, text, asked) = row;
    Row {
        workers,
        trace,
        stop,
        meets: false,
        no_read: NEVER,
        no_write: NEVER,
        room: ROOM,
        status,
        text,
        line: "",
        asked,
    }
}

/// And of one of the second.
pub fn met(row: MeetRow) -> Row {
    let (no_read, no_write, room, status, text, line, asked) = row;
    Row {
        workers: "2",
        trace: AT_ONCE,
        stop: NOWHERE,
        meets: true,
        no_read,
        no_write,
        room,
        status,
        text,
        line,
        asked: (asked, asked),
    }
}
