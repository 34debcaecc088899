//! The run of a lane that touches what it has no name for, and single changes of it.

use pool_law::{
    Answered, Command, Did, Items, LaneLog, Level, Note, Object, Reply, Run, Shape, Trace,
};
use run_check::{Breach, check_run, find_breach};
use size_classes::DEFAULT_PAGE;
use std::alloc::{AllocError, Global};
use std::mem::ManuallyDrop;
use std::process::Abort;

// The caches of a lane.
const CACHES: u32 = 40;

// A pool of this order for so many lanes.
fn shape(order: u32, lanes: u32) -> Shape {
    Shape {
        page: DEFAULT_PAGE,
        order,
        arenas: 2,
        chunks: 4,
        handles: 1024,
        lanes,
        level: Level::Simple,
        interval: 128,
    }
}

// The notes of a lane that closes its caches and does nothing else.
fn closing(alloc: Global) -> Result<Vec<Note>, AllocError> {
    let mut notes = Vec::new(alloc);
    for class in 0..CACHES {
        notes.push(Note::At {
            object: Object::Cache { lane: 0, class },
            number: 1,
            did: Did::Close(0),
        })?;
    }
    Ok(notes)
}

// A run over this pool of one lane with one command, which is answered so and said to have made so many notes.
fn answered(rt: &impl Abort, alloc: Global, shape: Shape, command: Command, notes: u32) -> Run {
    let answer = Answered {
        reply: Reply::Unbound,
        notes,
    };
    let Ok(replies) = vec![in alloc; answer] else {
        panic!(rt; "ample memory")
    };
    let Ok(notes) = closing(alloc) else {
        panic!(rt; "ample memory")
    };
    let log = LaneLog {
        replies: Items::of(replies),
        notes: Items::of(notes),
    };
    let Ok(logs) = vec![in alloc; log] else {
        panic!(rt; "ample memory")
    };
    let Ok(commands) = vec![in alloc; command] else {
        panic!(rt; "ample memory")
    };
    let Ok(lanes) = vec![in alloc; Items::of(commands)] else {
        panic!(rt; "ample memory")
    };
    Run {
        trace: Trace {
            lanes: Items::of(lanes),
        },
        shape,
        logs: Items::of(logs),
        chunks: Items::of(Vec::new(alloc)),
        leaks: Items::of(Vec::new(alloc)),
    }
}

// The order of the pool, its lanes, the lane to which the one command sends where it doesn't touch, how many
// notes it is said to have made, and what is wrong then: nothing; a note more; too large; two lanes; and the
// second lane of one.
const ROWS: [(u32, u32, Option<u32>, u32, Option<Breach>); 5] = [
    (9, 1, None, 0, None),
    (
        9,
        1,
        None,
        1,
        Some(Breach::Answers {
            lane: 0,
            command: 0,
        }),
    ),
    (12, 1, None, 0, Some(Breach::Measures)),
    (9, 2, None, 0, Some(Breach::Lanes)),
    (9, 1, Some(1), 0, Some(Breach::Commands)),
];

// Touches what it has no name for, or sends that to a lane.
fn command_of(to: Option<u32>) -> Command {
    match to {
        None => Command::Touch { name: 0 },
        Some(lane) => Command::Send { name: 0, lane },
    }
}

// Each run is left as it is.
#[test]
fn what_no_text_tells_is_refused(rt: HostRuntime) {
    let alloc = rt.alloc();
    for k in 0..5usize {
        let (order, lanes, to, notes, want) = ROWS[k];
        let run = answered(&rt, alloc, shape(order, lanes), command_of(to), notes);
        let Ok(whole) = check_run(alloc, &run) else {
            panic!(rt; "ample memory")
        };
        let Ok(found) = find_breach(alloc, &run) else {
            panic!(rt; "ample memory")
        };
        assert!(rt; whole == want.is_none() && found == want, "row {k}");
        let _run = unsafe { ManuallyDrop::new_unchecked(run) };
    }
}
