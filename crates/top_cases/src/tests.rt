//! Two tables of runs, and a loop over each.

mod gates;
mod rows;

use crate::tests::gates::Barrier;
use crate::tests::rows::{GIVEN, MET_RUNS, MOST, Row, STOPPED_RUNS, met, stopped};
use std::alloc::{AllocError, Global};
use std::sync::Wait;
use std::test::Fail;
use std::thread::Threads;
use trace_top::{ListSink, ListSource, Outcome, Status, line_of, run};

// The words that ask for so many workers.
fn words_of(alloc: Global, workers: &str) -> Result<Vec<String>, AllocError> {
    let mut words = Vec::new(alloc);
    for word in ["--workers", workers] {
        words.push(String::from_str(alloc, word)?)?;
    }
    Ok(words)
}

// What comes of a row, under its gate.
fn ran<R: Threads + Wait + Sync + AllocGlobal>(
    rt: &R,
    row: &Row,
    gate: &Barrier,
) -> Result<(Outcome, ListSink), AllocError> {
    let alloc = rt.alloc();
    let words = words_of(alloc, row.workers)?;
    let mut source = ListSource::new(alloc, row.trace.as_bytes(), GIVEN, &[row.no_read])?;
    let mut sink = ListSink::new(alloc, row.room, MOST, &[row.no_write])?;
    let outcome = run(rt, alloc, &words, &mut source, &mut sink, gate);
    Ok((outcome, sink))
}

// Whether these are the bytes of a text.
fn is_text(bytes: &[u8], text: &str) -> bool {
    bytes == text.as_bytes()
}

// Whether a row comes to its end.
fn holds<R: Threads + Wait + Sync + AllocGlobal>(rt: &R, row: &Row) -> Result<bool, AllocError> {
    let gate = Barrier::new(row.stop, row.meets);
    let (outcome, sink) = ran(rt, row, &gate)?;
    let line = line_of(rt.alloc(), &outcome)?;
    Ok(
        outcome.status == row.status
            && is_text(sink.got(), row.text)
            && is_text(line.items(), row.line)
            && gate.was_asked(row.asked),
    )
}

#[test]
fn each_row_comes_to_its_end(rt: HostRuntime) -> Result<(), Fail> {
    for k in 0..10usize {
        let row = stopped(STOPPED_RUNS[k]);
        assert!(rt; holds(&rt, &row)?, "row {k} of those that are stopped");
    }
    for k in 0..8usize {
        let row = met(MET_RUNS[k]);
        assert!(rt; holds(&rt, &row)?, "row {k} of those that meet");
    }
    Ok(())
}

// `checks/memory` runs it with each allocation refused in turn. Where the receiver of a hand-over is stopped, the
// run writes its text, or writes nothing and says that memory is out.
#[test]
fn tells_where_memory_is_out(rt: HostRuntime) {
    let row = stopped(STOPPED_RUNS[1]);
    let gate = Barrier::new(row.stop, row.meets);
    let Ok((outcome, sink)) = ran(&rt, &row, &gate) else {
        return;
    };
    match outcome.status {
        Status::Leaks => assert!(rt; sink.got() == row.text.as_bytes()),
        Status::Memory => assert!(rt; sink.got().is_empty()),
        _ => panic!(rt; "neither its end nor want of memory"),
    }
}
