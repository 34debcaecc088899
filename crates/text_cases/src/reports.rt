//! Lines of runs that no trace determines, and lines whose numbers all differ. All others are written by the
//! program, in the examples.
use pool_law::{
    Answered, CacheNo, ChunkEnds, Did, Held, LaneLog, LaneLogs, LeakList, Level, Note, NoteList,
    Object, Parcel, Place, RegionId, Reply, ReplyList, RootId, Run, Shape, Trace, ViewData,
};
use run_report::text_of;
use size_classes::DEFAULT_PAGE;
use std::alloc::{AllocError, Global};
use std::str::from_utf8;
use std::test::Fail;
use trace_text::read_trace;

const REGION: RegionId = RegionId {
    place: Place {
        arena: 1,
        chunk: 2,
        offset: 8192,
        len: 32,
    },
    class: 1,
    owner: 0,
    taking: 7,
    uses: 3,
};

// A region with other numbers, into which a root grows.
const LARGER: RegionId = RegionId {
    place: Place {
        arena: 1,
        chunk: 0,
        offset: 12288,
        len: 112,
    },
    class: 6,
    owner: 0,
    taking: 9,
    uses: 1,
};

const ROOT: RootId = RootId {
    place: 5,
    generation: 2,
    capacity: 24,
};

const PARCEL: Parcel = Parcel {
    view: Some(ViewData {
        root: ROOT,
        offset: 4,
        len: 16,
        reader: 1,
        writer: 8,
    }),
};

const SHAPE: Shape = Shape {
    page: DEFAULT_PAGE,
    order: 9,
    arenas: 2,
    chunks: 4,
    handles: 16,
    lanes: 2,
    level: Level::Advanced,
    interval: 1,
};

const TRACE: &[u8] = br#"[[["tryset","a",0,"07"],["compose","b","a"]]]"#;

const TEXT: &str = "0.0 tryset busy 4\n\
    0.1 compose stopped\n\
    note 0 arena 1 1 take 1 2+8192 7\n\
    note 0 cache 0 1 5 back closed 7\n\
    note 0 root 5 1 birth 2 1.2+8192 7 3 24\n\
    note 0 root 5 7 grow 1.0+12288 9 1 100\n\
    note 0 mail 1 0 3 post 5.2 4+16 1 8\n\
    note 0 busy cache 1 39 9\n\
    end roots 1 live 1 leaks 0\n";

fn at(object: Object, number: u64, did: Did) -> Note {
    Note::At {
        object,
        number,
        did,
    }
}

fn notes(alloc: Global) -> Result<Vec<Note>, AllocError> {
    let region = REGION;
    let root = ROOT;
    let notes = vec![in alloc;
        at(Object::Arena(1), 1, Did::Take { class: 1, region }),
        at(
            Object::Cache { lane: 0, class: 1 },
            5,
            Did::Back {
                region,
                no: CacheNo::Closed
            }
        ),
        at(Object::Root(5), 1, Did::Birth { root, region }),
        at(
            Object::Root(5),
            7,
            Did::Grow {
                capacity: 100,
                region: LARGER
            }
        ),
        at(Object::Mail { from: 1, to: 0 }, 3, Did::Post(PARCEL)),
        Note::Busy(Held {
            object: Object::Cache { lane: 1, class: 39 },
            number: 9
        }),
    ]?;
    Ok(notes)
}

fn log(alloc: Global) -> Result<LaneLog, AllocError> {
    let replies = vec![in alloc;
        Answered {
            reply: Reply::Busy(4),
            notes: 0
        },
        Answered {
            reply: Reply::Stopped,
            notes: 0
        },
    ]?;
    Ok(LaneLog {
        replies: ReplyList::of(replies),
        notes: NoteList::of(notes(alloc)?),
    })
}

fn run_of(alloc: Global, trace: Trace) -> Result<Run, AllocError> {
    Ok(Run {
        trace,
        shape: SHAPE,
        logs: LaneLogs::of(vec![in alloc; log(alloc)?]?),
        chunks: ChunkEnds::of(Vec::new(alloc)),
        leaks: LeakList::of(Vec::new(alloc)),
    })
}

#[test]
fn lines_that_no_trace_determines(rt: HostRuntime) -> Result<(), Fail> {
    let alloc = rt.alloc();
    let Ok(read) = read_trace(alloc, TRACE) else {
        panic!(rt; "it is a trace")
    };
    let run = run_of(alloc, read.trace)?;
    let text = text_of(alloc, &run, true)?;
    assert!(rt; from_utf8(text.items()) == Ok(TEXT));
    Ok(())
}
