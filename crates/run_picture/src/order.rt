//! One order of all notes, by which a picture places them in time.

use pool_law::{Did, LaneLog, Note, Object, RefDid, RootId};
use std::alloc::{AllocError, Global};
use std::collections::BTreeMap;

/// A note in the order: the next of its lane, and when it is drawn. Notes that change nothing, as the
/// close of an empty cache, share the moment of what follows.
#[derive(Clone, Copy, Drop)]
pub struct Step {
    pub lane: u32,
    pub moment: u64,
}

/// All notes of some logs, in one order: each lane's in its own, and each object's by number, a fetch
/// behind its post and the last count of a root behind the others, wherever there is such an order.
#[derive(Drop)]
pub struct Order {
    /// The notes.
    pub steps: Vec<Step>,
    /// How many moments there are.
    pub moments: u64,
}

// What the notes so far say of objects.
#[derive(Drop)]
struct Seen {
    objects: BTreeMap<(u32, u32, u32), u64>,
    posts: BTreeMap<(u32, u32), u64>,
    counts: BTreeMap<(u32, u32), u64>,
}

// The notes of the lanes as they are gone through.
#[derive(Drop)]
struct Playing {
    seen: Seen,
    next: Vec<usize>,
    order: Order,
}

// The key of an object with a history; the kind first.
fn key_of(object: &Object) -> (u32, u32, u32) {
    match *object {
        Object::Arena(number) => (0, number, 0),
        Object::Cache { lane, class } => (1, lane, class),
        Object::Bin(lane) => (2, lane, 0),
        Object::Mail { from, to } => (3, from, to),
        Object::Root(place) => (4, place, 0),
    }
}

impl Seen {
    fn new(alloc: Global) -> Seen {
        Seen {
            objects: BTreeMap::new(alloc),
            posts: BTreeMap::new(alloc),
            counts: BTreeMap::new(alloc),
        }
    }

    fn number_at(&self, object: &Object) -> u64 {
        self.objects.get(&key_of(object)).copied().unwrap_or(0)
    }

    fn count_of(&self, root: &RootId) -> u64 {
        let key = (root.place, root.generation);
        self.counts.get(&key).copied().unwrap_or(0)
    }

    // Whether a note may come next.
    fn may_come(&self, note: &Note) -> bool {
        match note {
            Note::At {
                object: Object::Mail { from, to },
                number,
                did: Did::Fetch(_),
            } => *number <= self.posts.get(&(*from, *to)).copied().unwrap_or(0),
            Note::At {
                object: Object::Mail { .. },
                ..
            } => true,
            Note::At { object, number, .. } => *number <= self.number_at(object).saturating_add(1),
            Note::Ref { root, did } => match did {
                RefDid::Kept => self.count_of(root) > 1,
                RefDid::Ended => self.count_of(root) <= 1,
                _ => true,
            },
            Note::Busy(held) => held.number <= self.number_at(&held.object),
        }
    }

    // After a note.
    fn pass(&mut self, note: &Note) -> Result<(), AllocError> {
        match note {
            Note::At {
                object: Object::Mail { from, to },
                did: Did::Post(_),
                ..
            } => {
                let key = (*from, *to);
                let posts = self.posts.get(&key).copied().unwrap_or(0).saturating_add(1);
                self.posts.insert(key, posts)?;
            }
            Note::At { object, number, .. } => {
                self.objects.insert(key_of(object), *number)?;
            }
            Note::Ref { root, did } => {
                let count = self.count_of(root);
                let then = match did {
                    RefDid::Born => 1,
                    RefDid::Retain => count.saturating_add(1),
                    RefDid::Kept | RefDid::Ended => count.saturating_sub(1),
                    RefDid::Vacated | RefDid::Look(_) => count,
                };
                self.counts.insert((root.place, root.generation), then)?;
            }
            Note::Busy(_) => {}
        }
        Ok(())
    }
}

// Whether a note is drawn at a moment of its own.
fn takes_time(note: &Note) -> bool {
    !matches!(
        note,
        Note::At {
            did: Did::Close(0) | Did::Trim(0),
            ..
        }
    )
}

impl Playing {
    // The next note of a lane, if it has one.
    fn next_of<'a>(&self, logs: &'a [LaneLog], lane: usize) -> Option<&'a Note> {
        let at = *self.next.get(lane)?;
        logs.get(lane)?.notes.items().get(at)
    }

    // The next note of a lane comes.
    fn take(&mut self, lane: usize, note: &Note) -> Result<(), AllocError> {
        self.seen.pass(note)?;
        self.order.steps.push(Step {
            lane: u32::try_from(lane).unwrap_or(u32::MAX),
            moment: self.order.moments,
        })?;
        if takes_time(note) {
            self.order.moments = self.order.moments.saturating_add(1);
        }
        if lane < self.next.len() {
            self.next[lane] = self.next[lane].saturating_add(1);
        }
        Ok(())
    }

    // Each lane makes its next note, where that may come. Whether one did.
    fn round(&mut self, logs: &[LaneLog]) -> Result<bool, AllocError> {
        let mut moved = false;
        for lane in 0..logs.len() {
            if let Some(note) = self.next_of(logs, lane) {
                if self.seen.may_come(note) {
                    self.take(lane, note)?;
                    moved = true;
                }
            }
        }
        Ok(moved)
    }

    // The first lane that has a note left makes it, though it may not come. Whether one did.
    fn force(&mut self, logs: &[LaneLog]) -> Result<bool, AllocError> {
        for lane in 0..logs.len() {
            if let Some(note) = self.next_of(logs, lane) {
                self.take(lane, note)?;
                return Ok(true);
            }
        }
        Ok(false)
    }
}

// How many notes there are.
fn count_of(logs: &[LaneLog]) -> usize {
    let mut count: usize = 0;
    for log in logs {
        count = count.saturating_add(log.notes.items().len());
    }
    count
}

/// One order of all notes. The lanes take turns, a note each, and a lane whose next note may not come
/// waits; where none can go on, which no pool makes happen, the first goes on all the same.
pub fn order_of(alloc: Global, logs: &[LaneLog]) -> Result<Order, AllocError> {
    let mut play = Playing {
        seen: Seen::new(alloc),
        next: vec![in alloc; 0; logs.len()]?,
        order: Order {
            steps: Vec::new(alloc),
            moments: 0,
        },
    };
    for _turn in 0..count_of(logs) {
        if !play.round(logs)? && !play.force(logs)? {
            break;
        }
    }
    Ok(play.order)
}
