//! What was done with a root, and when.

use crate::order::Order;
use crate::roots::RootName;
use pool_law::{Did, LaneLog, Note, Object, RefDid};
use std::alloc::{AllocError, Global};

/// Something that was done with a root.
#[derive(Clone, Copy, Drop)]
pub enum Act {
    Begins,
    Sets { offset: u32, len: u32 },
    Gets { offset: u32, len: u32 },
    Touches,
    /// It has so many bytes from then on.
    Grows(u32),
    Ends,
    Counted(u32),
}

/// The moment at which a lane did it.
#[derive(Clone, Copy, Drop)]
pub struct Moment {
    pub lane: u32,
    pub moment: u64,
    pub act: Act,
}

// The acts on a root as the notes are gone through.
#[derive(Drop)]
struct Acts {
    name: RootName,
    lives: bool,
    count: u32,
    acts: Vec<Moment>,
}

// A length in 32 bits.
fn short(len: usize) -> u32 {
    u32::try_from(len).unwrap_or(u32::MAX)
}

impl Acts {
    // What a step in the section of the root's place does with the root.
    fn step(&mut self, did: &Did) -> Option<Act> {
        match did {
            Did::Birth { root, .. } => {
                self.lives = root.generation == self.name.generation;
                self.lives.then_some(Act::Begins)
            }
            Did::Set { offset, bytes } => self.lives.then_some(Act::Sets {
                offset: *offset,
                len: short(bytes.items().len()),
            }),
            Did::Get { offset, bytes } => self.lives.then_some(Act::Gets {
                offset: *offset,
                len: short(bytes.items().len()),
            }),
            Did::Touch => self.lives.then_some(Act::Touches),
            Did::Extend(capacity) | Did::Grow { capacity, .. } => {
                self.lives.then_some(Act::Grows(*capacity))
            }
            Did::End(_) => {
                let lived = self.lives;
                self.lives = false;
                lived.then_some(Act::Ends)
            }
            // The other notes at a root place, and those that stand at none, change nothing of the root.
            _ => None,
        }
    }

    // What a step on the root's count makes of it.
    fn count(&mut self, did: RefDid) -> Option<Act> {
        self.count = match did {
            RefDid::Born => 1,
            RefDid::Retain => self.count.saturating_add(1),
            RefDid::Kept | RefDid::Ended => self.count.saturating_sub(1),
            RefDid::Vacated | RefDid::Look(_) => return None,
        };
        Some(Act::Counted(self.count))
    }

    // What a note does with the root.
    fn act_of(&mut self, note: &Note) -> Option<Act> {
        match note {
            Note::At {
                object: Object::Root(place),
                did,
                ..
            } => {
                if *place == self.name.place {
                    self.step(did)
                } else {
                    None
                }
            }
            Note::Ref { root, did } => {
                if root.place == self.name.place && root.generation == self.name.generation {
                    self.count(*did)
                } else {
                    None
                }
            }
            _ => None,
        }
    }
}

/// All that was done with a root, in order.
pub fn acts_of(
    alloc: Global,
    logs: &[LaneLog],
    order: &Order,
    name: RootName,
) -> Result<Vec<Moment>, AllocError> {
    let mut acts = Acts {
        name,
        lives: false,
        count: 0,
        acts: Vec::new(alloc),
    };
    let mut next: Vec<usize> = vec![in alloc; 0; logs.len()]?;
    for step in &order.steps {
        let lane = step.lane as usize;
        if lane < next.len() && lane < logs.len() {
            let at = next[lane];
            next[lane] = at.saturating_add(1);
            if let Some(note) = logs[lane].notes.items().get(at) {
                if let Some(act) = acts.act_of(note) {
                    acts.acts.push(Moment {
                        lane: step.lane,
                        moment: step.moment,
                        act,
                    })?;
                }
            }
        }
    }
    Ok(acts.acts)
}
