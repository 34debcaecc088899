//! What each taking was used for, and when.

use crate::order::Order;
use pool_law::{Did, LaneLog, Note, Object, RegionId, RootId};
use std::alloc::{AllocError, Global};
use std::collections::BTreeMap;

/// What a taking is used for.
#[derive(Clone, Copy, Drop)]
pub enum Phase {
    /// A lane has it in hand.
    InHand,
    /// A root lives on it.
    Rooted(RootId),
    /// It waits in a cache.
    Cached,
}

/// A taking while it is used for one thing, from one moment to another.
#[derive(Clone, Copy, Drop)]
pub struct Span {
    pub region: RegionId,
    pub phase: Phase,
    pub from: u64,
    pub until: u64,
}

// A root that lives, and the region that it is on.
#[derive(Clone, Copy, Drop)]
struct Living {
    root: RootId,
    region: RegionId,
}

// The takings that are out as the notes are gone through, by arena and number; and the roots that live,
// by place.
#[derive(Drop)]
struct Uses {
    open: BTreeMap<(u32, u64), Span>,
    living: BTreeMap<u32, Living>,
    spans: Vec<Span>,
}

impl Uses {
    // A taking is used for this from a moment on.
    fn change(&mut self, region: RegionId, phase: Phase, moment: u64) -> Result<(), AllocError> {
        self.close(&region, moment)?;
        let span = Span {
            region,
            phase,
            from: moment,
            until: moment,
        };
        self.open.insert((region.place.arena, region.taking), span)?;
        Ok(())
    }

    // A taking is used for nothing more from a moment on.
    fn close(&mut self, region: &RegionId, moment: u64) -> Result<(), AllocError> {
        let key = (region.place.arena, region.taking);
        if let Some(mut span) = self.open.remove(&key) {
            span.until = moment;
            self.spans.push(span)?;
        }
        Ok(())
    }

    // A root begins to live on a region at a place.
    fn live_on(&mut self, place: u32, living: Living, moment: u64) -> Result<(), AllocError> {
        self.living.insert(place, living)?;
        self.change(living.region, Phase::Rooted(living.root), moment)
    }

    // The root that lives at a place, if one does, leaves its region.
    fn leave(&mut self, place: u32, moment: u64) -> Result<Option<RootId>, AllocError> {
        let Some(living) = self.living.remove(&place) else {
            return Ok(None);
        };
        self.change(living.region, Phase::InHand, moment)?;
        Ok(Some(living.root))
    }

    // Goes through a note at the place of a root.
    fn pass_root(&mut self, place: u32, did: &Did, moment: u64) -> Result<(), AllocError> {
        match did {
            Did::Birth { root, region } => {
                let (root, region) = (*root, *region);
                self.live_on(place, Living { root, region }, moment)
            }
            Did::Grow {
                capacity: _,
                region,
            } => match self.leave(place, moment)? {
                Some(root) => {
                    let region = *region;
                    self.live_on(place, Living { root, region }, moment)
                }
                None => Ok(()),
            },
            Did::End(_) => {
                self.leave(place, moment)?;
                Ok(())
            }
            // The root stays where it is.
            _ => Ok(()),
        }
    }

    // Goes through a note at another object.
    fn pass(&mut self, did: &Did, moment: u64) -> Result<(), AllocError> {
        match did {
            Did::Take { class: _, region } => self.change(*region, Phase::InHand, moment),
            Did::Kept(region) => self.change(*region, Phase::Cached, moment),
            Did::Hit(region) | Did::Shed(region) => self.change(*region, Phase::InHand, moment),
            Did::Give(region) => self.close(region, moment),
            // No region is moved.
            _ => Ok(()),
        }
    }

    // Goes through a note of a lane.
    fn pass_note(&mut self, note: &Note, moment: u64) -> Result<(), AllocError> {
        match note {
            Note::At {
                object: Object::Root(place),
                did,
                ..
            } => self.pass_root(*place, did, moment),
            Note::At { did, .. } => self.pass(did, moment),
            Note::Ref { .. } | Note::Busy(_) => Ok(()),
        }
    }

    // Goes through the notes of the lanes in this order.
    fn pass_all(
        &mut self,
        alloc: Global,
        logs: &[LaneLog],
        order: &Order,
    ) -> Result<(), AllocError> {
        let mut next: Vec<usize> = vec![in alloc; 0; logs.len()]?;
        for step in &order.steps {
            let lane = step.lane as usize;
            if lane < next.len() && lane < logs.len() {
                let at = next[lane];
                next[lane] = at.saturating_add(1);
                if let Some(note) = logs[lane].notes.items().get(at) {
                    self.pass_note(note, step.moment)?;
                }
            }
        }
        Ok(())
    }

    // What is used for something at the end is so until then.
    fn finish(self, last: u64) -> Result<Vec<Span>, AllocError> {
        let Uses {
            open,
            living: _,
            mut spans,
        } = self;
        for span in open.values() {
            let mut span = *span;
            span.until = last;
            spans.push(span)?;
        }
        Ok(spans)
    }
}

/// What the takings are used for, as these notes tell it in this order.
pub fn spans_of(alloc: Global, logs: &[LaneLog], order: &Order) -> Result<Vec<Span>, AllocError> {
    let mut uses = Uses {
        open: BTreeMap::new(alloc),
        living: BTreeMap::new(alloc),
        spans: Vec::new(alloc),
    };
    uses.pass_all(alloc, logs, order)?;
    uses.finish(order.moments)
}
