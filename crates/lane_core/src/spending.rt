//! What a lane leaves behind where it is abandoned, all of it let go by its parts.

ghost use Rattle.lane_stages.specs.declared.draining.Draining.{Draining};
ghost use Rattle.lane_context.specs.declared.context.Stage.{Stage};

use lane_context::Stage;
use lane_stages::{Allotting, Draining, Ending, Growing, Releasing};
use pool_law::Region;

/// Spends what a stage has in hand. A region's memory stays taken until the program ends.
pub(crate) fn spend(stage: Stage) {
    match stage {
        Stage::Ready => {}
        Stage::Allotting {
            name: _,
            size: _,
            class: _,
            stage,
        } => spend_allotting(stage),
        Stage::Ending(stage) => spend_ending(stage),
        Stage::Sweeping { reply: _, stage } => spend_draining(stage),
        Stage::Closing(stage) => spend_draining(stage),
        Stage::Crossing {
            name: _,
            marks: _,
            stage: _,
        } => {}
        Stage::Parting { name: _, stage } => spend_releasing(stage),
        Stage::Consolidating { plan: _, stage } => spend_allotting(stage),
        Stage::Copying {
            name: _,
            whole: _,
            parts: _,
            stage: _,
        } => {}
        Stage::Replacing {
            name: _,
            whole: _,
            stage,
        } => spend_releasing(stage),
        Stage::Growing {
            name: _,
            view: _,
            size: _,
            class: _,
            stage,
        } => spend_growing(stage),
    }
}

fn spend_releasing(stage: Releasing) {
    let Releasing { ending, left: _ } = stage;
    match ending {
        Some(stage) => spend_ending(stage),
        None => {}
    }
}

fn spend_draining(stage: Draining) {
    match stage {
        Draining::Ask { class: _ } => {}
        Draining::Shed { class: _, left: _ } => {}
        Draining::Give {
            class: _,
            left: _,
            region,
        } => leave(region),
        Draining::Done => {}
    }
}

fn spend_allotting(stage: Allotting) {
    match stage {
        Allotting::Handle => {}
        Allotting::Cache(handle) | Allotting::Arena(handle) | Allotting::Home(handle) => {
            handle.leave()
        }
        Allotting::Birth(handle, region) => {
            handle.leave();
            leave(region)
        }
    }
}

fn spend_growing(stage: Growing) {
    match stage {
        Growing::Ask | Growing::Cache | Growing::Arena => {}
        Growing::Grow(region) => leave(region),
        Growing::Put(_, region) | Growing::Give(_, region) => leave(region),
    }
}

fn spend_ending(stage: Ending) {
    match stage {
        Ending::Root(token) => token.leave(),
        Ending::Cache(region, handle) | Ending::Arena(region, handle) => {
            handle.leave();
            leave(region)
        }
        Ending::Home(handle) => handle.leave(),
    }
}

// Leaves a region's memory as it is.
fn leave(region: Region) {
    let (_id, piece) = region.into_parts();
    piece.leave();
}
