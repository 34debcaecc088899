//! How the graph of a run is made: a node for each note, behind those that must stand before it.

ghost use Rattle.std.specs.Prelude.{◌≡◌, ℕ, ◌+◌, ◌<◌, Some, length, slice_get, IfOk, OnOk};
ghost use Rattle.pool_law.specs.Lives.{StandsAt};
ghost use Rattle.log_order.specs.Spots.{notes_in};
ghost use Rattle.log_order.specs.Graphs.{IsGraph};
ghost use Rattle.log_order.specs.Staging.{Stage};
ghost use Rattle.log_order.specs.Indexing.{listed};
ghost use Rattle.log_order.specs.Filling.{IsFilled, Links, Grows, IsWhole};

use crate::graph::Graph;
use crate::index::Index;
use crate::spots::{Spot, note_at};
use crate::stages::{Stage, first_want, second_want, stage_of};
use pool_law::{LaneLog, Note};
use std::alloc::{AllocError, Global};

// A node for a note.
fn push_note(
    alloc: Global,
    logs: &[LaneLog],
    spot: Spot,
    note: &Note,
    graph: &mut Graph,
    index: &mut Index,
) -> Result<(), AllocError>
    requires stands { StandsAt (notes_in logs.now) spot.lane spot.at note.now }
    requires filled { IsFilled (notes_in logs.now) graph.old index.old spot.lane spot.at }
    ensures { OnOk result
        (IsFilled (notes_in logs.now) graph.new index.new spot.lane (spot.at + 1)) }
{
    let node = graph.spots.len();
    graph.push(alloc, spot)?;
    index.add(alloc, stage_of(note), node)?;
    Ok(())
}

// A node for each note of a lane.
fn push_lane(
    alloc: Global,
    logs: &[LaneLog],
    lane: usize,
    graph: &mut Graph,
    index: &mut Index,
) -> Result<(), AllocError>
    requires lane { lane < length logs.now }
    requires filled { IsFilled (notes_in logs.now) graph.old index.old lane 0 }
    ensures { OnOk result (IsFilled (notes_in logs.now) graph.new index.new (lane + 1) 0) }
{
    let notes = logs[lane].notes.items();
    graph.begin_lane()?;
    for at in 0..notes.len() {
        push_note(alloc, logs, Spot { lane, at }, &notes[at], graph, index)?;
    }
    Ok(())
}

// These nodes must stand before another, if their notes say so.
fn link_all(
    logs: &[LaneLog],
    firsts: &[usize],
    node: usize,
    graph: &mut Graph,
) -> Result<(), AllocError>
    requires { IsGraph (notes_in logs.now) graph.old }
    ensures { OnOk result (Grows (notes_in logs.now) graph.old graph.new
        ((k first : ℕ) → slice_get firsts.now k ≡ Some first →
        Links (notes_in logs.now) graph.new first node)) }
{
    for first in firsts {
        graph.link(logs, *first, node)?;
    }
    Ok(())
}

// The nodes of a stage must stand before a node, if their notes say so.
fn link_stage(
    logs: &[LaneLog],
    index: &Index,
    stage: Option<Stage>,
    node: usize,
    graph: &mut Graph,
) -> Result<(), AllocError>
    requires { IsGraph (notes_in logs.now) graph.old }
    ensures { OnOk result (Grows (notes_in logs.now) graph.old graph.new
        ((s : Stage) (k first : ℕ) → stage ≡ Some s →
        slice_get (listed index.now s) k ≡ Some first →
        Links (notes_in logs.now) graph.new first node)) }
{
    let Some(stage) = stage else {
        return Ok(());
    };
    let Some(firsts) = index.map.get(&stage) else {
        return Ok(());
    };
    link_all(logs, firsts, node, graph)?;
    Ok(())
}

// The node before this one must stand before it, if their notes say so.
fn link_last(logs: &[LaneLog], node: usize, graph: &mut Graph) -> Result<(), AllocError>
    requires { IsGraph (notes_in logs.now) graph.old }
    ensures { OnOk result (Grows (notes_in logs.now) graph.old graph.new
        ((first : ℕ) → first + 1 ≡ node → Links (notes_in logs.now) graph.new first node)) }
{
    if node == 0 {
        return Ok(());
    }
    graph.link(logs, node - 1, node)?;
    Ok(())
}

// Those that must stand before a node.
fn link_node(
    logs: &[LaneLog],
    index: &Index,
    node: usize,
    graph: &mut Graph,
) -> Result<(), AllocError>
    requires node { node < length graph.old.spots.items }
    requires filled { IsFilled (notes_in logs.now) graph.old index.now (length logs.now) 0 }
    ensures { OnOk result (Grows (notes_in logs.now) graph.old graph.new
        ((first : ℕ) → Links (notes_in logs.now) graph.new first node)) }
{
    let spot = graph.spots[node];
    link_last(logs, node, graph)?;
    let Some(note) = note_at(logs, &spot) else {
        return Ok(());
    };
    link_stage(logs, index, first_want(note), node, graph)?;
    link_stage(logs, index, second_want(note), node, graph)?;
    Ok(())
}

// Those that must stand before each node.
fn link_nodes(logs: &[LaneLog], index: &Index, graph: &mut Graph) -> Result<(), AllocError>
    requires { IsFilled (notes_in logs.now) graph.old index.now (length logs.now) 0 }
    ensures { OnOk result (IsWhole (notes_in logs.now) graph.new) }
{
    for node in 0..graph.spots.len() {
        link_node(logs, index, node, graph)?;
    }
    Ok(())
}

/// The graph of these logs.
pub(crate) fn graph_of(alloc: Global, logs: &[LaneLog]) -> Result<Graph, AllocError>
    ensures { IfOk result (λ graph. IsWhole (notes_in logs.now) graph) }
{
    let mut graph = Graph::new(alloc);
    let mut index = Index::new(alloc);
    for lane in 0..logs.len() {
        push_lane(alloc, logs, lane, &mut graph, &mut index)?;
    }
    link_nodes(logs, &index, &mut graph)?;
    Ok(graph)
}
