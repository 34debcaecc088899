//! The walk over a graph: from a node back to those that must stand before it.

ghost use Rattle.std.specs.Prelude.{◌≡◌, ℕ, ◌-◌, ◌<◌, ◌≤◌, [], ◌∷◌, ◌++◌, Some, length, slice_get, set, take, drop, replicate, IfOk, OnOk, MatchOption};
ghost use Rattle.topo_order.specs.Sorting.{Graph, AreNodes, IsCircle};
ghost use Rattle.topo_order.specs.Walking.{IsMarked, Stands, IsFurther, IsVisited};
ghost use Rattle.topo_order.specs.declared.walk.Mark.TheVariants.{New, Open, Done};

use std::alloc::{AllocError, Global};

/// How far the walk has come with a node.
#[derive(Clone, Copy, Drop)]
pub(crate) enum Mark {
    /// It was not met.
    New,
    /// It stands on the path, at this depth, and so many of its needs are in the order.
    Open { depth: usize, tried: usize },
    /// It stands in the order, at this place.
    Done(usize),
}

/// The nodes that were met.
#[derive(Drop)]
pub(crate) struct Walk {
    marks: Vec<Mark>,
    // Each must stand behind the next.
    path: Vec<usize>,
    order: Vec<usize>,
}

impl Walk {
    /// No node was met.
    pub(crate) fn new(alloc: Global, graph: &[Vec<usize>]) -> Result<Walk, AllocError>
        ensures stands { IfOk result (λ walk. Stands graph.now walk) }
        ensures path { IfOk result (λ walk. walk.path.items ≡ []) }
    {
        let marks = vec![in alloc; Mark::New; graph.len()]?;
        Ok(Walk {
            marks,
            path: Vec::new(alloc),
            order: Vec::new(alloc),
        })
    }

    // A new node stands at the end of the path.
    fn open(&mut self, node: usize) -> Result<(), AllocError>
        requires { node < length self.old.marks.items }
        ensures marks { OnOk result (self.new.marks.items
            ≡ set self.old.marks.items node (Open (length self.old.path.items) 0)) }
        ensures path { OnOk result (self.new.path.items ≡ self.old.path.items ++ node ∷ []) }
        ensures order { OnOk result (self.new.order.items ≡ self.old.order.items) }
    {
        let depth = self.path.len();
        self.path.push(node)?;
        self.marks[node] = Mark::Open { depth, tried: 0 };
        Ok(())
    }

    // The node at the end of the path stands in the order.
    fn close(&mut self, node: usize) -> Result<(), AllocError>
        requires { node < length self.old.marks.items }
        ensures marks { OnOk result (self.new.marks.items
            ≡ set self.old.marks.items node (Done (length self.old.order.items))) }
        ensures path { OnOk result (self.new.path.items
            ≡ take (length self.old.path.items - 1) self.old.path.items) }
        ensures order { OnOk result (self.new.order.items ≡ self.old.order.items ++ node ∷ []) }
    {
        let place = self.order.len();
        self.order.push(node)?;
        self.marks[node] = Mark::Done(place);
        let _ = self.path.pop();
        Ok(())
    }

    // The last node of the path.
    fn last(&self) -> usize
        requires { 0 < length self.now.path.items }
        ensures { slice_get self.now.path.items (length self.now.path.items - 1) ≡ Some result }
    {
        self.path[self.path.len() - 1]
    }

    // How far the walk has come with a node.
    fn mark_of(&self, node: usize) -> Mark
        requires { node < length self.now.marks.items }
        ensures { IsMarked self.now.marks.items node result }
    {
        self.marks[node]
    }

    // Goes one step further at the end of the path, or finds that what must stand before the node
    // there stands on the path, at this depth.
    fn step(&mut self, graph: &[Vec<usize>]) -> Result<Option<usize>, AllocError>
        requires nodes { AreNodes graph.now }
        requires stands { Stands graph.now self.old }
        requires some { 0 < length self.old.path.items }
        ensures { IfOk result (λ depth. MatchOption depth
            (IsFurther graph.now self.old self.new)
            (λ depth. IsCircle graph.now (drop depth self.new.path.items))) }
    {
        let node = self.last();
        let Mark::Open { depth, tried } = self.mark_of(node) else {
            unreachable!()
        };
        let needs = &graph[node];
        if tried == needs.len() {
            self.close(node)?;
            return Ok(None);
        }
        let next = needs[tried];
        match self.mark_of(next) {
            Mark::New => self.open(next)?,
            Mark::Open { depth, tried: _ } => return Ok(Some(depth)),
            Mark::Done(_) => {
                self.marks[node] = Mark::Open {
                    depth,
                    tried: tried + 1,
                };
            }
        }
        Ok(None)
    }

    /// Goes to a node, and through all that must stand before it; or finds that what must stand before
    /// the last node of the path stands on it, at this depth.
    pub(crate) fn visit(
        &mut self,
        graph: &[Vec<usize>],
        node: usize,
    ) -> Result<Option<usize>, AllocError>
        requires nodes { AreNodes graph.now }
        requires stands { Stands graph.now self.old }
        requires path { self.old.path.items ≡ [] }
        requires node { node < length graph.now }
        ensures { IfOk result (λ depth. MatchOption depth
            (IsVisited graph.now node self.old self.new)
            (λ depth. IsCircle graph.now (drop depth self.new.path.items))) }
    {
        match self.mark_of(node) {
            Mark::New => self.open(node)?,
            Mark::Open { depth: _, tried: _ } | Mark::Done(_) => return Ok(None),
        }
        while !self.path.is_empty() {
            let depth = self.step(graph)?;
            match depth {
                Some(depth) => return Ok(Some(depth)),
                None => {}
            }
        }
        Ok(None)
    }

    /// The path from this depth on.
    pub(crate) fn path_from(&self, alloc: Global, depth: usize) -> Result<Vec<usize>, AllocError>
        requires { depth ≤ length self.now.path.items }
        ensures { IfOk result (λ path. path.items ≡ drop depth self.now.path.items) }
    {
        let mut path = Vec::new(alloc);
        for node in &self.path[depth..] {
            path.push(*node)?;
        }
        Ok(path)
    }

    /// The order.
    pub(crate) fn into_order(self) -> Vec<usize>
        ensures { result.items ≡ self.order.items }
    {
        self.order
    }
}
