//! The nodes of each stage.

ghost use Rattle.std.specs.Prelude.{◌≡◌, ◌++◌, [], ◌∷◌, false, if◌then◌else◌, OnOk};
ghost use Rattle.log_order.specs.Staging.{Stage};
ghost use Rattle.log_order.specs.Indexing.{same_stage, listed};

use crate::stages::Stage;
use std::alloc::{AllocError, Global};
use std::collections::BTreeMap;

/// The nodes of each stage.
#[derive(Drop)]
pub struct Index {
    pub map: BTreeMap<Stage, Vec<usize>>,
}

impl Index {
    /// No node.
    pub(crate) fn new(alloc: Global) -> Index
        ensures { (stage : Stage) → listed result stage ≡ [] }
    {
        Index {
            map: BTreeMap::new(alloc),
        }
    }

    // Takes the nodes of a stage out.
    fn take(&mut self, alloc: Global, stage: Stage) -> Vec<usize>
        ensures nodes { result.items ≡ listed self.old stage }
        ensures others { (other : Stage) → same_stage stage other ≡ false →
            listed self.new other ≡ listed self.old other }
    {
        match self.map.remove(&stage) {
            Some(nodes) => nodes,
            None => Vec::new(alloc),
        }
    }

    /// One more node of a stage.
    pub(crate) fn add(&mut self, alloc: Global, stage: Stage, node: usize) -> Result<(), AllocError>
        ensures { (other : Stage) → OnOk result (listed self.new other
            ≡ (if same_stage stage other then listed self.old stage ++ node ∷ []
            else listed self.old other)) }
    {
        let mut nodes = self.take(alloc, stage);
        nodes.push(node)?;
        self.map.insert(stage, nodes)?;
        Ok(())
    }
}
