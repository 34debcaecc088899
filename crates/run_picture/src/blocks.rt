//! The takings of an arena, each from the note that took it to the note that gave it back.

ghost use Rattle.std.specs.Prelude.{◌≡◌, ◌++◌, Some, if◌then◌else◌, IfOk, OnOk};
ghost use Rattle.pool_law.specs.declared.id.RegionId.{RegionId};
ghost use Rattle.pool_law.specs.Arenas.{listed};
ghost use Rattle.arena_laws.specs.Returns.{gives};
ghost use Rattle.run_picture.specs.Blocks.{arena_blocks, blocks_from, region_taken};
ghost use Rattle.run_picture.specs.Returning.{block_before, return_in};
ghost use Rattle.run_picture.specs.Slots.{dones_in};

use crate::history::{Done, history_of};
use crate::returns::Returns;
use pool_law::{Did, Items, RegionId, Run};
use std::alloc::{AllocError, Global};

/// The note that gave a taking back.
#[derive(Clone, Copy, PartialEq, Eq, Debug, Drop)]
pub struct Return {
    /// The number of the note in its arena's history, from 1.
    pub number: u64,
    /// The lane that noted it.
    pub lane: usize,
}

/// One taking of an arena: bytes of a chunk, from one note to another.
#[derive(Clone, Copy, PartialEq, Eq, Debug, Drop)]
pub struct Block {
    /// What was taken, and where it lies.
    pub region: RegionId,
    /// The number of the note that took it, in its arena's history, from 1.
    pub number: u64,
    /// The lane that noted it.
    pub lane: usize,
    /// The note that gave it back; none while it is out.
    pub back: Option<Return>,
}

/// Takings, in the order of their notes.
pub type BlockList = Items<Block>;

/// The takings of an arena in a run, legal or not, each once. Takes time linear in the logs.
pub fn blocks_at(alloc: Global, run: &Run, arena: u32) -> Result<BlockList, AllocError>
    ensures { IfOk result (λ blocks. blocks ≡ arena_blocks run.now arena) }
{
    let dones = history_of(alloc, run.logs.items(), arena)?;
    let blocks = blocks_in(alloc, &dones)?;
    Ok(BlockList::of(blocks))
}

/// The takings of a history.
pub fn blocks_in(alloc: Global, dones: &[Done]) -> Result<Vec<Block>, AllocError>
    ensures { IfOk result (λ blocks. blocks.items ≡ blocks_from 1 (dones_in dones.now)) }
{
    let mut reading = Reading {
        returns: Returns::new(alloc),
        blocks: Vec::new(alloc),
    };
    let mut index = dones.len();
    while index > 0 {
        index -= 1;
        let done = dones[index];
        reading.step(index as u64 + 1, done.lane, done.did)?;
    }
    let mut blocks = reading.blocks;
    blocks.reverse();
    Ok(blocks)
}

// A history as it is read from its end, so that a return is known before its taking: the takings,
// the last first.
#[derive(Drop)]
struct Reading {
    returns: Returns,
    blocks: Vec<Block>,
}

impl Reading {
    // Reads a note.
    fn step(&mut self, number: u64, lane: usize, did: &Did) -> Result<(), AllocError>
        ensures blocks { OnOk result (self.new.blocks.items ≡ self.old.blocks.items
            ++ listed (region_taken did.now) (block_before self.old.returns number lane)) }
        ensures returns { (r : RegionId) → OnOk result (return_in self.new.returns r
            ≡ (if gives r did.now then Some (record { number = number; lane = lane })
            else return_in self.old.returns r)) }
    {
        match did {
            Did::Take { class: _, region } => {
                let back = self.returns.of(region);
                self.blocks.push(Block {
                    region: *region,
                    number,
                    lane,
                    back,
                })?;
                Ok(())
            }
            Did::Give(region) => self.returns.put(region, Return { number, lane }),
            _ => Ok(()),
        }
    }
}
