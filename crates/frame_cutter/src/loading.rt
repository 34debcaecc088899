//! How a block of a stream comes, and what is found in it.

ghost use Rattle.std.specs.Prelude.{◌≡◌, ℕ, ◌+◌, ◌/◌, ◌≤◌, List, [], ◌++◌, length, take, Some, IfOk, IfErr, OnOk, OnErr, vec_capacity};
ghost use Rattle.text_ends.specs.Ends.{Rose};
ghost use Rattle.frame_core.specs.Frames.{failure_of, refusal};
ghost use Rattle.frame_slices.specs.Slices.{HasCut};
ghost use Rattle.frame_cutter.specs.Finds.{GoThrough};
ghost use Rattle.frame_cutter.specs.Gifts.{Gives};
ghost use Rattle.frame_cutter.specs.Loads.{IsLoaded};

use frame_core::FrameNo;
use frame_slices::{Found, Slicer};
use text_ends::{Failed, Source};

/// What came into a block.
#[derive(Drop)]
pub(crate) enum Loaded {
    /// The next bytes of the stream: as many as the block has room for, or the last.
    Block { last: bool },
    /// They meet a refusal.
    Refused(FrameNo),
    /// A read failed.
    Fault,
}

// How much of a block came.
#[derive(Drop)]
struct Filled {
    /// So many bytes, at its front.
    count: usize,
    /// Nothing comes behind them.
    last: bool,
}

/// What came into a block, and the slicer behind it, with what it found there.
#[derive(Drop)]
pub(crate) struct Loading {
    pub loaded: Loaded,
    pub slicer: Slicer,
    pub finds: Vec<Found>,
}

/// Reads the next bytes of the stream into a block of this size, and lets the slicer go through them
/// there. What it finds is pushed onto the list, which has room for it.
pub(crate) fn load<S: Source>(
    source: &mut S,
    slicer: Slicer,
    finds: Vec<Found>,
    size: usize,
    block: &mut [u8],
) -> Loading
    requires cut { (bytes : List ℕ) × (own : List ℕ) × HasCut slicer bytes own }
    requires room { (finds.items ≡ []) × (size / 4 + 2 ≤ vec_capacity finds) }
    ensures len { length block.new ≡ length block.old }
    ensures loaded { length block.old ≡ size →
        IsLoaded S.left S.faults result.loaded source.old source.new
        slicer result.slicer result.finds.items block.new }
{
    let mut slicer = slicer;
    let mut finds = finds;
    let most = size.min(block.len());
    let loaded = match read_block(source, &mut block[..most]) {
        Ok(Filled { count, last }) => match go_through(&mut slicer, &mut finds, &block[..count]) {
            Ok(()) => Loaded::Block { last },
            Err(why) => Loaded::Refused(why),
        },
        Err(Failed) => Loaded::Fault,
    };
    Loading {
        loaded,
        slicer,
        finds,
    }
}

// Reads until the block is full, or the stream ends.
fn read_block<S: Source>(source: &mut S, block: &mut [u8]) -> Result<Filled, Failed>
    ensures len { length block.new ≡ length block.old }
    ensures filled { IfOk result (λ f. (f.count ≤ length block.new)
        × Gives S.left S.faults source.old source.new (length block.new)
        (take f.count block.new) f.last) }
    ensures failed { OnErr result (Rose (S.faults source.old) (S.faults source.new)) }
{
    let mut count = 0;
    while count < block.len() {
        match source.read(&mut block[count..])? {
            0 => return Ok(Filled { count, last: true }),
            more => count += more,
        }
    }
    Ok(Filled { count, last: false })
}

// Finds what each frame takes of the block.
fn go_through(slicer: &mut Slicer, finds: &mut Vec<Found>, block: &[u8]) -> Result<(), FrameNo>
    requires cut { (bytes : List ℕ) × (own : List ℕ) × HasCut slicer.old bytes own }
    requires room { (finds.old.items ≡ []) × (length block.now / 4 + 2 ≤ vec_capacity finds.old) }
    ensures through { OnOk result ((bytes : List ℕ) (own : List ℕ) → HasCut slicer.old bytes own →
        GoThrough finds.new.items block.now 0 bytes own slicer.new) }
    ensures refused { IfErr result (λ why. (bytes : List ℕ) (own : List ℕ) →
        HasCut slicer.old bytes own → refusal (failure_of (bytes ++ block.now)) ≡ Some why) }
{
    let mut used = 0;
    while used < block.len() {
        let found = slicer.go_on(block, used)?;
        used = found.used;
        finds.push_reserved(found);
    }
    Ok(())
}
