//! The text of what the workers told.

ghost use Rattle.std.specs.Prelude.{◌≡◌, ℕ, ◌<◌, List, IfOk, Some, length, map, slice_get};
ghost use Rattle.frame_hash.specs.Hashes.{hash_of};
ghost use Rattle.frame_text.specs.Lines.{text_of};
ghost use Rattle.frame_cut.specs.Tellings.{Tells};

use crate::closing::StreamEnd;
use frame_hash::FrameHash;
use frame_text::{write_end, write_frame};
use pool_law::Bytes;
use run_report::Writer;
use std::alloc::{AllocError, Global};

/// A line for each frame, in order, and the last line. Frame `k` was told of by worker `k` modulo
/// their number.
pub fn text_of(alloc: Global, told: &StreamEnd) -> Result<Bytes, AllocError>
    requires { (frames : List (List ℕ)) × Tells told.now frames }
    ensures { IfOk result (λ text. (frames : List (List ℕ)) → Tells told.now frames →
        text ≡ text_of frames) }
{
    let mut writer = Writer::new(alloc);
    for number in 0..told.frames {
        let hash = hash_at(told, number as usize);
        write_frame(&mut writer, u64::from(number), hash.len, &hash.digest)?;
    }
    write_end(&mut writer, u64::from(told.frames))?;
    Ok(writer.into_bytes())
}

// What was told of the frame of this number.
fn hash_at(told: &StreamEnd, number: usize) -> &FrameHash
    requires { (frames : List (List ℕ)) × (Tells told.now frames × (number < length frames)) }
    ensures { (frames : List (List ℕ)) → Tells told.now frames →
        slice_get (map hash_of frames) number ≡ Some result.now }
{
    let workers = told.hashes.len();
    let list = &told.hashes[number % workers];
    &list[number / workers].hash
}
