//! The reading of a composite through its core's pool seat, one component after another.

ghost use Rattle.std.specs.Prelude.{◌≡◌, ◌+◌, ◌<◌, ◌≤◌, false, [], ◌∷◌, length, OnOk, IfErr};
ghost use Rattle.pool_law.specs.Composites.{size_of, filled};
ghost use Rattle.pool_law.specs.declared.note.Object.TheVariants.{Root};
ghost use Rattle.pool_table.specs.Counts.{HasCount};
ghost use Rattle.shared_pool.specs.Seats.{IsPoolSeat, FoundBusy};
ghost use Rattle.shared_pool.specs.SeatViews.{view_of, SameSeat};
ghost use Rattle.shared_composite.specs.Cores.{IsCore, IsKept, IsKnown, turns_of};
ghost use Rattle.shared_composite.specs.Reading.{Gets, HasRead, FoundHeldPart};

use crate::cores::Core;
use pool_law::{Held, Part};
use shared_pool::{PoolSeat, SharedPool, Went};

/// Fills `out` with the bytes of a core's components, from an index on. Where another seat was in the
/// section of a component's root, nothing more is read.
pub(crate) fn read_parts(
    pool: &SharedPool,
    core: &mut Core,
    start: u32,
    out: &mut [u8],
) -> Result<(), Held>
    requires core { IsCore pool.now core.old }
    requires turns { 125 ≤ turns_of core.old }
    requires range { start + length out.old ≤ size_of core.old.parts }
    ensures core { IsCore pool.now core.new }
    ensures kept { IsKept core.old core.new }
    ensures turns { turns_of core.old ≤ turns_of core.new + 25 }
    ensures len { length out.new ≡ length out.old }
    ensures read { OnOk result (HasRead pool.now core.old core.new start out.new) }
    ensures held { IfErr result (FoundHeldPart pool.now core.old core.new start out.old out.new) }
{
    let mut skip = start;
    let mut done = 0;
    for k in 0..core.parts.parts() {
        let part = core.parts.part(k);
        let skipped = skip.min(part.len);
        let len = ((part.len - skipped) as usize).min(out.len() - done);
        let range = Part {
            root: part.root,
            offset: part.offset + skipped,
            len: len as u32,
        };
        get(pool, &mut core.seat, range, &mut out[done..done + len])?;
        skip -= skipped;
        done += len;
    }
    Ok(())
}

// Fills `out` with the bytes of a part of a root. None are got of an empty part.
fn get(pool: &SharedPool, seat: &mut PoolSeat, part: Part, out: &mut [u8]) -> Result<(), Held>
    requires seat { IsPoolSeat pool.now seat.old }
    requires turn { 0 < (view_of seat.old).turns }
    requires counts { HasCount part.root (view_of seat.old) }
    requires known { IsKnown (view_of seat.old) part }
    requires range { length out.old ≡ part.len }
    ensures seat { IsPoolSeat pool.now seat.new }
    ensures same { SameSeat seat.old seat.new }
    ensures len { length out.new ≡ part.len }
    ensures got { OnOk result (Gets pool.now (filled (part ∷ [])) seat.old seat.new out.new) }
    ensures held { IfErr result (λ held. (out.new ≡ out.old) × (0 < part.len)
        × FoundBusy pool.now (Root part.root.place) false seat.old seat.new held) }
{
    if part.len == 0 {
        return Ok(());
    }
    match pool.read(seat, part.root, part.offset, out, false) {
        Went::Did(_number, ()) => Ok(()),
        Went::Held(held, ()) => Err(held),
    }
}
