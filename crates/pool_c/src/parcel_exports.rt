//! What C calls to have buffers go from one thread to another.

ghost use Rattle.std.specs.Prelude.{◌≡◌, OnSome};
ghost use Rattle.pool_c.specs.Handles.{Calls, handle_refusal};
ghost use Rattle.pool_c.specs.ParcelHandles.{AcceptsIf, done, IsKnownBy, IsPut, LeavesParcel, PartsIf, room_refusal};

use crate::buffer::PoolBuffer;
use crate::codes::{Refusal, code, give};
use crate::handle::PoolThread;
use crate::parcel_handle::PoolParcel;
use std::alloc::Global;

/// Makes a parcel of a buffer, for the thread of that number, which alone can accept it.
#[unsafe(no_mangle)]
pub extern "C" fn pool_part(
    alloc: Global,
    thread: &mut PoolThread,
    buffer: &PoolBuffer,
    to: u32,
    out: &mut PoolParcel,
) -> i32
    ensures parts { PartsIf (room_refusal out.old.state) buffer.now to thread.old thread.new
        out.old out.new result }
    ensures unfilled { OnSome (handle_refusal thread.old.state) (out.new ≡ out.old) }
{
    if !out.is_empty() {
        return Refusal::Occupied.code();
    }
    let mut held = match thread.take(alloc) {
        Ok(held) => held,
        Err(why) => return why.code(),
    };
    let made = held.part(alloc, buffer, to);
    thread.put(held);
    out.give(made)
}

/// The buffer of a parcel, which is then this thread's. The handle of the parcel is empty then.
#[unsafe(no_mangle)]
pub extern "C" fn pool_accept(
    alloc: Global,
    thread: &mut PoolThread,
    parcel: &mut PoolParcel,
    out: &mut PoolBuffer,
) -> i32
    requires known { IsKnownBy thread.old.slot.held parcel.old.slot.held }
    ensures accepts { Calls thread.old thread.new out.old out.new result
        (AcceptsIf (handle_refusal parcel.old.state) parcel.old parcel.new) }
    ensures kept { OnSome (handle_refusal thread.old.state) (parcel.new ≡ parcel.old) }
{
    let mut held = match thread.take(alloc) {
        Ok(held) => held,
        Err(why) => return why.code(),
    };
    let mut carried = match parcel.take(alloc) {
        Ok(carried) => carried,
        Err(why) => {
            thread.put(held);
            return why.code();
        }
    };
    let answer = held.accept(&mut carried);
    thread.put(held);
    parcel.put_unless(answer.is_ok(), carried);
    give(answer, out)
}

/// Leaves a parcel behind. Its handle is empty then, and its buffer stays counted.
#[unsafe(no_mangle)]
pub extern "C" fn pool_leave_parcel(alloc: Global, parcel: &mut PoolParcel) -> i32
    ensures { LeavesParcel parcel.old parcel.new result }
{
    match parcel.take(alloc) {
        Ok(carried) => {
            drop(carried);
            parcel.empty();
            code(Ok(()))
        }
        Err(why) => why.code(),
    }
}
