//! The place of one root after another: the root that is there, its memory, and the place's handle.

ghost use Rattle.std.specs.Prelude.{◌≡◌, ◌+◌, ◌-◌, ◌^◌, ◌<◌, ◌≤◌, length, Some, None, IsSome, true, false};
ghost use Rattle.std.specs.Fn.{FnOnceReturnsAt};
ghost use Rattle.ground.specs.Ground.{with_bytes};
ghost use Rattle.pool_law.specs.Roots.{bytes_at};
ghost use Rattle.pool_law.specs.declared.note.Did.{Did};
ghost use Rattle.pool_law.specs.declared.report.Access.{Access};
ghost use Rattle.shared_pool.specs.RootPlaces.{last_generation};
ghost use Rattle.shared_pool.specs.PlaceViews.{root_seen};
ghost use Rattle.shared_pool.specs.PlaceSteps.{MayAccess, Accesses, shown, cleared, born_root, with_born, vacated};

mod held_bytes;

use ground::Piece;
use handle_bin::Handle;
use pool_law::{Access, Place, Region, RegionId, RootId, Watch};
use std::marker::Model;
use std::mem::replace;

// The generation of the last root that a place has a name for.
const LAST_GENERATION: u32 = u32::MAX;

// A root: its name, the capacity that it has by now, and its region. Its bytes are the first of the
// region's, as many as its capacity.
#[derive(Clone, Copy, Drop)]
pub(crate) struct Root {
    pub(crate) root: RootId,
    pub(crate) capacity: u32,
    pub(crate) region: RegionId,
}

// What a root has while it is present: the memory of its region, and the handle of its place.
pub(crate) struct Held {
    pub(crate) piece: Piece,
    pub(crate) handle: Handle,
}

/// The place of one root after another (Netty: `PooledByteBuf`). It must be spent.
pub struct RootPlace {
    pub(crate) generation: u32,
    // The root of the last birth. What must be taken out as it ends stands apart, so that an end
    // writes over little.
    pub(crate) last: Root,
    pub(crate) present: Option<Held>,
}

impl Model for RootPlace {
    ghost use Rattle.shared_pool.specs.RootPlaces.{PlaceState};

    ghost Value = { PlaceState };

    ghost use Rattle.shared_pool.specs.PlaceViews.{state_in};

    ghost view = { state_in };
}

impl Root {
    // What stands at a place where no root was born yet.
    pub(crate) fn none() -> Root {
        let place = Place {
            arena: 0,
            chunk: 0,
            offset: 0,
            len: 0,
        };
        Root {
            root: RootId {
                place: 0,
                generation: 0,
                capacity: 0,
            },
            capacity: 0,
            region: RegionId {
                place,
                class: 0,
                owner: 0,
                taking: 0,
                uses: 0,
            },
        }
    }
}

impl RootPlace {
    /// Notes that the root is still in use.
    #[inline]
    pub(crate) fn touch(&mut self, lane: u32)
        requires { MayAccess 0 0 self.old }
        ensures { Accesses self.old Did.Touch (Access.Touch lane) self.new }
    {
        let Some(held) = &mut self.present else {
            unreachable!()
        };
        held.record(Access::Touch { lane });
    }

    /// Lays bytes over those of the root, from an offset on.
    #[inline]
    pub(crate) fn set(&mut self, lane: u32, offset: u32, bytes: &[u8])
        requires { MayAccess offset (length bytes.now) self.old }
        ensures { Accesses self.old (Did.Set offset bytes.now)
            (Access.Set lane offset (length bytes.now)) self.new }
    {
        let Some(held) = &mut self.present else {
            unreachable!()
        };
        held.set(offset, bytes);
        let len = held.count(bytes);
        held.record(Access::Set { lane, offset, len });
    }

    /// Copies bytes of the root out, from an offset on.
    #[inline]
    pub(crate) fn get(&mut self, lane: u32, offset: u32, out: &mut [u8])
        requires { MayAccess offset (length out.old) self.old }
        ensures len { length out.new ≡ length out.old }
        ensures did { Accesses self.old (Did.Get offset out.new)
            (Access.Get lane offset (length out.new)) self.new }
    {
        let Some(held) = &mut self.present else {
            unreachable!()
        };
        held.get(offset, out);
        let len = held.count(out);
        held.record(Access::Get { lane, offset, len });
    }

    /// Calls `f` once with bytes of the root, from an offset on.
    #[inline]
    pub(crate) fn show<R, F: FnOnce(&[u8]) -> R>(
        &mut self,
        lane: u32,
        offset: u32,
        len: u32,
        f: F,
    ) -> R
        requires may { MayAccess offset len self.old }
        requires callable { F.IsAlwaysCallable f }
        ensures len { length (bytes_at (shown self.new) offset len) ≡ len }
        ensures answer { FnOnceReturnsAt F.FnOnce f (bytes_at (shown self.new) offset len) result }
        ensures did { let bytes = bytes_at (shown self.new) offset len in
            Accesses self.old (Did.Get offset bytes)
            (Access.Get lane offset (length bytes)) self.new }
    {
        let Some(held) = &mut self.present else {
            unreachable!()
        };
        held.record(Access::Get { lane, offset, len });
        held.show(offset, len, f)
    }

    /// Whether no name is left for another root.
    #[inline]
    pub(crate) fn is_worn(&self) -> bool
        ensures worn { result ≡ true → self.now.generation ≡ last_generation }
        ensures young { result ≡ false → self.now.generation < last_generation }
    {
        self.generation == LAST_GENERATION
    }

    /// A root is born at this place, with the handle of the place and a region whose first bytes
    /// are cleared. It has the next generation.
    #[inline(always)]
    pub(crate) fn bear(
        &mut self,
        mut handle: Handle,
        region: Region,
        capacity: u32,
        watch: Option<Watch>,
    ) -> RootId
        requires vacant { self.old.present ≡ None }
        requires few { self.old.generation < last_generation }
        requires uses { region.id.uses < 2 ^ 64 - 1 }
        requires capacity { capacity ≤ region.id.place.len }
        ensures root { result ≡ record {
          place = handle.place;
          generation = self.old.generation + 1;
          capacity = capacity;
        } }
        ensures born { self.new ≡ with_born (born_root result region handle watch) }
    {
        let root = RootId {
            place: handle.place(),
            generation: self.generation + 1,
            capacity,
        };
        let (id, mut piece) = region.into_parts();
        clear(&mut piece, capacity);
        handle.tracker().start(watch);
        let region = RegionId {
            uses: id.uses + 1,
            ..id
        };
        self.generation = root.generation;
        self.last = Root {
            root,
            capacity,
            region,
        };
        let none = replace(&mut self.present, Some(Held { piece, handle }));
        let None = none else { unreachable!() };
        root
    }

    /// Takes out what the root has. The place is vacant then.
    #[inline]
    pub(crate) fn end(&mut self) -> (Root, Held)
        requires { IsSome self.old.present }
        ensures root { self.old.present ≡ Some (root_seen result.0 result.1) }
        ensures vacated { self.new ≡ vacated self.old }
    {
        let Some(held) = replace(&mut self.present, None) else {
            unreachable!()
        };
        (self.last, held)
    }
}

// Clears the first bytes of a piece.
#[inline]
fn clear(piece: &mut Piece, count: u32)
    requires { count ≤ length piece.old.bytes }
    ensures { piece.new ≡ with_bytes piece.old (cleared count piece.old.bytes) }
{
    let bytes = piece.bytes_mut();
    zero(bytes, count as usize);
}

// Clears the first of these bytes.
#[inline]
fn zero(bytes: &mut [u8], count: usize)
    requires { count ≤ length bytes.old }
    ensures { bytes.new ≡ cleared count bytes.old }
{
    for i in 0..count {
        bytes[i] = 0;
    }
}
