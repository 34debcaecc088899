//! What an ask for capacity and a growth make of a root place.

ghost use Rattle.std.specs.Prelude.{◌≡◌, ◌+◌, ◌-◌, ◌^◌, ◌<◌, ◌≤◌, length, take, replicate};
ghost use Rattle.pool_law.specs.Roots.{laid_over};
ghost use Rattle.shared_pool.specs.PlaceViews.{root_seen};
ghost use Rattle.shared_pool.specs.Regrowing.{MayRegrow, Turns, Answers, IsGrown, room_in, after_room, moved};

use crate::root_place::{Held, Root, RootPlace};
use crate::went::{Grown, Room};
use pool_law::{Region, RegionId};
use std::mem::replace;

impl Root {
    // What it answers to an ask for so much capacity, which it has then where its region holds it.
    fn room(&mut self, held: &mut Held, asked: u32) -> Room
        requires fits { self.old.capacity ≤ length held.old.piece.bytes }
        requires size { length held.old.piece.bytes ≡ self.old.region.place.len }
        ensures answer { result ≡ room_in asked (root_seen self.old held.old) }
        ensures after { root_seen self.new held.new
            ≡ after_room asked (root_seen self.old held.old) result }
    {
        if asked <= self.capacity {
            return Room::Enough(self.capacity);
        }
        if asked > self.region.place.len {
            return Room::Short(self.capacity);
        }
        let count = asked - self.capacity;
        zero_behind(
            held.piece.bytes_mut(),
            self.capacity as usize,
            count as usize,
        );
        self.capacity = asked;
        Room::Extended
    }

    // Goes on in another region, with its bytes and zeros behind them up to a greater capacity. The
    // region that it leaves comes out.
    fn replace_region(&mut self, held: &mut Held, asked: u32, region: Region) -> Region
        requires fits { self.old.capacity ≤ length held.old.piece.bytes }
        requires size { length held.old.piece.bytes ≡ self.old.region.place.len }
        requires more { self.old.capacity ≤ asked }
        requires long { asked ≤ region.id.place.len }
        requires uses { region.id.uses < 2 ^ 64 - 1 }
        ensures left { (result.id ≡ self.old.region) × (result.piece ≡ held.old.piece) }
        ensures after { root_seen self.new held.new
            ≡ moved asked (root_seen self.old held.old) region }
    {
        let count = self.capacity as usize;
        let (id, mut piece) = region.into_parts();
        carry(held.piece.bytes(), piece.bytes_mut(), count);
        zero_behind(piece.bytes_mut(), count, (asked - self.capacity) as usize);
        let used = RegionId {
            uses: id.uses + 1,
            ..id
        };
        let left = replace(&mut self.region, used);
        let memory = replace(&mut held.piece, piece);
        self.capacity = asked;
        Region::new(left, memory)
    }

    // The same ask, with a region to grow into where its own does not hold so much.
    fn grow(&mut self, held: &mut Held, asked: u32, region: Region) -> Grown
        requires fits { self.old.capacity ≤ length held.old.piece.bytes }
        requires size { length held.old.piece.bytes ≡ self.old.region.place.len }
        requires long { asked ≤ region.id.place.len }
        requires uses { region.id.uses < 2 ^ 64 - 1 }
        ensures { IsGrown asked (root_seen self.old held.old) region result
            (root_seen self.new held.new) }
    {
        match self.room(held, asked) {
            Room::Enough(capacity) => Grown::Enough(capacity, region),
            Room::Extended => Grown::Extended(region),
            Room::Short(_) => Grown::Replaced(self.replace_region(held, asked, region)),
        }
    }
}

impl RootPlace {
    /// What the root answers to an ask for so much capacity, which it has then where its region holds
    /// it.
    pub(crate) fn room(&mut self, asked: u32) -> Room
        requires { MayRegrow self.old }
        ensures { Turns self.old (Answers asked result) self.new }
    {
        let Some(held) = &mut self.present else {
            unreachable!()
        };
        self.last.room(held, asked)
    }

    /// The same, with a region to grow into where its own does not hold so much.
    pub(crate) fn grow(&mut self, asked: u32, region: Region) -> Grown
        requires may { MayRegrow self.old }
        requires long { asked ≤ region.id.place.len }
        requires uses { region.id.uses < 2 ^ 64 - 1 }
        ensures { Turns self.old (λ r s. IsGrown asked r region result s) self.new }
    {
        let Some(held) = &mut self.present else {
            unreachable!()
        };
        self.last.grow(held, asked, region)
    }
}

// Lays the first bytes of one region over those of another.
#[inline]
fn carry(from: &[u8], to: &mut [u8], count: usize)
    requires there { count ≤ length from.now }
    requires room { count ≤ length to.old }
    ensures { to.new ≡ laid_over to.old 0 (take count from.now) }
{
    to[..count].copy_from_slice(&from[..count]);
}

// Clears so many bytes, from an offset on.
#[inline]
fn zero_behind(bytes: &mut [u8], from: usize, count: usize)
    requires { from + count ≤ length bytes.old }
    ensures { bytes.new ≡ laid_over bytes.old from (replicate count 0) }
{
    for i in 0..count {
        bytes[from + i] = 0;
    }
}
