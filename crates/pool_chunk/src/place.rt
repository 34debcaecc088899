//! Places of a chunk as words of 64 bits.
//!
//! ```text
//! 63           49 48           34 33   32  31                  0
//! first page      pages           used sub element
//! ```

ghost use Rattle.std.specs.Prelude.{◌≡◌, ℕ, Bool, ◌^◌, ◌<◌, ◌≤◌};
ghost use Rattle.pool_chunk.specs.PlaceWords.{bit_of, place_word, AreFields};

const PAGE: u64 = 1 << 49;

const PAGES: u64 = 1 << 34;

const USED: u64 = 1 << 33;

const SUB: u64 = 1 << 32;

fn bit(flag: bool) -> u64
    ensures { result ≡ bit_of flag }
{
    if flag { 1 } else { 0 }
}

/// The word of a place: its first page, its pages, whether it is in use, whether it is an element
/// of a subpage, and the number of that element (the handle of Netty's `PoolChunk`).
pub fn place_pack(page: u32, pages: u32, used: bool, sub: bool, index: u32) -> u64
    requires { (page < 2 ^ 15) × (pages < 2 ^ 15) }
    ensures { result ≡ place_word page pages used sub index }
{
    u64::from(page) * PAGE
        + u64::from(pages) * PAGES
        + bit(used) * USED
        + bit(sub) * SUB
        + u64::from(index)
}

/// The fields of a word: the only ones of which it is the word.
pub fn place_unpack(word: u64) -> (u32, u32, bool, bool, u32)
    ensures word { word ≡ place_word result.0 result.1 result.2 result.3 result.4 }
    ensures fields { AreFields result.0 result.1 result.4 }
    ensures only { (page pages index : ℕ) (used sub : Bool) → AreFields page pages index
        → word ≡ place_word page pages used sub index → result ≡ (page, pages, used, sub, index) }
{
    (
        (word / PAGE) as u32,
        (word / PAGES % 32768) as u32,
        word / USED % 2 == 1,
        word / SUB % 2 == 1,
        (word % SUB) as u32,
    )
}
