#![tactic(auto)]
//! The sizes in which a chunk is handed out, and the words for runs of pages: which free run an
//! allocation takes, what taking and giving back make of the runs of a chunk, and the elements of a
//! subpage. Stands on nothing; the layers of memory and the laws cite its words.

mod classes;
mod counts;

pub use classes::SizeClasses;
pub use counts::last_at_most;

/// The bytes of a page where none are asked for: the default of Netty's `PooledByteBufAllocator`.
pub const DEFAULT_PAGE: u32 = 8192;

/// How many classes have a cache: those below it, whatever the page.
pub const CACHED_CLASSES: u32 = 40;

/// The regions that a cache holds, but for the last class that has one: Netty's
/// `DEFAULT_SMALL_CACHE_SIZE`.
pub const SMALL_CACHE_CAPACITY: u32 = 256;

/// The regions that the cache of the last class holds: Netty's `DEFAULT_NORMAL_CACHE_SIZE`.
pub const NORMAL_CACHE_CAPACITY: u32 = 64;
