#![tactic(auto)]
//! A pool of buffers for the threads of a server. Its caller proves nothing: what a call needs is
//! kept by a type or tested as it is made, and then refused by name.

mod admission;
mod answers;
mod buffer;
mod closing;
mod lone;
mod mails;
mod name;
mod opening;
mod parcel;
mod pool;
mod ranges;
mod thread;
mod threads;
mod working;

pub use answers::{Back, NotAccepted, TryBack, Unsent};
pub use buffer::Buffer;
pub use closing::NotClosed;
pub use lone::Lone;
pub use mails::Mails;
pub use name::PoolName;
pub use opening::{Serve, open};
pub use parcel::Parcel;
pub use pool::Pool;
pub use thread::PoolThread;
pub use working::{Work, WorkNo, open_in_threads};
// Why calls are refused, and what a pool is opened with and leaves.
pub use pool_member::{
    AcceptNo, AccessNo, AllocNo, CapacityNo, CloseNo, Closed, Config, OpenNo, PartNo, TrimNo,
    TryAllocNo, TryCapacityNo, TryNo, TryTrimNo,
};
// What the answers and the measures are made of.
pub use leak_records::{LiveList, LiveRoot};
pub use pool_law::{Access, ChunkEnd, ChunkEnds, Level, Shape, Watch};
