#![tactic(auto)]
//! What a thread of a pool is: its seat, what it counts and what it has left; and the calls that its
//! pool's users make, by plain functions. Each keeps the thread a thread of the pool, and says what
//! of it changed. Which buffer or handle a call goes by is its user's matter.

mod account;
mod answers;
mod closing;
mod config;
mod counts;
mod member;
mod opening;
mod pending;
mod watcher;
pub mod work;

pub use account::Account;
pub use answers::{
    AcceptNo, AccessNo, AllocNo, CapacityNo, CloseNo, Closed, OpenNo, PartNo, TrimNo, TryAllocNo,
    TryCapacityNo, TryNo, TryTrimNo,
};
pub use closing::{CloseMemory, Records, close_all};
pub use config::Config;
pub use counts::{OwnCounts, in_parts};
pub use member::Member;
pub use opening::new_pool;
pub use pending::{Pending, Unsettled};
pub use watcher::Watcher;
