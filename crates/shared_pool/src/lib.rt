#![tactic(auto)]
//! The pool for many threads: any thread with a seat allocates, writes, reads, retains, releases
//! and hands over. Each call is one event of one object's history, or one step on one root's count.

mod arenas;
mod bins;
mod births;
mod cache_sections;
mod caches;
mod closing;
mod counts;
mod dealing;
mod emptying;
mod home;
mod in_place;
mod last_chunks;
mod laws;
mod live_roots;
mod mail;
mod mail_ends;
mod mails;
mod noting;
mod opening;
mod place_sections;
mod pool;
mod posted;
mod queue;
mod regrowth;
mod root_growth;
mod root_notes;
mod root_place;
mod roots;
mod seat;
mod share;
mod shares;
mod spares;
mod spent_homes;
mod told;
mod went;

pub use home::Home;
pub use laws::parts_are_whole_logs;
pub use mail::Mail;
pub use mail_ends::MailEnds;
pub use pool::SharedPool;
pub use posted::Posted;
pub use queue::{InOrder, MailPass, Queue};
pub use root_place::RootPlace;
pub use seat::PoolSeat;
pub use share::Share;
pub use went::{Fetched, Grown, PoolEnd, Put, Release, Retired, Room, Went, Worn};
