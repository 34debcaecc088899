//! Raw memory in pieces that can be split and joined, each byte with one owner at a time.
//!
//! A ground is one block of memory. `Ground::new` gives it as one `Piece`, which `split` cuts and
//! `join` puts together again, and a `Deed`, by which the whole ground is given back. A `Rack` hands
//! out equal elements of a piece.
//! No layer above touches a raw pointer.
#![tactic(auto)]

mod claim;
mod piece;
mod rack;
mod raw_bytes;
mod raw_rack;
mod site;

pub use piece::{Deed, Ground, Piece};
pub use rack::Rack;
pub use site::Site;
