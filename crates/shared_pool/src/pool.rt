//! The pool that many threads share.

ghost use Rattle.std.specs.Prelude.{◌≡◌, ◌*◌, length};
ghost use Rattle.pool_law.specs.Limits.{IsShape};
ghost use Rattle.pool_law.proofs.ShapeLemmas.{shape-prop};

use crate::home::Home;
use crate::mail::Mail;
use pool_table::{Layout, PoolTable};

/// A pool that many threads share, each with a seat. It must be spent.
pub struct SharedPool {
    pub(crate) table: PoolTable<Home>,
    // That of two lanes stands at the first one's number times the lanes, plus the second's.
    pub(crate) mails: Vec<Mail>,
    pub(crate) layout: Layout,
    ghost same_layout: { table.layout ≡ layout },
    ghost shape: { IsShape layout.shape } by { shape-prop layout.shape },
    ghost many: { length mails.items ≡ layout.shape.lanes * layout.shape.lanes },
}
