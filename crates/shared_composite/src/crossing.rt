//! What may cross threads: a board is shared by threads, and seats and cores go from one to another.
//! Each call below is proved to meet the bound of what it calls.

use crate::board::{Board, BoardSeat};
use crate::cores::Core;

fn shared<T: Sync>() {}

fn sent<T: Send>() {}

fn cross() {
    shared::<Board>();
    sent::<BoardSeat>();
    sent::<Core>();
}
