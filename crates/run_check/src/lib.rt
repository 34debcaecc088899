#![tactic(auto)]
//! Whether a run is one that the pool can make.
//!
//! The histories of objects are gathered from the logs of the lanes, and each object must accept its own,
//! by the steps of `object_steps`. Mails have none: what is fetched must be the front of what is posted.
//! The counts, the marks, the chunks at the end and the leaks are then
//! asked of the logs. A reader of printed runs, whose text does not tell how many notes each command
//! made, finds that by `cuts_of`.

mod breach;
mod busy;
mod checking;
mod counting;
mod cuts;
mod ending;
mod entries;
mod fitting;
mod fronts;
mod gathering;
mod histories;
mod keys;
mod lanes;
mod leaks;
mod mails;
mod merging;
mod object_notes;
mod records;
mod stands;
mod tally;
mod totals;

pub use breach::{Breach, NoteSpot};
pub use checking::{check_run, find_breach};
pub use cuts::cuts_of;
