#![tactic(auto)]
//! A run of pages cut into elements of one size: which element is handed out next, and which are
//! out. Stands on `ground`, whose `Rack` keeps the memory of the elements, on `size_classes`, whose
//! words say which element is next, and on `bit_words`. The chunk above keeps one subpage for each run that it
//! shares.

mod subpage;

pub use subpage::Subpage;
