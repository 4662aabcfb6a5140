//! The four lists of the adaptive quadtree.
#![tactic(auto)]

mod entry_lists;
mod flat;
mod gather;
pub mod law;
mod pairs;
mod picked;
mod search;
mod walk;

pub use entry_lists::EntryLists;
pub use gather::lists;
pub use walk::first_apart;
