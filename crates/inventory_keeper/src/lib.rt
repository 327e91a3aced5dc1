//! What operators note of a platform: the addresses with bad bytes, and a text for a namespace. A keeper has both; this
//! is what its calls promise, and a keeper in memory.
#![tactic(auto)]

mod keeper;
mod map_keeper;
mod rows;

pub use keeper::{KeepFault, Keeper};
pub use map_keeper::MapKeeper;
pub use rows::{BadRow, Tag};
