//! The lines of commands, and how they are read.
#![tactic(auto)]

mod commands;
mod keys;
mod lines;
mod modes;
mod name_keys;
mod names;
mod numbers;
mod parts;
mod pieces;
mod uuids;
mod values;

pub use commands::Command;
pub use lines::read_line;
pub use name_keys::NameKey;
pub use numbers::read_number;
pub use parts::{Change, Part, Query, Translation};
