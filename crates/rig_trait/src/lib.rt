//! The outside of the program: the label storage areas of all modules and the standard output, as one trait, with a
//! form in memory and a form over files; and what bytes are read from, as another, with a form in memory, one over any
//! reader and one over a file.
#![tactic(auto)]

mod area_file;
mod counts;
mod file_source;
mod files;
mod kept;
mod kept_calls;
mod memory;
mod memory_source;
mod rig;
mod shown;
mod source;
mod std_source;
mod stored_areas;
mod two_writes;

pub use file_source::FileSource;
pub use files::FileRig;
pub use kept::Kept;
pub use memory::MemoryRig;
pub use memory_source::MemorySource;
pub use rig::{Failed, Rig};
pub use shown::Shown;
pub use source::Source;
pub use std_source::StdSource;
pub use two_writes::write_two;
