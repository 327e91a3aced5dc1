//! The edges of a run: what is read before its work begins, and the line and the status with which a fault ends it.
#![tactic(auto)]

mod faults;
mod saying;
mod sources;
mod starting;
mod statuses;
mod texts;

pub use faults::{Fault, SourceName};
pub use saying::{say, say_fault};
pub use sources::{MOST_READ, read_all, read_platform};
pub use starting::start_session;
pub use statuses::Status;
pub use texts::fault_line;
