//! Lists of command lines on a session: each command is done, and its reply said before the next one begins.
#![tactic(auto)]

mod faults;
mod laws;
mod lines;
mod replies;
mod runs;
mod turns;
mod uuids;

pub use faults::LineFault;
pub use laws::one_run;
pub use lines::lines_of;
pub use replies::{is_refused, say_reply};
pub use runs::run_lines;
pub use uuids::own_uuid;
