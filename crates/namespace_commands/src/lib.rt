//! The commands on a platform: why each is refused, and its reply.
#![tactic(auto)]

mod changes;
mod create_refusals;
mod creation;
mod destruction;
mod initialising;
mod key_refusals;
mod laws;
mod lists;
mod recovering;
mod refusals;
mod release_refusals;
mod releasing;
mod renaming;
mod translations;

pub use changes::do_change;
pub use creation::ChangeFault;
pub use laws::{one_list, one_translation};
pub use lists::show;
pub use translations::translate;
