//! The texts of replies, of refusals, and of the labels of an area.
#![tactic(auto)]

mod buffer;
mod laws;
mod lines;
mod listings;
mod refusals;
mod replies;
mod words;

pub use buffer::{ROOM, ShortText};
pub use laws::text_laws;
pub use listings::listing;
pub use refusals::refusal_line;
pub use replies::{initialised_line, line_of, reply_text, short_text};
