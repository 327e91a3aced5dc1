//! The plain types that layers hand to each other.
#![tactic(auto)]

mod extents;
mod guids;
mod key;
mod laws;
mod list;
mod mode;
mod namespaces;
mod refusal;
mod reply;
mod rule;
mod states;
mod translation;
mod views;
mod word_fault;

pub use extents::Extent;
pub use guids::{PERSISTENT_MEMORY, persistent_memory};
pub use key::Key;
pub use laws::{each_maximal, greatest_fits, one_list, some_list};
pub use list::List;
pub use mode::Mode;
pub use namespaces::{Held, Listed, Namespace};
pub use refusal::Refusal;
pub use reply::{Reply, ReplyKind};
pub use rule::Rule;
pub use states::{AreaState, Status};
pub use translation::{Run, TranslateFault};
pub use views::{ModuleView, RegionView, View};
pub use word_fault::WordFault;
