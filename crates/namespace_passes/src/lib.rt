//! The passes over the modules of a region that change one namespace, flip by flip: its labels are staged, healed, marked
//! as being changed, given another name, or freed (UEFI 2.7, section 13.19).
#![tactic(auto)]

mod dropping;
mod heal;
mod labels;
mod marked_labels;
mod marking;
mod places;
mod renaming;
mod staging;

pub use dropping::drop_labels;
pub use heal::heal_labels;
pub use marking::mark_labels;
pub use places::{LabelPlace, place_at};
pub use renaming::change_first;
pub use staging::stage_labels;
