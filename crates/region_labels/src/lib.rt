//! The labels of a region's modules, as they are loaded: which uuids are namespaces, which labels are held, which space
//! is free, what commands look up there, and how all of it follows a flip (UEFI 2.7, section 13.19).
#![tactic(auto)]

mod by_slot;
mod clashes;
mod fates;
mod follow;
mod free;
mod held;
mod holders;
mod laws;
mod marks;
mod member_positions;
mod modules;
mod named;
mod namespaces;
mod pending;
mod positions;
mod ranges;
mod region;
mod rooms;
mod seats;
mod statuses;
mod tallies;
mod wholes;

pub use by_slot::{SlotLabel, slot_label, slot_labels};
pub use fates::{is_dead, is_held};
pub use follow::{follow_free, follow_put};
pub use free::free_extents;
pub use held::{held_labels, spare};
pub use holders::holder_of;
pub use laws::{area_laws, free_laws, module_laws, room_laws};
pub use modules::{LoadedModule, ModuleArea};
pub use named::{Named, namespaces_named, other_named};
pub use pending::first_pending;
pub use positions::{ModuleSpare, first_without_spare, free_slots_at, spare_at};
pub use ranges::lone_range;
pub use region::RegionLabels;
pub use rooms::reserve;
pub use statuses::unready_state;
