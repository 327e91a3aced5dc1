//! The platform of a table (ACPI 6.2, section 5.2.25): its regions with their members and cookies, the rules under
//! which a region cannot be used, the modules, and the line tables of interleave sets.
#![tactic(auto)]

mod cookies;
mod laws;
mod modules;
mod platform;
mod records;
mod regions;
mod rules;

pub use cookies::{cookie11, cookie12};
pub use laws::{disjoint_regions, regions_by_index, unusable_regions, usable_regions};
pub use platform::{LineTable, Member, Platform, Region};
