//! Bytes by their offsets: ranges of them, and the little-endian numbers in fields.
#![tactic(auto)]

mod reading;
mod writing;

pub use reading::{array_at, u16_at, u32_at, u64_at};
pub use writing::{push_u16, push_u32, push_u64, put, put_u16, put_u32, put_u64};
