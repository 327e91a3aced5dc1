//! The areas that a rig in memory stores.

ghost use Rattle.std.specs.Prelude.{◌≡◌, ◌+◌, ◌≤◌, length};
ghost use Rattle.byte_ranges.specs.Ranges.{range};
ghost use Rattle.rig_trait.specs.Areas.{IsWithin, bytes_in, written};
ghost use Rattle.rig_trait.specs.Memory.{areas_of};

use byte_ranges::put;
use std::collections::BTreeMap;

/// Puts bytes into one of the areas.
pub fn put_into(areas: &mut BTreeMap<u32, Vec<u8>>, dimm: u32, at: usize, bytes: &[u8])
    requires { IsWithin (areas_of areas.old) dimm at (length bytes.now) }
    ensures { areas_of areas.new ≡ written (areas_of areas.old) dimm at bytes.now }
{
    if let Some(area) = areas.get_mut(&dimm) {
        put(area, at, bytes);
    }
}

/// Some bytes of one of the areas.
pub fn bytes_at(areas: &BTreeMap<u32, Vec<u8>>, dimm: u32, at: usize, len: usize) -> &[u8]
    requires { IsWithin (areas_of areas.now) dimm at len }
    ensures { result.now ≡ bytes_in (areas_of areas.now) dimm at len }
{
    match areas.get(&dimm) {
        Some(area) => part(area, at, len),
        None => &[],
    }
}

/// Some bytes of others.
pub fn part(bytes: &[u8], at: usize, len: usize) -> &[u8]
    requires { at + len ≤ length bytes.now }
    ensures { result.now ≡ range bytes.now at len }
{
    &bytes[at..at + len]
}
