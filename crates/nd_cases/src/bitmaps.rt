//! Bitmaps of free slots.

ghost use Rattle.std.specs.Prelude.{◌≤◌, ◌*◌, IfOk, vec_len};

use crate::fault::Fault;
use crate::words::{bytes, short_number, text};
use index_block::{count_free, first_free, is_free, set_free, set_used};
use std::alloc::Global;

/// The longest bitmap that a case gives.
const MOST_BYTES: usize = 4096;

/// A bitmap, and how many slots it is of.
fn bitmap(alloc: Global, slots: &str, map: &str) -> Result<(u32, Vec<u8>), Fault>
    ensures { IfOk result (λ found. found.0 ≤ 8 * vec_len found.1) }
{
    let slots = short_number(slots)?;
    let map = bytes(alloc, map)?;
    if map.len() > MOST_BYTES || slots as usize > 8 * map.len() {
        return Err(Fault::Refused);
    }
    Ok((slots, map))
}

/// `bits SLOTS BYTES`: the first free slot, how many are free, and a digit for each slot.
pub(crate) fn bits(alloc: Global, operands: &[&str]) -> Result<String, Fault> {
    let [slots, map] = operands else {
        return Err(Fault::Refused);
    };
    let (slots, map) = bitmap(alloc, slots, map)?;
    let mut digits = String::new(alloc);
    for slot in 0..slots {
        digits.push(if is_free(&map, slot) { '1' } else { '0' })?;
    }
    let count = count_free(&map, slots);
    Ok(match first_free(&map, slots) {
        Some(first) => format!(in alloc; "bits {first:x} {count:x} {digits}")?,
        None => format!(in alloc; "bits none {count:x} {digits}")?,
    })
}

/// `use SLOTS BYTES SLOT`, `unuse SLOTS BYTES SLOT`: the bitmap with that slot in use, or free.
pub(crate) fn with_slot(alloc: Global, name: &str, operands: &[&str]) -> Result<String, Fault> {
    let [slots, map, slot] = operands else {
        return Err(Fault::Refused);
    };
    let (slots, mut map) = bitmap(alloc, slots, map)?;
    let slot = short_number(slot)?;
    if slot >= slots {
        return Err(Fault::Refused);
    }
    if name == "use" {
        set_used(&mut map, slot);
    } else {
        set_free(&mut map, slot);
    }
    Ok(format!(in alloc; "{name} {}", text(alloc, &map)?)?)
}
