//! Which line of which part stands at each line of a period.

ghost use Rattle.std.specs.Prelude.{◌≡◌, ℕ, ◌*◌, ◌^◌, ◌≤◌, ◌<◌, All, EachIndex, IfOk, IfSome, MatchOption, false};
ghost use Rattle.std.specs.Prelude.{length, map, replicate, slice_index, slice_index_or, true};
ghost use Rattle.spa_translate.specs.Faults.{all_lines};
ghost use Rattle.spa_translate.specs.Laid.{HasFewLines};
ghost use Rattle.spa_translate.specs.Places.{AreSlots, is_once, marked, place_of, with_place};
ghost use Rattle.spa_translate.specs.declared.places.Slot.{Slot};

use crate::strand::{MOST_LINES, Strand};
use std::alloc::{AllocError, Global};

/// How often a line of a period is one of a part. `Once` has its place among the lines of all parts.
#[derive(Clone, Copy)]
pub(crate) enum Slot {
    Free,
    Once(u32),
    Twice,
}

/// A slot with one line more, which stands at a place among the lines of all parts.
fn with_place(slot: Slot, place: u32) -> Slot
    ensures { result ≡ with_place slot place }
{
    match slot {
        Slot::Free => Slot::Once(place),
        _ => Slot::Twice,
    }
}

fn is_once(slot: Slot) -> bool
    ensures { result ≡ is_once slot }
{
    matches!(slot, Slot::Once(_))
}

/// The place of the one line. 0 where there is not one.
fn place_of(slot: Slot) -> u32
    ensures { result ≡ place_of slot }
{
    match slot {
        Slot::Once(place) => place,
        _ => 0,
    }
}

/// The line at a place among the lines of all parts, where each has so many. `None` exactly where it is none
/// of a period.
fn line_at(strands: &[Strand], lines: usize, place: usize) -> Option<usize>
    requires few { length strands.now ≤ 16 }
    requires few_lines { lines ≤ MOST_LINES }
    requires each { All (HasFewLines lines) strands.now }
    requires below { place < length strands.now * lines }
    ensures { let line = slice_index (all_lines strands.now) place in
        let total = length strands.now * lines in
        MatchOption result (total ≤ line) (λ at. (at ≡ line) × (at < total)) }
{
    let total = (strands.len() * lines) as u64;
    let strand = &strands[place / lines];
    let offset = u64::from(strand.lines.as_slice()[place % lines]);
    let first = strand.offset / u64::from(strand.line_size);
    if first < total && first + offset < total {
        Some((first + offset) as usize)
    } else {
        None
    }
}

/// So many free slots.
fn free_slots(alloc: Global, total: usize) -> Result<Vec<Slot>, AllocError>
    ensures items { IfOk result (λ slots. slots.items ≡ replicate total Slot.Free) }
    ensures len { IfOk result (λ slots. length slots.items ≡ total) }
{
    let mut slots = Vec::new(alloc);
    for _ in 0..total {
        slots.push(Slot::Free)?;
    }
    Ok(slots)
}

/// Puts one line more, if it is one of a period.
fn mark(slots: &mut [Slot], line: Option<usize>, place: u32)
    requires { IfSome line (λ at. at < length slots.old) }
    ensures { slots.new ≡ marked slots.old line place }
{
    if let Some(line) = line {
        slots[line] = with_place(slots[line], place);
    }
}

/// Puts each line of the parts.
fn mark_all(strands: &[Strand], lines: usize, slots: &mut [Slot])
    requires few { length strands.now ≤ 16 }
    requires few_lines { lines ≤ MOST_LINES }
    requires each { All (HasFewLines lines) strands.now }
    requires len { length slots.old ≡ length strands.now * lines }
    requires free { AreSlots (all_lines strands.now) 0 slots.old }
    ensures { AreSlots (all_lines strands.now) (length strands.now * lines) slots.new }
{
    for place in 0..strands.len() * lines {
        let line = line_at(strands, lines, place);
        mark(slots, line, place as u32);
    }
}

/// How often each line of a period is one of a part, where each part has so many lines.
pub(crate) fn slots_of(
    alloc: Global,
    strands: &[Strand],
    lines: usize,
) -> Result<Vec<Slot>, AllocError>
    requires few { length strands.now ≤ 16 }
    requires few_lines { lines ≤ MOST_LINES }
    requires each { All (HasFewLines lines) strands.now }
    ensures len { IfOk result (λ slots. length slots.items ≡ length strands.now * lines) }
    ensures slots { IfOk result
        (λ slots. AreSlots (all_lines strands.now) (length strands.now * lines) slots.items) }
{
    let mut slots = free_slots(alloc, strands.len() * lines)?;
    mark_all(strands, lines, &mut slots);
    Ok(slots)
}

/// The first line that is not exactly one of one part.
pub(crate) fn first_not_once(slots: &[Slot]) -> Option<u32>
    requires { length slots.now < 2 ^ 32 }
    ensures { MatchOption result
        (EachIndex slots.now (λ k. (d : Slot) → is_once (slice_index_or slots.now k d) ≡ true))
        (λ line. (line < length slots.now)
        × ((d : Slot) → is_once (slice_index_or slots.now line d) ≡ false)
        × ((k : ℕ) (d : Slot) → k < line → is_once (slice_index_or slots.now k d) ≡ true)) }
{
    for (line, slot) in slots.iter().enumerate() {
        if !is_once(*slot) {
            return Some(line as u32);
        }
    }
    None
}

/// The places of slots.
pub(crate) fn places_of(alloc: Global, slots: &[Slot]) -> Result<Vec<u32>, AllocError>
    ensures { IfOk result (λ places. places.items ≡ map place_of slots.now) }
{
    slots.iter().map(|slot| place_of(*slot)).collect(alloc)
}
