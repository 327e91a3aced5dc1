//! A region whose addresses can be translated.

ghost use Rattle.std.specs.Prelude.{◌≡◌, ◌≢◌, ◌↔◌, ℕ, ◌+◌, ◌*◌, ◌^◌, ◌≤◌, ◌<◌, EachIndex, IfErr, IfOk, IfSome, IsSome};
ghost use Rattle.std.specs.Prelude.{MatchOption, None, OnOk, false, length, slice_index_or};
ghost use Rattle.region_map.specs.Sound.{IsUsable};
ghost use Rattle.spa_translate.specs.Faults.{IsRefused, first_fault, first_fault_of_strands, line_fault, lines_differ};
ghost use Rattle.spa_translate.specs.Faults.{offset_not_line, ragged, woven_of};
ghost use Rattle.spa_translate.specs.Laid.{IsFit};
ghost use Rattle.spa_translate.specs.declared.strand.Strand.{Strand};

use crate::faults::{CheckFault, lines_differ, offset_not_line, ragged};
use crate::places::{first_not_once, places_of, slots_of};
use crate::strand::{
    Strand, is_linear, linear_strands, no_interleave, strands_of, too_many_lines, ways_differ,
};
use region_map::{Platform, Region};
use std::alloc::Global;
use std::marker::Model;
use view_types::TranslateFault;

/// A region whose addresses can be translated: each address of its range is one address of one module, and each module
/// address of a member's part is one address of the range (ACPI 6.2, sections 5.2.25.3 and 5.2.25.4). Contracts see the
/// range and the members' parts.
#[derive(Drop)]
pub struct Weave {
    pub(crate) spa: u64,
    pub(crate) size: u64,
    pub(crate) line_size: u32,
    pub(crate) lines: usize,
    pub(crate) strands: Vec<Strand>,
    /// For each line of a period, its place among the lines of all parts.
    pub(crate) places: Vec<u32>,
}

impl Model for Weave {
    ghost use Rattle.spa_translate.specs.Woven.{Woven};

    ghost Value = { Woven };

    ghost use Rattle.spa_translate.specs.Kept.{IsKept, woven_in};

    ghost view = { woven_in };

    ghost invariant = { IsKept };
}

impl Weave {
    ghost use Rattle.spa_translate.specs.Pairs.{AddressIn, IsInRange, IsMapped, IsPair, has_range, is_member};

    /// The weave of a region that can be used, or the first fault for which its addresses cannot be translated.
    pub fn check(alloc: Global, platform: &Platform, region: &Region) -> Result<Weave, CheckFault>
        requires { IsUsable platform.now region.now }
        ensures none { OnOk result (first_fault platform.now.tables region.now.members ≡ None) }
        ensures fault { IfErr result (IsRefused (first_fault platform.now.tables region.now.members)) }
        ensures woven { IfOk result (λ weave. weave ≡ woven_of platform.now.tables region.now) }
    {
        let members = region.members.as_slice();
        let tables = platform.tables.as_slice();
        if is_linear(members) {
            return match linear_strands(alloc, members) {
                Ok(strands) => Weave::of_strands(alloc, region.spa, region.length, strands),
                Err(_) => Err(CheckFault::Memory),
            };
        }
        if no_interleave(tables, members) {
            return Err(CheckFault::Fault(TranslateFault::NoInterleave));
        }
        if too_many_lines(tables, members) {
            return Err(CheckFault::Fault(TranslateFault::TooManyLines));
        }
        if ways_differ(members) {
            return Err(CheckFault::Fault(TranslateFault::WaysDiffer));
        }
        match strands_of(alloc, tables, members) {
            Ok(strands) => Weave::of_strands(alloc, region.spa, region.length, strands),
            Err(_) => Err(CheckFault::Memory),
        }
    }

    /// The weave of the parts of a usable region, or the first fault of them.
    fn of_strands(
        alloc: Global,
        spa: u64,
        size: u64,
        strands: Vec<Strand>,
    ) -> Result<Weave, CheckFault>
        requires { IsFit (record { spa = spa; len = size; strands = strands.items }) }
        ensures none { OnOk result (first_fault_of_strands strands.items ≡ None) }
        ensures fault { IfErr result (IsRefused (first_fault_of_strands strands.items)) }
        ensures woven { IfOk result
            (λ weave. weave ≡ record { spa = spa; len = size; strands = strands.items }) }
    {
        if lines_differ(&strands) {
            return Err(CheckFault::Fault(TranslateFault::LinesDiffer));
        }
        if offset_not_line(&strands) {
            return Err(CheckFault::Fault(TranslateFault::OffsetNotLine));
        }
        if ragged(&strands) {
            return Err(CheckFault::Fault(TranslateFault::Ragged));
        }
        Weave::of_lines(alloc, spa, size, strands)
    }

    /// The weave of parts of which the lines are to be tested alone.
    fn of_lines(
        alloc: Global,
        spa: u64,
        size: u64,
        strands: Vec<Strand>,
    ) -> Result<Weave, CheckFault>
        requires fit { IsFit (record { spa = spa; len = size; strands = strands.items }) }
        requires same { lines_differ strands.items ≡ false }
        requires aligned { offset_not_line strands.items ≡ false }
        requires whole { ragged strands.items ≡ false }
        ensures none { OnOk result (line_fault strands.items ≡ None) }
        ensures fault { IfErr result (IsRefused (line_fault strands.items)) }
        ensures woven { IfOk result
            (λ weave. weave ≡ record { spa = spa; len = size; strands = strands.items }) }
    {
        let lines = strands[0].lines.len();
        let line_size = strands[0].line_size;
        let slots = match slots_of(alloc, &strands, lines) {
            Ok(slots) => slots,
            Err(_) => return Err(CheckFault::Memory),
        };
        match first_not_once(&slots) {
            Some(line) => Err(CheckFault::Fault(TranslateFault::NotPartition { line })),
            None => match places_of(alloc, &slots) {
                Ok(places) => Ok(Weave {
                    spa,
                    size,
                    line_size,
                    lines,
                    strands,
                    places,
                }),
                Err(_) => Err(CheckFault::Memory),
            },
        }
    }

    /// Whether a module is a member of the region.
    pub fn is_member(&self, dimm: u32) -> bool
        ensures { result ≡ is_member self.now dimm }
    {
        self.strands.iter().any(|strand| strand.handle == dimm)
    }

    /// The module and its address (DPA) behind an address of the region (SPA). `None` exactly where the
    /// address is outside
    /// the region's range.
    pub fn to_module(&self, spa: u64) -> Option<(u32, u64)>
        ensures inside { IsSome result ↔ IsInRange self.now spa }
        ensures pair { IfSome result (λ found. IsPair self.now spa found.0 found.1) }
    {
        if spa < self.spa || spa - self.spa >= self.size {
            None
        } else {
            Some(self.module_at(spa))
        }
    }

    /// The module and its address behind an address of the range.
    fn module_at(&self, spa: u64) -> (u32, u64)
        requires { IsInRange self.now spa }
        ensures { IsPair self.now spa result.0 result.1 }
    {
        let offset = spa - self.spa;
        let line_size = u64::from(self.line_size);
        let in_period = self.places.len() as u64;
        let line = offset / line_size;
        let place = self.places[(line % in_period) as usize] as usize;
        let strand = &self.strands[place / self.lines];
        let d = byte_at(
            line / in_period,
            self.lines as u64,
            (place % self.lines) as u64,
            line_size,
            offset % line_size,
        );
        (strand.handle, strand.base + d)
    }

    /// A range of so many addresses, from one on, is not empty and lies in the region's range.
    pub fn has_range(&self, spa: u64, length: u64) -> bool
        ensures { result ≡ has_range self.now spa length }
    {
        match spa.checked_add(length) {
            Some(end) => length > 0 && spa >= self.spa && end - self.spa <= self.size,
            None => false,
        }
    }

    /// The address of the region (SPA) of a module's address (DPA). `None` exactly where the module is no member or the
    /// address is outside its part.
    pub fn to_spa(&self, dimm: u32, dpa: u64) -> Option<u64>
        ensures mapped { IsSome result ↔ IsMapped self.now dimm dpa }
        ensures pair { IfSome result (λ spa. IsPair self.now spa dimm dpa) }
    {
        match position_of(&self.strands, dimm) {
            Some(position) => self.address_in(position, dpa),
            None => None,
        }
    }

    /// The address of the region of an address of the module at a position. `None` exactly where it is
    /// outside the part.
    fn address_in(&self, position: usize, dpa: u64) -> Option<u64>
        requires { position < length self.now.strands }
        ensures { AddressIn self.now position dpa result }
    {
        let strand = &self.strands[position];
        if dpa < strand.base {
            return None;
        }
        let d = dpa - strand.base;
        if d >= strand.size {
            return None;
        }
        let line_size = u64::from(self.line_size);
        let lines = self.lines as u64;
        let line = d / line_size;
        let offset = offset_at(
            strand.offset,
            u64::from(strand.lines.as_slice()[(line % lines) as usize]),
            line_size,
            line / lines,
            self.places.len() as u64 * line_size,
            d % line_size,
        );
        Some(self.spa + offset)
    }
}

/// Byte `rest` of line `line` in period `skip`, where each has so many bytes, and each period so many lines.
pub(crate) fn byte_at(skip: u64, lines: u64, line: u64, size: u64, rest: u64) -> u64
    requires some { 0 < size }
    requires fits { (skip * lines + line) * size + rest < 2 ^ 63 }
    ensures { result ≡ (skip * lines + line) * size + rest }
{
    (skip * lines + line) * size + rest
}

/// An offset in the region: `rest` bytes into a line of so many bytes, behind so many whole periods.
pub(crate) fn offset_at(offset: u64, line: u64, size: u64, skip: u64, period: u64, rest: u64) -> u64
    requires { offset + line * size + skip * period + rest < 2 ^ 63 }
    ensures { result ≡ offset + line * size + skip * period + rest }
{
    offset + line * size + skip * period + rest
}

/// The position of a module.
fn position_of(strands: &[Strand], dimm: u32) -> Option<usize>
    ensures { MatchOption result
        (EachIndex strands.now (λ k. (d : Strand) → (slice_index_or strands.now k d).handle ≢ dimm))
        (λ k. (k < length strands.now) × ((d : Strand) → (slice_index_or strands.now k d).handle ≡ dimm)) }
{
    for (position, strand) in strands.iter().enumerate() {
        if strand.handle == dimm {
            return Some(position);
        }
    }
    None
}
