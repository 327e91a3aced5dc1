//! The rules under which a region cannot be used.

ghost use Rattle.std.specs.Prelude.{◌≡◌, ◌≤◌, ◌*◌, ◌==◌, ◌&&◌, length, not};
ghost use Rattle.std.specs.List.{list_any};
ghost use Rattle.region_map.specs.Rules.{capacity_differs, dpa_overlap, exceeds, first_rule, meets, module_twice};
ghost use Rattle.region_map.specs.Rules.{no_control, offset_twice, sizes_differ, sum_overflows};

use crate::records::{ControlFields, Part, PersistentRange, control_named};
use view_types::Rule;

/// The most members that a region has.
const MOST_WAYS: usize = 16;

/// The greatest end of an address range, in bytes.
const MOST_END: u64 = 1 << 63;

/// The first rule that applies to a range and the mappings that name it. `parts` are the mappings that name any
/// region.
pub(crate) fn first_rule(
    parts: &[Part],
    controls: &[ControlFields],
    range: &PersistentRange,
    members: &[Part],
) -> Option<Rule>
    ensures { result ≡ first_rule parts.now controls.now range.now members.now }
{
    if members.is_empty() {
        Some(Rule::NoMapping)
    } else if members.len() > MOST_WAYS {
        Some(Rule::TooManyWays)
    } else if range.length == 0 {
        Some(Rule::Empty)
    } else if sizes_differ(members) {
        Some(Rule::SizesDiffer)
    } else if capacity_differs(range, members) {
        Some(Rule::CapacityDiffers)
    } else if sum_overflows(range, members) {
        Some(Rule::Overflow)
    } else if module_twice(members) {
        Some(Rule::ModuleTwice)
    } else if offset_twice(members) {
        Some(Rule::OffsetTwice)
    } else if no_control(controls, members) {
        Some(Rule::NoControl)
    } else if dpa_overlap(parts, members) {
        Some(Rule::DpaOverlap)
    } else {
        None
    }
}

/// Two members have different sizes.
fn sizes_differ(members: &[Part]) -> bool
    ensures { result ≡ sizes_differ members.now }
{
    members.iter().any(|a| has_other_size(members, a))
}

/// A member has another size than this one.
fn has_other_size(members: &[Part], a: &Part) -> bool
    ensures { result ≡ list_any (λ b. not (b.size == a.now.size)) members.now }
{
    members.iter().any(|b| b.size != a.size)
}

/// The number of members times the size of a member is not the range's length.
fn capacity_differs(range: &PersistentRange, members: &[Part]) -> bool
    requires { length members.now ≤ 16 }
    ensures { result ≡ capacity_differs range.now members.now }
{
    let ways = members.len() as u64;
    members
        .iter()
        .any(|m| !is_capacity(range.length, ways, m.size))
}

/// So many times a size is the length.
fn is_capacity(length: u64, ways: u64, size: u64) -> bool
    ensures { result ≡ (ways * size == length) }
{
    size.checked_mul(ways) == Some(length)
}

/// Base plus length of the range, or a member's module address base plus size, exceeds 2^63.
fn sum_overflows(range: &PersistentRange, members: &[Part]) -> bool
    ensures { result ≡ sum_overflows range.now members.now }
{
    exceeds(range.base, range.length) || has_overflow(members)
}

/// A member's module address base plus size exceeds 2^63.
fn has_overflow(members: &[Part]) -> bool
    ensures { result ≡ list_any (λ m. exceeds m.base m.size) members.now }
{
    members.iter().any(|m| exceeds(m.base, m.size))
}

/// A base plus a length exceeds 2^63.
fn exceeds(base: u64, length: u64) -> bool
    ensures { result ≡ exceeds base length }
{
    base > MOST_END || length > MOST_END - base
}

/// Two members have one device handle.
fn module_twice(members: &[Part]) -> bool
    ensures { result ≡ module_twice members.now }
{
    members.iter().any(|a| members.iter().filter(|b| b.handle == a.handle).count() > 1)
}

/// Two members have one region offset.
fn offset_twice(members: &[Part]) -> bool
    ensures { result ≡ offset_twice members.now }
{
    members.iter().any(|a| members.iter().filter(|b| b.offset == a.offset).count() > 1)
}

/// A member's control region index names no control region.
fn no_control(controls: &[ControlFields], members: &[Part]) -> bool
    ensures { result ≡ no_control controls.now members.now }
{
    members.iter().any(|m| control_named(controls, m).is_none())
}

/// A member's module address range meets that of a mapping, on the same handle, of another region.
fn dpa_overlap(parts: &[Part], members: &[Part]) -> bool
    ensures { result ≡ dpa_overlap parts.now members.now }
{
    members.iter().any(|a| meets_another(parts, a))
}

/// A member's module address range meets that of a mapping of another region.
fn meets_another(parts: &[Part], a: &Part) -> bool
    ensures { result ≡ list_any (λ b. not (b.range == a.now.range) && meets a.now b) parts.now }
{
    parts.iter().any(|b| b.range != a.range && meets(a, b))
}

/// Two mappings have an address of one module in common.
#[tactic(auto, unfolding(crate::specs::Rules::meets))]
fn meets(a: &Part, b: &Part) -> bool
    ensures { result ≡ meets a.now b.now }
{
    let first = a.base.max(b.base);
    b.handle == a.handle && first - a.base < a.size && first - b.base < b.size
}
