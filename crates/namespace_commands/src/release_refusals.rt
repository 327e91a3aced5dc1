//! Why a release of held labels is refused: look-ups in the state.

ghost use Rattle.std.specs.Prelude.{◌≡◌, ◌∷◌, ◌||◌, IfErr, IfOk, List, Option, Some, find};
ghost use Rattle.std.specs.List.{list_any};
ghost use Rattle.std.specs.Option.{option_copied};
ghost use Rattle.view_types.specs.declared.refusal.Refusal.{Refusal};
ghost use Rattle.region_map.specs.Platforms.{IsSound};
ghost use Rattle.label_table.specs.Wholes.{all_ready};
ghost use Rattle.label_sets.specs.Sets.{labels_in};
ghost use Rattle.table_steps.specs.Refusals.{area_not_ready, first_of, unknown_dimm};
ghost use Rattle.table_steps.specs.Release.{region_lacks_area, release_refusals};
ghost use Rattle.namespace_commands.specs.Keys.{IsRefusedBy};
ghost use Rattle.namespace_commands.specs.Lists.{AreHeldOf, IsStateOf};
ghost use Rattle.namespace_commands.specs.Releases.{IsReadyHeld, is_fixed_with, is_with, is_with_in, lacks_area};

use crate::lists::ready_view;
use crate::refusals::Unanswered;
use label_sets::Sets;
use region_map::{Platform, Region};
use std::alloc::{AllocError, Global};
use view_types::{AreaState, Held, List, Refusal, Status};

/// The first refusal of a release that applies. `None` exactly where it is accepted.
pub(crate) fn release_refusal(
    alloc: Global,
    platform: &Platform,
    sets: &Sets,
    dimm: u32,
    uuid: &[u8; 16],
) -> Result<Option<Refusal>, AllocError>
    requires sound { IsSound platform.now }
    requires state { IsStateOf platform.now sets.now }
    ensures { IfOk result (λ refusal. refusal
        ≡ first_of (release_refusals platform.now (labels_in sets.now) dimm uuid.now)) }
{
    let held = match ready_held(alloc, platform, sets, dimm) {
        Ok(held) => held,
        Err(Unanswered::Refused(refusal)) => return Ok(Some(refusal)),
        Err(Unanswered::Memory) => return Err(AllocError),
    };
    let held = held.as_slice();
    if !has_one(held, uuid) {
        return Ok(Some(Refusal::NotHeld));
    }
    match region_refusal(alloc, platform, sets, dimm, held, uuid) {
        Ok(None) => (),
        Ok(Some(refusal)) => return Ok(Some(refusal)),
        Err(AllocError) => return Err(AllocError),
    }
    if has_fixed(held, uuid) {
        let uuid = *uuid;
        return Ok(Some(Refusal::ReadOnly { uuid }));
    }
    Ok(None)
}

/// The held labels of a module whose area is Ready.
fn ready_held(
    alloc: Global,
    platform: &Platform,
    sets: &Sets,
    dimm: u32,
) -> Result<List<Held>, Unanswered>
    requires { IsStateOf platform.now sets.now }
    ensures held { IfOk result (λ held. IsReadyHeld platform.now (labels_in sets.now) dimm held) }
    ensures refused { (more : List (Option Refusal)) → IfErr result (IsRefusedBy
        (first_of (unknown_dimm platform.now dimm ∷ area_not_ready (labels_in sets.now) dimm ∷ more))) }
{
    let view = match sets.module_view(alloc, dimm) {
        Ok(Some(view)) => view,
        Ok(None) => return Err(Unanswered::Refused(Refusal::UnknownDimm { dimm })),
        Err(AllocError) => return Err(Unanswered::Memory),
    };
    match view.state {
        AreaState::Ready { .. } => Ok(view.held),
        state => Err(Unanswered::Refused(Refusal::NotReady {
            status: Status::Area { dimm, state },
        })),
    }
}

/// One of the labels has the uuid.
fn has_one(held: &[Held], uuid: &[u8; 16]) -> bool
    ensures { result ≡ list_any (is_with uuid.now) held.now }
{
    held.iter().any(|label| *uuid == label.uuid)
}

/// One of the labels with the uuid is read-only, or not of an interleave set.
fn has_fixed(held: &[Held], uuid: &[u8; 16]) -> bool
    ensures { result ≡ list_any (is_fixed_with uuid.now) held.now }
{
    held.iter().any(|label| *uuid == label.uuid && (label.read_only || label.local))
}

/// The state of the region that one of the held labels with the uuid belongs to, where a module of it has an area that
/// is not Ready. Of several such regions it is that of the least index.
fn region_refusal(
    alloc: Global,
    platform: &Platform,
    sets: &Sets,
    dimm: u32,
    held: &[Held],
    uuid: &[u8; 16],
) -> Result<Option<Refusal>, AllocError>
    requires sound { IsSound platform.now }
    requires state { IsStateOf platform.now sets.now }
    requires held { AreHeldOf platform.now (labels_in sets.now) dimm held.now }
    ensures { IfOk result (λ refusal. refusal
        ≡ region_lacks_area platform.now (labels_in sets.now) dimm uuid.now) }
{
    let Some(region) = lacking_region(platform.regions.as_slice(), sets, held, uuid) else {
        return Ok(None);
    };
    match ready_view(alloc, platform, sets, region.index) {
        Ok(_) => Ok(None),
        Err(Unanswered::Refused(refusal)) => Ok(Some(refusal)),
        Err(Unanswered::Memory) => Err(AllocError),
    }
}

/// The first of some regions that has one of the labels with the uuid, and a module whose area is not Ready.
fn lacking_region<'a>(
    regions: &'a [Region],
    sets: &Sets,
    held: &[Held],
    uuid: &[u8; 16],
) -> Option<&'a Region>
    ensures { option_copied result ≡ find (lacks_area (labels_in sets.now) held.now uuid.now) regions.now }
{
    regions
        .iter()
        .find(|region| lacks_area(sets, held, uuid, region))
}

/// One of the labels with the uuid belongs to the region, and a module of it has an area that is not Ready.
fn lacks_area(sets: &Sets, held: &[Held], uuid: &[u8; 16], region: &Region) -> bool
    ensures { result ≡ lacks_area (labels_in sets.now) held.now uuid.now region.now }
{
    has_one_in(held, uuid, region.index) && !all_ready(sets, region)
}

/// One of the labels has the uuid, and belongs to the region with this index.
fn has_one_in(held: &[Held], uuid: &[u8; 16], index: u16) -> bool
    ensures { result ≡ list_any (is_with_in uuid.now index) held.now }
{
    held.iter().any(|label| is_with_in(label, uuid, index))
}

/// The label has the uuid, and belongs to the region with this index.
fn is_with_in(label: &Held, uuid: &[u8; 16], index: u16) -> bool
    ensures { result ≡ is_with_in uuid.now index label.now }
{
    match label.region {
        Some(other) => *uuid == label.uuid && other == index,
        None => false,
    }
}

/// The areas of all modules of the region are Ready.
fn all_ready(sets: &Sets, region: &Region) -> bool
    ensures { result ≡ all_ready region.now (labels_in sets.now) }
{
    region
        .members
        .as_slice()
        .iter()
        .all(|member| sets.is_ready(member.handle))
}
