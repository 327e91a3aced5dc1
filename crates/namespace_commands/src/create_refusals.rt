//! Why a create is refused: look-ups in the state.

ghost use Rattle.std.specs.Prelude.{◌≡◌, IfOk, List, Some};
ghost use Rattle.view_types.specs.declared.extents.Extent.{Extent};
ghost use Rattle.region_map.specs.Platforms.{IsSound, region_at};
ghost use Rattle.label_table.specs.Division.{AreFreeExtents};
ghost use Rattle.label_table.specs.Statuses.{RegionReady, status};
ghost use Rattle.label_sets.specs.Sets.{labels_in, platform_in};
ghost use Rattle.label_sets.specs.Staging.{OfRegion};
ghost use Rattle.table_steps.specs.Create as table;
ghost use Rattle.table_steps.specs.Create.{is_unnamed, name_in_use_in, no_space_in};
ghost use Rattle.table_steps.specs.Refusals.{no_slots_in, unhealed_in};
ghost use Rattle.namespace_commands.specs.Create.{IsCreateRefusal, first_named};
ghost use Rattle.namespace_commands.specs.Lists.{IsStateOf};

use crate::lists::learned_refusal;
use label_sets::Sets;
use region_labels::Named;
use region_map::{Platform, Region};
use std::alloc::{AllocError, Global};
use table_steps::{NewNamespace, bad_size};
use view_types::Refusal;

/// Each module of the region needs two spare slots: one stays for what is written later, as the labels of a recovery.
const LEAST_SPARE: u32 = 2;

/// The first refusal of a create that applies. `None` exactly where it is accepted.
pub(crate) fn create_refusal(
    alloc: Global,
    platform: &Platform,
    sets: &mut Sets,
    asked: &NewNamespace,
) -> Result<Option<Refusal>, AllocError>
    requires sound { IsSound platform.now }
    requires state { IsStateOf platform.now sets.old }
    ensures same { sets.new ≡ sets.old }
    ensures refusal { IfOk result (IsCreateRefusal platform.now (labels_in sets.old) asked.now) }
{
    match learned_refusal(alloc, platform, sets, asked.region) {
        Ok(None) => (),
        Ok(Some(refusal)) => return Ok(Some(refusal)),
        Err(fault) => return Err(fault),
    }
    let Some(region) = platform.region(asked.region) else {
        // The state has no other regions.
        unreachable!()
    };
    ready_refusal(alloc, platform, sets, region, asked)
}

/// The first refusal of a create in a region that is Ready.
fn ready_refusal(
    alloc: Global,
    platform: &Platform,
    sets: &mut Sets,
    region: &Region,
    asked: &NewNamespace,
) -> Result<Option<Refusal>, AllocError>
    requires sound { IsSound platform.now }
    requires state { IsStateOf platform.now sets.old }
    requires known { region_at platform.now asked.now.region ≡ Some region.now }
    requires ready { status (labels_in sets.old) region.now ≡ RegionReady }
    ensures same { sets.new ≡ sets.old }
    ensures refusal { IfOk result (IsCreateRefusal platform.now (labels_in sets.old) asked.now) }
{
    let index = asked.region;
    // An accepted create makes each of these look-ups.
    let refusal = unhealed(sets, index)
        .or(bad_size(asked.size, region))
        .or(name_in_use(sets, index, &asked.name))
        .or(uuid_in_use(platform, sets, &asked.uuid));
    let no_slots = no_slots(sets, index, LEAST_SPARE);
    let no_space = no_space(alloc, sets, index, asked.size)?;
    Ok(refusal.or(no_space).or(no_slots))
}

/// A namespace of the region is pending, and one of its modules has no slot for the labels of a recovery.
pub(crate) fn unhealed(sets: &Sets, index: u16) -> Option<Refusal>
    ensures { OfRegion sets.now index (λ region. result
        ≡ unhealed_in (platform_in sets.now) (labels_in sets.now) region) }
{
    match sets.first_pending(index) {
        Some(_) => match sets.first_without_spare(index, 1) {
            Some(short) => Some(Refusal::Unhealed { dimm: short.dimm }),
            None => None,
        },
        None => None,
    }
}

/// A namespace of the region has the name.
fn name_in_use(sets: &Sets, index: u16, name: &[u8; 64]) -> Option<Refusal>
    ensures { OfRegion sets.now index (λ region. result ≡ name_in_use_in (labels_in sets.now) name.now region) }
{
    if is_unnamed(name) {
        return None;
    }
    let Some(named) = sets.namespaces_named(index, name) else {
        return None;
    };
    match first_named(&named) {
        Some(uuid) => Some(Refusal::NameInUse { uuid }),
        None => None,
    }
}

/// The uuid of the first namespace with a name.
fn first_named(named: &Named) -> Option<[u8; 16]>
    ensures { result ≡ first_named named.now }
{
    match named {
        Named::None => None,
        Named::One(space) => {
            let uuid = space.uuid;
            Some(uuid)
        }
        Named::Several { first, .. } => {
            let uuid = first.uuid;
            Some(uuid)
        }
    }
}

/// Whether a name is empty.
pub(crate) fn is_unnamed(name: &[u8; 64]) -> bool
    ensures { result ≡ is_unnamed name.now }
{
    name[0] == 0
}

/// A label with the uuid stands in the area of a module, and is not dead.
fn uuid_in_use(platform: &Platform, sets: &Sets, uuid: &[u8; 16]) -> Option<Refusal>
    requires sound { IsSound platform.now }
    requires state { IsStateOf platform.now sets.now }
    ensures { result ≡ table.uuid_in_use platform.now (labels_in sets.now) uuid.now }
{
    match sets.holder_of(uuid) {
        Some(dimm) => Some(Refusal::UuidInUse { dimm }),
        None => None,
    }
}

/// The greatest namespace that the free extents of the region have room for is smaller than `size` bytes.
fn no_space(
    alloc: Global,
    sets: &mut Sets,
    index: u16,
    size: u64,
) -> Result<Option<Refusal>, AllocError>
    ensures same { sets.new ≡ sets.old }
    ensures refusal { OfRegion sets.old index (λ region. (free : List Extent)
        → AreFreeExtents (platform_in sets.old) (labels_in sets.old) region free
        → IfOk result (λ refusal. refusal ≡ no_space_in free size region)) }
{
    let largest = sets.largest(alloc, index)?;
    match largest {
        Some(largest) if largest < size => Ok(Some(Refusal::NoSpace { largest })),
        _ => Ok(None),
    }
}

/// A module of the region has fewer spare slots than `least`.
pub(crate) fn no_slots(sets: &Sets, index: u16, least: u32) -> Option<Refusal>
    ensures { OfRegion sets.now index (λ region. result
        ≡ no_slots_in (platform_in sets.now) (labels_in sets.now) least region) }
{
    match sets.first_without_spare(index, least) {
        Some(short) => Some(Refusal::NoSlots {
            dimm: short.dimm,
            spare: short.spare,
        }),
        None => None,
    }
}
