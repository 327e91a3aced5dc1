//! The commands that list the state of the label storage areas (UEFI 2.7, section 13.19).

ghost use Rattle.std.specs.Prelude.{◌≡◌, ◌++◌, IfErr, IfOk, None, OnOk};
ghost use Rattle.label_sets.specs.Sets.{labels_in};
ghost use Rattle.label_table.specs.Statuses.{status};
ghost use Rattle.region_map.specs.Platforms.{IsSound, region_at};
ghost use Rattle.table_steps.specs.Refusals.{first_of};
ghost use Rattle.namespace_commands.specs.Lists.{AreRegions, AreSpaces, IsFree, IsHeld, IsReadyView, IsShown, IsStateOf};
ghost use Rattle.namespace_commands.specs.Lists.{IsUnread, listed_in_view, refusal_by, refusal_of, shown_region, spaces_by};
ghost use Rattle.namespace_commands.specs.Lists.{spaces_of, spaces_of_all, unread};

use crate::refusals::Unanswered;
use cmd_words::Query;
use label_sets::Sets;
use region_map::{Platform, Region};
use std::alloc::{AllocError, Global};
use view_types::{AreaState, List, Listed, Refusal, RegionView, Reply, Status};

/// The reply to what is asked of the state of a platform's modules.
///
/// Refused are, in this order, a region or a module that the platform does not have, a region that cannot be used, and
/// one that is not Ready, or a module whose area is not.
pub fn show(
    alloc: Global,
    platform: &Platform,
    sets: &mut Sets,
    query: Query,
) -> Result<Reply, AllocError>
    requires sound { IsSound platform.now }
    requires state { IsStateOf platform.now sets.old }
    ensures same { sets.new ≡ sets.old }
    ensures shown { IfOk result (IsShown platform.now (labels_in sets.old) query) }
{
    match query {
        Query::Spaces { region: None } => all_spaces(alloc, platform, sets),
        Query::Spaces {
            region: Some(index),
        } => region_spaces(alloc, platform, sets, index),
        Query::Regions => regions(alloc, platform, sets),
        Query::Free { region } => free_extents(alloc, platform, sets, region),
        Query::Held { dimm } => held_labels(alloc, platform, sets, dimm),
    }
}

/// The namespaces of all regions that are Ready.
fn all_spaces(alloc: Global, platform: &Platform, sets: &Sets) -> Result<Reply, AllocError>
    requires sound { IsSound platform.now }
    requires state { IsStateOf platform.now sets.now }
    ensures { IfOk result (AreSpaces platform.now (labels_in sets.now) None) }
{
    let mut spaces = Vec::new(alloc);
    for region in platform.regions.as_slice() {
        push_spaces(alloc, platform, sets, region, &mut spaces)?;
    }
    Ok(Reply::Namespaces(List::from_vec(spaces)))
}

/// Adds the namespaces of a region of the platform, if it is Ready.
fn push_spaces(
    alloc: Global,
    platform: &Platform,
    sets: &Sets,
    region: &Region,
    spaces: &mut Vec<Listed>,
) -> Result<(), AllocError>
    requires state { IsStateOf platform.now sets.now }
    requires known { region_at platform.now region.now.index ≡ Some region.now }
    ensures { OnOk result (spaces.new.items ≡ spaces.old.items
        ++ spaces_by (status (labels_in sets.now) region.now) (spaces_of (labels_in sets.now) region.now)) }
{
    match ready_view(alloc, platform, sets, region.index) {
        Ok(view) => push_listed(&view, spaces),
        Err(Unanswered::Refused(_)) => Ok(()),
        Err(Unanswered::Memory) => Err(AllocError),
    }
}

/// Adds the namespaces of a region.
fn push_listed(view: &RegionView, spaces: &mut Vec<Listed>) -> Result<(), AllocError>
    ensures { OnOk result (spaces.new.items ≡ spaces.old.items ++ listed_in_view view.now) }
{
    for space in view.namespaces.as_slice() {
        spaces.push(Listed {
            region: view.index,
            ways: view.ways,
            space: *space,
        })?;
    }
    Ok(())
}

/// The namespaces of a region.
fn region_spaces(
    alloc: Global,
    platform: &Platform,
    sets: &Sets,
    index: u16,
) -> Result<Reply, AllocError>
    requires state { IsStateOf platform.now sets.now }
    ensures { IfOk result (AreSpaces platform.now (labels_in sets.now) (Some index)) }
{
    let view = match ready_view(alloc, platform, sets, index) {
        Ok(view) => view,
        Err(Unanswered::Refused(refusal)) => return Ok(Reply::Refused(refusal)),
        Err(Unanswered::Memory) => return Err(AllocError),
    };
    let mut spaces = Vec::new(alloc);
    push_listed(&view, &mut spaces)?;
    Ok(Reply::Namespaces(List::from_vec(spaces)))
}

/// All regions, by index.
fn regions(alloc: Global, platform: &Platform, sets: &Sets) -> Result<Reply, AllocError>
    requires sound { IsSound platform.now }
    requires state { IsStateOf platform.now sets.now }
    ensures { IfOk result (AreRegions platform.now (labels_in sets.now)) }
{
    let mut shown = Vec::new(alloc);
    for region in platform.regions.as_slice() {
        shown.push(shown_region(alloc, platform, sets, region)?)?;
    }
    Ok(Reply::Regions(List::from_vec(shown)))
}

/// A region of the platform, without its namespaces and its free extents.
fn shown_region(
    alloc: Global,
    platform: &Platform,
    sets: &Sets,
    region: &Region,
) -> Result<RegionView, AllocError>
    requires state { IsStateOf platform.now sets.now }
    requires known { region_at platform.now region.now.index ≡ Some region.now }
    ensures { IfOk result (λ view. view ≡ shown_region (labels_in sets.now) region.now) }
{
    match sets.region_view(alloc, region.index)? {
        Some(view) => Ok(RegionView {
            namespaces: List::new(alloc),
            free: List::new(alloc),
            ..view
        }),
        // The state has all regions of the platform.
        None => unreachable!(),
    }
}

/// The free extents of a region, and the size of the greatest namespace that they have room for.
fn free_extents(
    alloc: Global,
    platform: &Platform,
    sets: &mut Sets,
    index: u16,
) -> Result<Reply, AllocError>
    requires state { IsStateOf platform.now sets.old }
    ensures same { sets.new ≡ sets.old }
    ensures free { IfOk result (IsFree platform.now (labels_in sets.old) index) }
{
    match learned_refusal(alloc, platform, sets, index)? {
        None => free_reply(alloc, platform, sets, index),
        Some(refusal) => Ok(Reply::Refused(refusal)),
    }
}

/// The same of a region that is Ready.
fn free_reply(
    alloc: Global,
    platform: &Platform,
    sets: &mut Sets,
    index: u16,
) -> Result<Reply, AllocError>
    requires state { IsStateOf platform.now sets.old }
    requires unrefused { first_of (unread platform.now (labels_in sets.old) index) ≡ None }
    ensures same { sets.new ≡ sets.old }
    ensures free { IfOk result (IsFree platform.now (labels_in sets.old) index) }
{
    let extents = sets.free_extents(alloc, index)?;
    let largest = sets.largest(alloc, index)?;
    let (Some(extents), Some(largest)) = (extents, largest) else {
        // The state has the region.
        unreachable!()
    };
    Ok(Reply::Free { extents, largest })
}

/// The held labels of a module, and its spare slots.
fn held_labels(
    alloc: Global,
    platform: &Platform,
    sets: &Sets,
    dimm: u32,
) -> Result<Reply, AllocError>
    requires state { IsStateOf platform.now sets.now }
    ensures { IfOk result (IsHeld platform.now (labels_in sets.now) dimm) }
{
    let Some(view) = sets.module_view(alloc, dimm)? else {
        return Ok(Reply::Refused(Refusal::UnknownDimm { dimm }));
    };
    match view.state {
        AreaState::Ready { spare, .. } => Ok(Reply::HeldList {
            held: view.held,
            spare,
        }),
        state => Ok(Reply::Refused(Refusal::NotReady {
            status: Status::Area { dimm, state },
        })),
    }
}

/// The first refusal of a command that asks for a region that is Ready.
pub(crate) fn region_refusal(
    alloc: Global,
    platform: &Platform,
    sets: &Sets,
    index: u16,
) -> Result<Option<Refusal>, AllocError>
    requires state { IsStateOf platform.now sets.now }
    ensures { IfOk result (λ refusal. refusal ≡ first_of (unread platform.now (labels_in sets.now) index)) }
{
    let status = sets.status(alloc, index)?;
    Ok(refusal_of(status, index))
}

/// The same. A region that is Ready is known to be so from then on.
pub(crate) fn learned_refusal(
    alloc: Global,
    platform: &Platform,
    sets: &mut Sets,
    index: u16,
) -> Result<Option<Refusal>, AllocError>
    requires state { IsStateOf platform.now sets.old }
    ensures same { sets.new ≡ sets.old }
    ensures refusal { IfOk result (λ refusal. refusal
        ≡ first_of (unread platform.now (labels_in sets.old) index)) }
{
    let status = sets.learn_status(alloc, index)?;
    Ok(refusal_of(status, index))
}

/// Why nothing is told of the region with this index and status.
fn refusal_of(status: Option<Status>, index: u16) -> Option<Refusal>
    ensures { result ≡ refusal_of index status }
{
    match status {
        Some(status) => refusal_by(status),
        None => Some(Refusal::UnknownRegion { region: index }),
    }
}

/// The view of a region that is Ready.
pub(crate) fn ready_view(
    alloc: Global,
    platform: &Platform,
    sets: &Sets,
    index: u16,
) -> Result<RegionView, Unanswered>
    requires state { IsStateOf platform.now sets.now }
    ensures view { IfOk result (IsReadyView platform.now (labels_in sets.now) index) }
    ensures fault { IfErr result (IsUnread platform.now (labels_in sets.now) index) }
{
    let view = match sets.region_view(alloc, index) {
        Ok(Some(view)) => view,
        Ok(None) => {
            return Err(Unanswered::Refused(Refusal::UnknownRegion { region: index }));
        }
        Err(AllocError) => return Err(Unanswered::Memory),
    };
    match refusal_by(view.status) {
        None => Ok(view),
        Some(refusal) => Err(Unanswered::Refused(refusal)),
    }
}

/// Why nothing is told of a region with this status.
fn refusal_by(status: Status) -> Option<Refusal>
    ensures { result ≡ refusal_by status }
{
    match status {
        Status::Ready => None,
        Status::Unusable(rule) => Some(Refusal::Unusable { rule }),
        Status::Area { .. } | Status::Clash { .. } => Some(Refusal::NotReady { status }),
    }
}
