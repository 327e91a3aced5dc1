//! The command that makes a namespace.

ghost use Rattle.std.specs.Prelude.{◌≡◌, IfOk, None, OnErr, OnOk, Some, true};
ghost use Rattle.region_map.specs.Platforms.{IsSound, region_at};
ghost use Rattle.region_labels.specs.Regions.{handles};
ghost use Rattle.namespace_passes.specs.Staged.{new_space};
ghost use Rattle.label_sets.specs.Sets.{kept_in, labels_in, state_in};
ghost use Rattle.table_steps.specs.Changes.{least_spare};
ghost use Rattle.table_steps.specs.Create.{Creates, IsCreated};
ghost use Rattle.namespace_commands.specs.Create.{CanPutIn, IsBeforeOrAfter, IsCreateRefusal, IsNewSpace};
ghost use Rattle.namespace_commands.specs.Create.{IsPutIn, IsTableOrWith};
ghost use Rattle.namespace_commands.specs.Create.{modules_of};
ghost use Rattle.namespace_commands.specs.Lists.{IsStateOf};
ghost use Rattle.module_flips.specs.Passes.{AreSized, IsPass};
ghost use Rattle.namespace_commands.specs.Commands.{IsChange};

use crate::create_refusals::create_refusal;
use crate::recovering::recover_ready;
use label_sets::{AreaFailed, Sets};
use region_map::{Member, Platform, Region};
use rig_trait::Rig;
use std::alloc::{AllocError, Global};
use table_steps::NewNamespace;
use view_types::{Namespace, Reply};

/// Why a command that changes areas has no answer.
#[derive(Clone, Copy, Debug, PartialEq, Eq)]
pub enum ChangeFault {
    /// The rig failed, at the area of the module with this device handle. The table is that before the command, or
    /// that behind it.
    Area { dimm: u32 },
    /// No memory was given. Nothing was written.
    Memory,
}

/// Makes a namespace in a region, on the first range that fits it: its labels go into all modules of the region, after
/// the region is recovered. The reply tells where it stands, or why nothing was done: nothing was written then. A stop
/// at any moment leaves areas that stand for the table before the command, or for that behind it.
pub fn create<R: Rig>(
    alloc: Global,
    rig: &mut R,
    platform: &Platform,
    sets: &mut Sets,
    asked: &NewNamespace,
) -> Result<Reply, ChangeFault>
    requires sound { IsSound platform.now }
    requires state { IsStateOf platform.now sets.old }
    requires sized { AreSized R.Shown rig.old sets.old.modules }
    ensures { IsChange (modules_of platform.now asked.now.region) platform.now
        (Creates platform.now (labels_in sets.old) asked.now) R.Shown sets.old rig.old sets.new rig.new result }
{
    match create_refusal(alloc, platform, sets, asked) {
        Ok(None) => (),
        Ok(Some(refusal)) => return Ok(Reply::Refused(refusal)),
        Err(_) => return Err(ChangeFault::Memory),
    }
    let Some(region) = platform.region(asked.region) else {
        // Else it is refused.
        unreachable!()
    };
    let Ok(space) = prepare(alloc, platform, sets, region, asked) else {
        return Err(ChangeFault::Memory);
    };
    match make(rig, platform, sets, region, asked, &space) {
        Ok(reply) => Ok(reply),
        Err(failed) => Err(ChangeFault::Area { dimm: failed.dimm }),
    }
}

/// Finds the place of a namespace that nothing refuses, and takes all the memory that its create needs.
fn prepare(
    alloc: Global,
    platform: &Platform,
    sets: &mut Sets,
    region: &Region,
    asked: &NewNamespace,
) -> Result<Namespace, AllocError>
    requires state { IsStateOf platform.now sets.old }
    requires known { region_at platform.now asked.now.region ≡ Some region.now }
    requires unrefused { IsCreateRefusal platform.now (labels_in sets.old) asked.now None }
    ensures room { OnOk result (sets.new ≡ record sets.old { room = true }) }
    ensures space { IfOk result (IsNewSpace platform.now (labels_in sets.old) asked.now region.now) }
    ensures kept { OnErr result (sets.new ≡ sets.old) }
{
    let space = new_namespace(alloc, platform, sets, region, asked)?;
    sets.reserve()?;
    Ok(space)
}

/// Makes a namespace that nothing refuses.
fn make<R: Rig>(
    rig: &mut R,
    platform: &Platform,
    sets: &mut Sets,
    region: &Region,
    asked: &NewNamespace,
    space: &Namespace,
) -> Result<Reply, AreaFailed>
    requires sound { IsSound platform.now }
    requires state { IsStateOf platform.now sets.old }
    requires known { region_at platform.now asked.now.region ≡ Some region.now }
    requires unrefused { IsCreateRefusal platform.now (labels_in sets.old) asked.now None }
    requires space { IsNewSpace platform.now (labels_in sets.old) asked.now region.now space.now }
    requires room { sets.old.room ≡ true }
    requires sized { AreSized R.Shown rig.old sets.old.modules }
    ensures made { IfOk result (λ reply.
        IsCreated platform.now (labels_in sets.old) asked.now reply (state_in sets.new)) }
    ensures pass { IsPass (handles region.now) (IsBeforeOrAfter platform.now (labels_in sets.old) asked.now) R.Shown
        (kept_in sets.old) rig.old (kept_in sets.new) rig.new result }
{
    match recover_ready(rig, platform, sets, region) {
        Ok(()) => (),
        Err(failed) => return Err(failed),
    }
    // As free as they are spare, the modules have no dead label with the uuid.
    sets.sweep_law();
    match put_namespace(rig, platform, sets, region, space) {
        Ok(()) => Ok(created(sets, region, asked, space)),
        Err(failed) => Err(failed),
    }
}

/// The namespace that a create makes where nothing refuses it.
fn new_namespace(
    alloc: Global,
    platform: &Platform,
    sets: &mut Sets,
    region: &Region,
    asked: &NewNamespace,
) -> Result<Namespace, AllocError>
    requires state { IsStateOf platform.now sets.old }
    requires known { region_at platform.now asked.now.region ≡ Some region.now }
    requires unrefused { IsCreateRefusal platform.now (labels_in sets.old) asked.now None }
    ensures same { sets.new ≡ sets.old }
    ensures space { IfOk result (IsNewSpace platform.now (labels_in sets.old) asked.now region.now) }
{
    let uuid = asked.uuid;
    let name = asked.name;
    let abstraction = asked.abstraction;
    let length = asked.size / region.members.len() as u64;
    let Some(offset) = sets.first_fit(alloc, asked.region, length)? else {
        // The free extents have room for the size.
        unreachable!()
    };
    Ok(Namespace {
        uuid,
        name,
        abstraction,
        sector: asked.sector,
        offset,
        length,
        pending: true,
        read_only: false,
    })
}

/// Puts the labels of a new namespace into the modules of its region, and heals it.
fn put_namespace<R: Rig>(
    rig: &mut R,
    platform: &Platform,
    sets: &mut Sets,
    region: &Region,
    space: &Namespace,
) -> Result<(), AreaFailed>
    requires sound { IsSound platform.now }
    requires platform { platform.now.regions ≡ sets.old.regions }
    requires known { region_at platform.now region.now.index ≡ Some region.now }
    requires put { CanPutIn sets.old space.now region.now }
    requires room { sets.old.room ≡ true }
    requires sized { AreSized R.Shown rig.old sets.old.modules }
    ensures put { OnOk result (IsPutIn sets.old sets.new (new_space space.now) region.now) }
    ensures pass { IsPass (handles region.now) (IsTableOrWith sets.old region.now (new_space space.now)) R.Shown
        (kept_in sets.old) rig.old (kept_in sets.new) rig.new result }
{
    match sets.stage_all(rig, platform, region.index, space) {
        Ok(()) => sets.clear_all(rig, platform, region.index, &space.uuid),
        Err(failed) => Err(failed),
    }
}

/// The reply to a create: `sets` has the namespace.
fn created(sets: &Sets, region: &Region, asked: &NewNamespace, space: &Namespace) -> Reply
    ensures { result ≡ Reply.Created asked.now.uuid asked.now.region space.now.offset space.now.length asked.now.size
        (least_spare (state_in sets.now) region.now) }
{
    let uuid = asked.uuid;
    Reply::Created {
        uuid,
        region: asked.region,
        offset: space.offset,
        length: space.length,
        size: asked.size,
        spare: least_spare(sets, region),
    }
}

/// The least number of spare slots that a module of the region has.
fn least_spare(sets: &Sets, region: &Region) -> u32
    ensures { result ≡ least_spare (state_in sets.now) region.now }
{
    let Some((first, others)) = region.members.as_slice().split_first() else {
        return 0;
    };
    let mut least = spare_of(sets, first);
    for other in others {
        least = least.min(spare_of(sets, other));
    }
    least
}

/// The spare slots of a member's module: 0 where its area is not Ready.
fn spare_of(sets: &Sets, member: &Member) -> u32
    ensures { result ≡ (state_in sets.now).table.spare member.now.handle }
{
    sets.spare(member.handle).unwrap_or(0)
}
