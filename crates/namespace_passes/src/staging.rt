//! One label for each member of a region, by one flip each.

ghost use Rattle.std.specs.Prelude.{◌≡◌, ◌+◌, ◌<◌, ◌^◌, IsTrue, List, OnErr, OnOk, length};
ghost use Rattle.std.specs.Prelude.{slice_index_or};
ghost use Rattle.label_codec.specs.ModuleLabels.{is_ready};
ghost use Rattle.label_table.specs.Belonging.{member_at};
ghost use Rattle.label_table.specs.Tables.{state};
ghost use Rattle.region_labels.specs.declared.modules.LoadedModule.{LoadedModule};
ghost use Rattle.region_labels.specs.declared.region.RegionLabels.{RegionLabels};
ghost use Rattle.region_labels.specs.Fates.{platform_of};
ghost use Rattle.region_labels.specs.Modules.{labels_in};
ghost use Rattle.region_labels.specs.Regions.{handles};
ghost use Rattle.module_flips.specs.Together.{StaysTogether};
ghost use Rattle.namespace_passes.specs.Staged.{IsBeforeOrWith, new_space, staged_label};
ghost use Rattle.namespace_passes.specs.Staging.{AreStaged, CanStage, CanStageAt, IsStaged, StagedBelow};
ghost use Rattle.module_flips.specs.Passes.{AreSized, IsPass, kept_of};

use label_codec::{Label, UPDATING};
use module_flips::{AreaFailed, put_at};
use region_labels::{LoadedModule, RegionLabels};
use region_map::Region;
use rig_trait::Rig;
use view_types::{Namespace, persistent_memory};

/// Puts the label of a new namespace, marked as being changed, into the module of each member of its region, by
/// ascending position and one flip each. By the last one the namespace stands, and is pending. Offset and length of
/// `space` are in bytes of each member's part; its `pending` and `read_only` are not looked at. It takes no memory. A
/// stop at any moment leaves areas that stand for the state before, or for that with the namespace. `Err` where the rig
/// failed, with the module's handle: the modules of the positions before keep their labels then, and what is kept
/// stands for the state before.
pub fn stage_labels<R: Rig>(
    rig: &mut R,
    modules: &mut [LoadedModule],
    regions: &mut [RegionLabels],
    region: &Region,
    space: &Namespace,
) -> Result<(), AreaFailed>
    requires stage { CanStage modules.old regions.old region.now space.now }
    requires sized { AreSized R.Shown rig.old modules.old }
    ensures staged { OnOk result (IsStaged modules.old regions.old region.now (new_space space.now) modules.new) }
    ensures labels { OnOk result (AreStaged region.now space.now (labels_in modules.new)) }
    ensures failed { OnErr result (state (platform_of regions.old) (labels_in modules.new)
        ≡ state (platform_of regions.old) (labels_in modules.old)) }
    ensures together { StaysTogether modules.old regions.old modules.new regions.new }
    ensures pass { IsPass (handles region.now)
        (IsBeforeOrWith (platform_of regions.old) region.now (new_space space.now) (labels_in modules.old))
        R.Shown (kept_of modules.old regions.old) rig.old (kept_of modules.new regions.new) rig.new result }
{
    for position in 0..region.members.len() {
        match stage_at(rig, modules, regions, region, space, position) {
            Ok(()) => (),
            Err(failed) => return Err(failed),
        }
    }
    Ok(())
}

/// Puts the label of a position into the module of the member there. After a failure modules and regions are as
/// before.
fn stage_at<R: Rig>(
    rig: &mut R,
    modules: &mut [LoadedModule],
    regions: &mut [RegionLabels],
    region: &Region,
    space: &Namespace,
    position: usize,
) -> Result<(), AreaFailed>
    requires position { position < length region.now.members }
    requires stage { CanStageAt modules.old regions.old region.now space.now position }
    requires sized { AreSized R.Shown rig.old modules.old }
    ensures staged { (before : List LoadedModule) (regions_before : List RegionLabels)
        → CanStage before regions_before region.now space.now
        → StagedBelow before regions_before region.now space.now position modules.old regions.old
        → OnOk result (StagedBelow before regions_before region.now space.now (position + 1) modules.new regions.new) }
    ensures kept { OnErr result (modules.new ≡ modules.old) }
    ensures kept_regions { OnErr result (regions.new ≡ regions.old) }
    ensures pass { (before : List LoadedModule) (regions_before : List RegionLabels)
        → CanStage before regions_before region.now space.now
        → StagedBelow before regions_before region.now space.now position modules.old regions.old
        → IsPass (handles region.now)
        (IsBeforeOrWith (platform_of regions_before) region.now (new_space space.now) (labels_in before))
        R.Shown (kept_of modules.old regions.old) rig.old (kept_of modules.new regions.new) rig.new result }
{
    let seat = seat_of(modules, region.members.as_slice()[position].handle);
    let label = staged_label(region, space, position);
    put_at(rig, modules, regions, seat, &label, None)
}

/// The label of a namespace that is being made, for the module at a position.
fn staged_label(region: &Region, space: &Namespace, position: usize) -> Label
    requires position { position < length region.now.members }
    requires few { length region.now.members < 2 ^ 16 }
    requires address { (member_at region.now position).dpa_base + space.now.offset < 2 ^ 64 }
    ensures { result ≡ staged_label region.now space.now position }
{
    let members = region.members.as_slice();
    Label {
        uuid: space.uuid,
        name: space.name,
        flags: UPDATING,
        nlabel: members.len() as u16,
        position: position as u16,
        cookie: region.cookie,
        lba_size: space.sector,
        dpa: members[position].dpa_base + space.offset,
        raw_size: space.length,
        slot: 0,
        alignment: 0,
        type_guid: persistent_memory(),
        abstraction: space.abstraction,
    }
}

/// Where the module with a device handle stands, whose area is Ready.
fn seat_of(modules: &[LoadedModule], dimm: u32) -> usize
    requires { IsTrue (is_ready (labels_in modules.now dimm).kind) }
    ensures within { result < length modules.now }
    ensures dimm { (d : LoadedModule) → (slice_index_or modules.now result d).dimm ≡ dimm }
{
    for (seat, loaded) in modules.iter().enumerate() {
        if loaded.dimm == dimm {
            return seat;
        }
    }
    unreachable!()
}
