//! One flip of one module.

ghost use Rattle.std.specs.Prelude.{◌≡◌, ◌+◌, ◌<◌, ◌∷◌, IfErr, IfOk, IsTrue, None, OnErr, OnOk, [], length, slice_index_or};
ghost use Rattle.std.specs.List.{All, AllZip};
ghost use Rattle.std.specs.Result.{is_err};
ghost use Rattle.rig_trait.specs.Frames.{FailsAt, IsTold, LeavesOnly, WritesTo};
ghost use Rattle.label_area.specs.Flips.{LeftByFlip, replaced};
ghost use Rattle.region_labels.specs.declared.modules.LoadedModule.{LoadedModule};
ghost use Rattle.region_labels.specs.Modules.{EachOnce, labels_in, module_in, size_in};
ghost use Rattle.region_labels.specs.Regions.{IsOver};
ghost use Rattle.region_labels.specs.Changes.{dimm_at};
ghost use Rattle.region_labels.specs.Rooms.{HasRoomFor, KeepsRegion, room_after_free, room_after_put};
ghost use Rattle.region_labels.specs.SlotLabels.{replaced_label};
ghost use Rattle.module_flips.specs.Flips.{CanFree, IsFreedAt, IsOwn, IsReadyArea, IsSizedIn, is_used_in, standing_in};
ghost use Rattle.module_flips.specs.Flips.{HasFreeIn, IsPutAt, IsReplaced, first_slot_in, with_free, with_put};
ghost use Rattle.module_flips.specs.Flips.{with_put_at, without_slots_at};
ghost use Rattle.module_flips.specs.Stored.{StandsIn};
ghost use Rattle.module_flips.specs.Stops.{IsOneOf};
ghost use Rattle.module_flips.specs.Passes.{AreSized, IsPass, kept_of};
ghost use Rattle.module_flips.specs.Together.{IsTogether, StaysTogether, free_slots};

use label_codec::Label;
use region_labels::{
    LoadedModule, ModuleArea, RegionLabels, SlotLabel, follow_free, follow_put, slot_label,
};
use rig_trait::Rig;

/// The rig failed, at the area of this module.
#[derive(Clone, Copy, Debug, PartialEq, Eq)]
pub struct AreaFailed {
    pub dimm: u32,
}

/// Frees slots in use of a module whose area is Ready.
fn free_in<R: Rig>(rig: &mut R, loaded: &mut LoadedModule, slots: &[u32]) -> Result<(), AreaFailed>
    requires ready { IsReadyArea loaded.old.area }
    requires used { All (λ slot. IsTrue (is_used_in loaded.old slot)) slots.now }
    requires own { IsOwn loaded.old }
    requires sized { IsTold R.Shown rig.old → IsSizedIn (R.areas rig.old) loaded.old }
    ensures freed { OnOk result (standing_in loaded.new ≡ with_free slots.now (standing_in loaded.old)) }
    ensures kept { OnErr result (loaded.new ≡ loaded.old) }
    ensures dimm { loaded.new.dimm ≡ loaded.old.dimm }
    ensures size { size_in loaded.new ≡ size_in loaded.old }
    ensures own { IsOwn loaded.new }
    ensures stands { IsTold R.Shown rig.old → StandsIn (R.areas rig.old) loaded.old
        → OnOk result (StandsIn (R.areas rig.new) loaded.new) }
    ensures any_moment { IsTold R.Shown rig.old → StandsIn (R.areas rig.old) loaded.old
        → LeavesOnly R.Shown rig.old rig.new (LeftByFlip (R.areas rig.old) (R.said rig.old) loaded.old.dimm
        (with_free slots.now (standing_in loaded.old))) }
    ensures writes_only { WritesTo loaded.old.dimm R.Shown rig.old rig.new }
    ensures cause { FailsAt loaded.old.dimm R.Shown rig.old rig.new (is_err result) }
    ensures names { IfErr result (λ failed. failed.dimm ≡ loaded.old.dimm) }
    ensures reads { R.reads rig.new ≡ R.reads rig.old }
{
    let dimm = loaded.dimm;
    match &mut loaded.area {
        ModuleArea::Ready(area) => match area.free(rig, slots) {
            Ok(()) => Ok(()),
            Err(_) => Err(AreaFailed { dimm }),
        },
        ModuleArea::Missing => unreachable!(),
        ModuleArea::WrongSize { .. } => unreachable!(),
        ModuleArea::Uninit { .. } => unreachable!(),
        ModuleArea::Foreign { .. } => unreachable!(),
    }
}

/// Frees slots in use of the module at a seat, and the indexes of the regions follow. `lost` are the labels that are
/// live in these slots. After a failure modules and regions are as before.
pub fn free_at<R: Rig>(
    rig: &mut R,
    modules: &mut [LoadedModule],
    regions: &mut [RegionLabels],
    seat: usize,
    slots: &[u32],
    lost: &[SlotLabel],
) -> Result<(), AreaFailed>
    requires within { seat < length modules.old }
    requires free { (d : LoadedModule) → CanFree (slice_index_or modules.old seat d) slots.now lost.now }
    requires once { EachOnce modules.old }
    requires over { All (IsOver modules.old) regions.old }
    requires sized { AreSized R.Shown rig.old modules.old }
    ensures freed { OnOk result (IsFreedAt modules.old modules.new seat slots.now) }
    ensures labels { OnOk result (labels_in modules.new
        ≡ without_slots_at (dimm_at modules.old seat) slots.now (labels_in modules.old)) }
    ensures over { OnOk result (All (IsOver modules.new) regions.new) }
    ensures regions { OnOk result (AllZip (KeepsRegion (room_after_free (dimm_at modules.old seat) (length lost.now)))
        regions.old regions.new) }
    ensures kept { OnErr result (modules.new ≡ modules.old) }
    ensures kept_regions { OnErr result (regions.new ≡ regions.old) }
    ensures pass { IsPass (dimm_at modules.old seat ∷ []) (IsOneOf (labels_in modules.old)
        (without_slots_at (dimm_at modules.old seat) slots.now (labels_in modules.old)))
        R.Shown (kept_of modules.old regions.old) rig.old (kept_of modules.new regions.new) rig.new result }
{
    match free_in(rig, &mut modules[seat], slots) {
        Ok(()) => {
            follow_free(modules, seat, regions, lost);
            Ok(())
        }
        Err(failed) => Err(failed),
    }
}

/// Puts a label into the least free slot of a module whose area is Ready, and frees the slot of a label that it
/// replaces. It answers the slot.
fn put_in<R: Rig>(
    rig: &mut R,
    loaded: &mut LoadedModule,
    label: &Label,
    replaces: Option<u32>,
) -> Result<u32, AreaFailed>
    requires free { HasFreeIn loaded.old.area }
    requires replaces { IsReplaced loaded.old replaces }
    requires own { IsOwn loaded.old }
    requires sized { IsTold R.Shown rig.old → IsSizedIn (R.areas rig.old) loaded.old }
    ensures slot { IfOk result (λ slot. slot ≡ first_slot_in loaded.old) }
    ensures within { first_slot_in loaded.old < (module_in loaded.old).slots }
    ensures was_free { (module_in loaded.old).at (first_slot_in loaded.old) ≡ None }
    ensures put { OnOk result (standing_in loaded.new
        ≡ with_put (first_slot_in loaded.old) label.now replaces (standing_in loaded.old)) }
    ensures kept { OnErr result (loaded.new ≡ loaded.old) }
    ensures dimm { loaded.new.dimm ≡ loaded.old.dimm }
    ensures size { size_in loaded.new ≡ size_in loaded.old }
    ensures own { IsOwn loaded.new }
    ensures stands { IsTold R.Shown rig.old → StandsIn (R.areas rig.old) loaded.old
        → OnOk result (StandsIn (R.areas rig.new) loaded.new) }
    ensures any_moment { IsTold R.Shown rig.old → StandsIn (R.areas rig.old) loaded.old
        → LeavesOnly R.Shown rig.old rig.new (LeftByFlip (R.areas rig.old) (R.said rig.old) loaded.old.dimm
        (with_put (first_slot_in loaded.old) label.now replaces (standing_in loaded.old))) }
    ensures writes_only { WritesTo loaded.old.dimm R.Shown rig.old rig.new }
    ensures cause { FailsAt loaded.old.dimm R.Shown rig.old rig.new (is_err result) }
    ensures names { IfErr result (λ failed. failed.dimm ≡ loaded.old.dimm) }
    ensures reads { R.reads rig.new ≡ R.reads rig.old }
{
    let dimm = loaded.dimm;
    match &mut loaded.area {
        ModuleArea::Ready(area) => match area.put(rig, label, replaces) {
            Ok(slot) => Ok(slot),
            Err(_) => Err(AreaFailed { dimm }),
        },
        ModuleArea::Missing => unreachable!(),
        ModuleArea::WrongSize { .. } => unreachable!(),
        ModuleArea::Uninit { .. } => unreachable!(),
        ModuleArea::Foreign { .. } => unreachable!(),
    }
}

/// Puts a label into the module at a seat, in place of the one in a slot or of none, and the indexes of the regions
/// follow. After a failure modules and regions are as before.
pub fn put_at<R: Rig>(
    rig: &mut R,
    modules: &mut [LoadedModule],
    regions: &mut [RegionLabels],
    seat: usize,
    label: &Label,
    replaces: Option<u32>,
) -> Result<(), AreaFailed>
    requires within { seat < length modules.old }
    requires together { IsTogether modules.old regions.old }
    requires free { (d : LoadedModule) → HasFreeIn (slice_index_or modules.old seat d).area }
    requires replaces { (d : LoadedModule) → IsReplaced (slice_index_or modules.old seat d) replaces }
    requires room { replaces ≡ None → All (HasRoomFor (dimm_at modules.old seat)) regions.old }
    requires sized { AreSized R.Shown rig.old modules.old }
    ensures put { OnOk result (IsPutAt modules.old modules.new seat label.now replaces) }
    ensures labels { (d : LoadedModule) → OnOk result (labels_in modules.new
        ≡ with_put_at (dimm_at modules.old seat) (first_slot_in (slice_index_or modules.old seat d)) label.now replaces
        (labels_in modules.old)) }
    ensures slot_within { (d : LoadedModule) → first_slot_in (slice_index_or modules.old seat d)
        < (module_in (slice_index_or modules.old seat d)).slots }
    ensures slot_free { (d : LoadedModule)
        → (module_in (slice_index_or modules.old seat d)).at (first_slot_in (slice_index_or modules.old seat d))
        ≡ None }
    ensures together { OnOk result (StaysTogether modules.old regions.old modules.new regions.new) }
    ensures free_slots { (d : LoadedModule) → OnOk result (free_slots (slice_index_or modules.new seat d) + 1
        ≡ free_slots (slice_index_or modules.old seat d) + length (replaced replaces)) }
    ensures regions { (d : LoadedModule) → OnOk result (AllZip (KeepsRegion (room_after_put (dimm_at modules.old seat)
        (replaced_label (module_in (slice_index_or modules.old seat d)) replaces))) regions.old regions.new) }
    ensures kept { OnErr result (modules.new ≡ modules.old) }
    ensures kept_regions { OnErr result (regions.new ≡ regions.old) }
    ensures pass { (d : LoadedModule) → IsPass (dimm_at modules.old seat ∷ []) (IsOneOf (labels_in modules.old)
        (with_put_at (dimm_at modules.old seat) (first_slot_in (slice_index_or modules.old seat d)) label.now replaces
        (labels_in modules.old)))
        R.Shown (kept_of modules.old regions.old) rig.old (kept_of modules.new regions.new) rig.new result }
{
    let lost = replaced_label(&modules[seat], replaces);
    match put_in(rig, &mut modules[seat], label, replaces) {
        Ok(slot) => {
            let gained = SlotLabel {
                uuid: label.uuid,
                slot,
            };
            follow_put(modules, seat, regions, &gained, &lost);
            Ok(())
        }
        Err(failed) => Err(failed),
    }
}

/// The label in the slot of one that is replaced.
fn replaced_label(loaded: &LoadedModule, replaces: Option<u32>) -> Option<SlotLabel>
    ensures { result ≡ replaced_label (module_in loaded.now) replaces }
{
    match replaces {
        Some(slot) => slot_label(loaded, slot),
        None => None,
    }
}
