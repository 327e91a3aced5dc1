//! The indexes of regions follow a flip.

ghost use Rattle.std.specs.Prelude.{◌≡◌, ◌∷◌, [], None, length};
ghost use Rattle.std.specs.List.{All, AllZip};
ghost use Rattle.region_labels.specs.Regions.{IsOver};
ghost use Rattle.region_labels.specs.Changes.{dimm_at};
ghost use Rattle.region_labels.specs.Flips.{StoodBeforeFree, StoodBeforePut};
ghost use Rattle.region_labels.specs.Rooms.{HasRoomFor, KeepsRegion, room_after_free, room_after_put};

use crate::by_slot::SlotLabel;
use crate::member_positions::{gain, lose, lose_if_any};
use crate::modules::LoadedModule;
use crate::region::RegionLabels;

/// The indexes of regions follow a label that was put into a free slot of the module at a seat, and the one that it
/// replaced. The modules are those after it. It takes no memory, and no room where a label was replaced.
pub fn follow_put(
    modules: &[LoadedModule],
    seat: usize,
    regions: &mut [RegionLabels],
    gained: &SlotLabel,
    lost: &Option<SlotLabel>,
)
    requires put { StoodBeforePut modules.now seat gained.now lost.now regions.old }
    requires room { lost.now ≡ None → All (HasRoomFor (dimm_at modules.now seat)) regions.old }
    ensures over { All (IsOver modules.now) regions.new }
    ensures kept { AllZip (KeepsRegion (room_after_put (dimm_at modules.now seat) lost.now)) regions.old regions.new }
{
    for kept in regions.iter_mut() {
        follow_put_in(modules, seat, kept, gained, lost);
    }
}

fn follow_put_in(
    modules: &[LoadedModule],
    seat: usize,
    kept: &mut RegionLabels,
    gained: &SlotLabel,
    lost: &Option<SlotLabel>,
)
    requires put { StoodBeforePut modules.now seat gained.now lost.now (kept.old ∷ []) }
    requires room { lost.now ≡ None → HasRoomFor (dimm_at modules.now seat) kept.old }
    ensures over { IsOver modules.now kept.new }
    ensures kept { KeepsRegion (room_after_put (dimm_at modules.now seat) lost.now) kept.old kept.new }
{
    let dimm = modules[seat].dimm;
    lose_if_any(kept, dimm, lost);
    gain(kept, dimm, gained);
}

/// The indexes of regions follow the labels of slots that were freed in the module at a seat. The modules are those
/// after it. It takes no memory.
pub fn follow_free(
    modules: &[LoadedModule],
    seat: usize,
    regions: &mut [RegionLabels],
    lost: &[SlotLabel],
)
    requires { StoodBeforeFree modules.now seat lost.now regions.old }
    ensures over { All (IsOver modules.now) regions.new }
    ensures kept { AllZip (KeepsRegion (room_after_free (dimm_at modules.now seat) (length lost.now)))
        regions.old regions.new }
{
    for kept in regions.iter_mut() {
        follow_free_in(modules, seat, kept, lost);
    }
}

fn follow_free_in(
    modules: &[LoadedModule],
    seat: usize,
    kept: &mut RegionLabels,
    lost: &[SlotLabel],
)
    requires { StoodBeforeFree modules.now seat lost.now (kept.old ∷ []) }
    ensures over { IsOver modules.now kept.new }
    ensures kept { KeepsRegion (room_after_free (dimm_at modules.now seat) (length lost.now)) kept.old kept.new }
{
    let dimm = modules[seat].dimm;
    for one in lost {
        lose(kept, dimm, one);
    }
}
