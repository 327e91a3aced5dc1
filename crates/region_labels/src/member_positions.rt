//! The entries of a label at all positions of its module.

ghost use Rattle.std.specs.Prelude.{◌≡◌, ◌+◌, ◌<◌, ◌≤◌, None, length};
ghost use Rattle.region_labels.specs.Followed.{FollowsGain, FollowsGainTo, FollowsLossTo};
ghost use Rattle.region_labels.specs.Followed.{LosesIfAny, LosesLabel, here};
ghost use Rattle.region_labels.specs.Rooms.{HasRoomFor, KeepsRegion, room_after_put};

use crate::by_slot::SlotLabel;
use crate::region::RegionLabels;
use uuid_index::Entry;

impl SlotLabel {
    ghost use Rattle.uuid_index.specs.declared.entry.Entry.{Entry};
    ghost use Rattle.region_labels.specs.Followed.{entry_at};

    /// The entry of the label, where its module has this position.
    fn entry(&self, position: usize) -> Entry
        ensures { result ≡ entry_at position self.now }
    {
        Entry {
            uuid: self.uuid,
            position,
            slot: self.slot,
        }
    }
}

/// Inserts the entries of a label that the module with this device handle has got. It takes no memory.
pub(crate) fn gain(kept: &mut RegionLabels, dimm: u32, gained: &SlotLabel)
    requires { HasRoomFor dimm kept.old }
    ensures kept { KeepsRegion (room_after_put dimm None) kept.old kept.new }
    ensures index { FollowsGain dimm gained.now kept.old kept.new }
{
    for position in 0..kept.region.members.len() {
        gain_at(kept, position, dimm, gained);
    }
}

/// Inserts the entry of the label, where its module has this position.
fn gain_at(kept: &mut RegionLabels, position: usize, dimm: u32, gained: &SlotLabel)
    requires position { position < length kept.old.region.members }
    requires room { here dimm kept.old.region position ≤ kept.old.index.room }
    ensures region { kept.new.region ≡ kept.old.region }
    ensures seats { kept.new.seats ≡ kept.old.seats }
    ensures room { kept.new.index.room + here dimm kept.old.region position ≡ kept.old.index.room }
    ensures index { FollowsGainTo dimm gained.now position kept.old kept.new }
{
    if kept.region.members.as_slice()[position].handle == dimm {
        kept.index.insert(gained.entry(position));
    }
}

/// Removes the entries of a label that the module with this device handle has lost.
pub(crate) fn lose(kept: &mut RegionLabels, dimm: u32, lost: &SlotLabel)
    ensures { LosesLabel dimm lost.now kept.old kept.new }
{
    for position in 0..kept.region.members.len() {
        lose_at(kept, position, dimm, lost);
    }
}

/// Removes the entries of a label that the module with this device handle has lost, if it has lost one.
pub(crate) fn lose_if_any(kept: &mut RegionLabels, dimm: u32, lost: &Option<SlotLabel>)
    ensures { LosesIfAny dimm lost.now kept.old kept.new }
{
    if let Some(lost) = lost {
        lose(kept, dimm, lost);
    }
}

/// Removes the entry of the label, where its module has this position.
fn lose_at(kept: &mut RegionLabels, position: usize, dimm: u32, lost: &SlotLabel)
    requires { position < length kept.old.region.members }
    ensures region { kept.new.region ≡ kept.old.region }
    ensures seats { kept.new.seats ≡ kept.old.seats }
    ensures index { FollowsLossTo dimm lost.now position kept.old kept.new }
{
    if kept.region.members.as_slice()[position].handle == dimm {
        let _ = kept.index.remove(&lost.entry(position));
    }
}
