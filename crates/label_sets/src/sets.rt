//! The state of all modules.

ghost use Rattle.std.specs.Prelude.{◌≡◌, OnErr, OnOk, false, map, true, vec_capacity};
ghost use Rattle.std.specs.List.{All};
ghost use Rattle.label_table.specs.Belonging.{IsDisjoint};
ghost use Rattle.region_labels.specs.Fates.{platform_of, region_in};
ghost use Rattle.region_labels.specs.Modules.{EachOnce};
ghost use Rattle.region_labels.specs.Regions.{IsOver};
ghost use Rattle.module_flips.specs.Flips.{HasLabelsInUse, IsOwn};
ghost use Rattle.label_sets.specs.Kept.{HasFewMembers, IsKnownFree};
ghost use Rattle.module_flips.specs.Sweeps.{HasSlotsWithin};

use crate::free::FreeExtents;
use crate::room::reserve_labels;
use region_labels::{LoadedModule, RegionLabels, SlotLabel};
use std::alloc::AllocError;
use std::marker::Model;

/// The state that the label storage areas of a platform's modules stand for.
#[derive(Drop)]
pub struct Sets {
    pub(crate) modules: Vec<LoadedModule>,
    pub(crate) regions: Vec<RegionLabels>,
    /// The free extents of each region, where they are known.
    pub(crate) free: FreeExtents,
    /// The place of a region that is known to be Ready.
    pub(crate) ready: Option<usize>,
    /// The slots that one flip frees, and the labels there. They have the memory for all slots of any module.
    pub(crate) slots: Vec<u32>,
    pub(crate) lost: Vec<SlotLabel>,
    pub(crate) room: bool,
}

impl Model for Sets {
    ghost use Rattle.label_sets.specs.Sets.{StoredSets, sets_code};

    ghost Value = { StoredSets };

    ghost coded = { sets_code };

    ghost use Rattle.label_sets.specs.Kept.{IsKept, shown};

    ghost view = { shown };

    ghost invariant = { IsKept };
}

impl Sets {
    /// The state of these modules and regions.
    pub(crate) fn of(
        modules: Vec<LoadedModule>,
        regions: Vec<RegionLabels>,
        free: FreeExtents,
        slots: Vec<u32>,
        lost: Vec<SlotLabel>,
    ) -> Sets
        requires once { EachOnce modules.items }
        requires own { All IsOwn modules.items }
        requires in_use { All HasLabelsInUse modules.items }
        requires disjoint { IsDisjoint (platform_of regions.items) }
        requires over { All (IsOver modules.items) regions.items }
        requires free { IsKnownFree modules.items regions.items free }
        requires few { All HasFewMembers regions.items }
        requires slots { All (HasSlotsWithin (vec_capacity slots)) modules.items }
        requires lost { All (HasSlotsWithin (vec_capacity lost)) modules.items }
        ensures { result ≡
            record { regions = map region_in regions.items; modules = modules.items; room = false } }
    {
        Sets {
            modules,
            regions,
            free,
            ready: None,
            slots,
            lost,
            room: false,
        }
    }

    /// Takes the memory that the next change of the labels of one region may need. After a refusal of memory the state
    /// is as before.
    pub fn reserve(&mut self) -> Result<(), AllocError>
        ensures ok { OnOk result (self.new ≡ record self.old { room = true }) }
        ensures err { OnErr result (self.new ≡ self.old) }
    {
        if self.room {
            return Ok(());
        }
        reserve_labels(&mut self.regions)?;
        self.free.reserve(&self.regions)?;
        self.room = true;
        Ok(())
    }
}
