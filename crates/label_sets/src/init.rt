//! The area of a module is initialised.

ghost use Rattle.std.specs.Prelude.{◌≡◌, ◌≢◌, ◌⊎◌, ◌<◌, IfErr, IfOk, IsSome, None, OnErr, OnOk, Some, false, find};
ghost use Rattle.std.specs.Prelude.{length, map, slice_index_or, vec_capacity};
ghost use Rattle.std.specs.FinMap.{get};
ghost use Rattle.std.specs.List.{All};
ghost use Rattle.view_types.specs.declared.states.AreaState.TheVariants as state;
ghost use Rattle.rig_trait.specs.Frames.{FailsAt, IsTold, LeavesOnly, Reads, WritesTo};
ghost use Rattle.label_codec.specs.declared.kind.AreaKind.TheVariants as kind;
ghost use Rattle.label_codec.specs.ModuleChanges.{with_module};
ghost use Rattle.label_area.specs.Inits.{LeftByInit, initialised};
ghost use Rattle.label_area.specs.Modules.{area_kind};
ghost use Rattle.label_area.specs.VacantAreas.{IsVacantArea};
ghost use Rattle.label_area.specs.LoadedAreas.{IsSound};
ghost use Rattle.label_table.specs.Settling.{IsInitialised};
ghost use Rattle.label_table.specs.Tables.{state};
ghost use Rattle.region_labels.specs.declared.modules.LoadedModule.{LoadedModule};
ghost use Rattle.region_labels.specs.declared.modules.ModuleArea.TheVariants.{Uninit};
ghost use Rattle.region_labels.specs.Fates.{platform_of};
ghost use Rattle.region_labels.specs.Modules.{EachOnce, dimm_of, is_of, labels_in, size_in};
ghost use Rattle.region_labels.specs.Regions.{IsOver};
ghost use Rattle.module_flips.specs.Flips.{HasLabelsInUse, IsOwn};
ghost use Rattle.module_flips.specs.Stored.{StandsIn};
ghost use Rattle.module_flips.specs.Stops.{IsOneOf, LeftIn};
ghost use Rattle.label_sets.specs.Kept.{AllFree};
ghost use Rattle.label_sets.specs.Init.{IsInitialisedTo, NamesModule, Refuses, UnlessFailed, fault_by, is_failure};
ghost use Rattle.label_sets.specs.Init.{initialised_state, is_init_failed, refused_state, slots_at, state_at};
ghost use Rattle.label_sets.specs.Init.{uninit_size, vacant_module};
ghost use Rattle.label_sets.specs.Sets.{platform_in, state_in};
ghost use Rattle.label_sets.specs.Sets as sets;
ghost use Rattle.module_flips.specs.Sweeps.{ChangesOnly, HasSlotsWithin};
ghost use Rattle.label_sets.specs.Views.{area_state};

use crate::free::{FreeExtents, free_in};
use crate::load::{SetFault, load_module};
use crate::room::most_slots;
use crate::sets::Sets;
use extent_alloc::Extents;
use label_area::{Area, InitFault};
use label_codec::AreaKind;
use region_labels::{LoadedModule, ModuleArea, RegionLabels, SlotLabel, spare, unready_state};
use region_map::Platform;
use rig_trait::Rig;
use std::alloc::{AllocError, Global};
use view_types::AreaState;

/// Why the area of a module isn't initialised.
#[derive(Clone, Copy, Debug, PartialEq, Eq)]
pub enum SetInitFault {
    /// The area is in this state, which is not Uninit. The spare slots of a Ready one are those that are kept: none
    /// where what is kept of it is not Ready.
    Refused(AreaState),
    /// The rig failed, at the area of this module.
    Failed { dimm: u32 },
    /// Memory was refused.
    Memory,
}

/// What is kept beside modules and regions: the free extents of each region, and lists with the memory for all slots
/// of any module.
#[derive(Drop)]
struct Lists {
    free: Vec<Extents>,
    slots: Vec<u32>,
    lost: Vec<SlotLabel>,
}

impl Sets {
    /// Initialises the area of a module, which has to be Uninit, and answers the number of its slots. Its regions may
    /// have all their modules then, so labels that other modules of them held may be dead. All memory is taken before
    /// the first write. A stop at any moment leaves areas that stand for the state before or for the one after. After
    /// `Refused` or `Memory` nothing was written; after each error what is kept is as before.
    pub fn init<R: Rig>(
        &mut self,
        alloc: Global,
        rig: &mut R,
        platform: &Platform,
        dimm: u32,
    ) -> Result<u32, SetInitFault>
        requires known { IsSome (find (is_of dimm) self.old.modules) }
        requires platform { platform.now.regions ≡ self.old.regions }
        ensures slots { IfOk result (λ slots. slots ≡ slots_at self.old dimm) }
        ensures uninit { OnOk result (state_at self.old dimm ≡ Some state.Uninit) }
        ensures initialised { OnOk result (IsInitialised dimm (slots_at self.old dimm) (sets.labels_in self.old)
            (sets.labels_in self.new)) }
        ensures state { OnOk result (state_in self.new
            ≡ initialised_state (platform_in self.old) dimm (slots_at self.old dimm) (state_in self.old)) }
        ensures others { OnOk result (ChangesOnly dimm self.old.modules self.new.modules) }
        ensures kept { OnErr result (self.new ≡ self.old) }
        ensures regions { self.new.regions ≡ self.old.regions }
        ensures room { OnOk result (self.new.room ≡ false) }
        ensures dimms { map dimm_of self.new.modules ≡ map dimm_of self.old.modules }
        ensures sizes { map size_in self.new.modules ≡ map size_in self.old.modules }
        ensures not_uninit { IfErr result (Refuses (λ told. told ≢ state.Uninit)) }
        ensures refused { IsTold R.Shown rig.old → All (StandsIn (R.areas rig.old)) self.old.modules
            → IfErr result (Refuses (λ told. state_at self.old dimm ≡ Some told)) }
        ensures stands { IsTold R.Shown rig.old → All (StandsIn (R.areas rig.old)) self.old.modules
            → is_init_failed result ≡ false → All (StandsIn (R.areas rig.new)) self.new.modules }
        ensures any_moment { IsTold R.Shown rig.old → All (StandsIn (R.areas rig.old)) self.old.modules
            → LeavesOnly R.Shown rig.old rig.new (LeftIn (map dimm_of self.old.modules) (R.said rig.old)
            (λ labels. (state (platform_in self.old) labels ≡ state_in self.old)
            ⊎ (state (platform_in self.old) labels
            ≡ initialised_state (platform_in self.old) dimm (slots_at self.old dimm) (state_in self.old)))) }

        // The bytes of its area.
        ensures area { IsTold R.Shown rig.old → OnOk result (R.areas rig.new ≡ initialised dimm (R.areas rig.old)) }
        ensures area_left { IsTold R.Shown rig.old
            → LeavesOnly R.Shown rig.old rig.new (LeftByInit (R.areas rig.old) (R.said rig.old) dimm) }
        ensures unwritten { IsTold R.Shown rig.old → area_kind (get (R.areas rig.old) dimm) ≢ kind.Uninit
            → R.areas rig.new ≡ R.areas rig.old }
        ensures writes_only { WritesTo dimm R.Shown rig.old rig.new }
        ensures reads_only { IfErr result (UnlessFailed (Reads R.Shown rig.old rig.new)) }
        ensures cause { FailsAt dimm R.Shown rig.old rig.new (is_init_failed result) }
        ensures names { IfErr result (NamesModule dimm) }
    {
        let seat = seat_in(&self.modules, dimm);
        let Some(size) = uninit_size(&self.modules[seat]) else {
            return Err(self.refusal(alloc, rig, &self.modules[seat]));
        };
        let found = match Area::vacant(alloc, dimm, size) {
            Ok(found) => found,
            Err(_) => return Err(SetInitFault::Memory),
        };
        let Some(vacant) = found else {
            return Err(SetInitFault::Refused(AreaState::WrongSize));
        };
        let slots = vacant.slots();
        match init_at(
            alloc,
            rig,
            &mut self.modules,
            &self.regions,
            seat,
            size,
            vacant,
        ) {
            Ok(lists) => {
                self.free = FreeExtents::known(lists.free);
                self.ready = None;
                self.slots = lists.slots;
                self.lost = lists.lost;
                self.room = false;
                Ok(slots)
            }
            Err(fault) => Err(fault),
        }
    }

    /// Why the area of a module isn't initialised of which an area is kept that is not Uninit.
    fn refusal<R: Rig>(&self, alloc: Global, rig: &mut R, kept: &LoadedModule) -> SetInitFault
        requires { uninit_size kept.now.area ≡ None }
        ensures not_uninit { Refuses (λ told. told ≢ state.Uninit) result }
        ensures refused { IsTold R.Shown rig.old → StandsIn (R.areas rig.old) kept.now
            → Refuses (λ told. told ≡ area_state (platform_in self.now) (sets.labels_in self.now) kept.now) result }
        ensures reads_only { Reads R.Shown rig.old rig.new }
        ensures cause { FailsAt kept.now.dimm R.Shown rig.old rig.new (is_failure result) }
        ensures names { NamesModule kept.now.dimm result }
    {
        match load_module(alloc, rig, kept.dimm) {
            Ok(read) => SetInitFault::Refused(self.refused_state(kept, &read)),
            Err(SetFault::Failed { dimm }) => SetInitFault::Failed { dimm },
            Err(SetFault::Memory) => SetInitFault::Memory,
        }
    }

    /// The state of an area that is not initialised, as it is read. Where that is Uninit it is the one that is kept.
    fn refused_state(&self, kept: &LoadedModule, read: &LoadedModule) -> AreaState
        ensures { result ≡ refused_state (platform_in self.now) (sets.labels_in self.now) kept.now read.now }
    {
        match read.kind() {
            AreaKind::Ready => AreaState::Ready {
                slots: read.slots(),
                spare: spare(&self.modules, &self.regions, kept),
            },
            AreaKind::Uninit => self.state_of(kept),
            kind => unready_state(kind),
        }
    }
}

/// Where the module with a device handle stands.
fn seat_in(modules: &[LoadedModule], dimm: u32) -> usize
    requires { IsSome (find (is_of dimm) modules.now) }
    ensures within { result < length modules.now }
    ensures dimm { (d : LoadedModule) → (slice_index_or modules.now result d).dimm ≡ dimm }
{
    for (seat, loaded) in modules.iter().enumerate() {
        if loaded.dimm == dimm {
            return seat;
        }
    }
    unreachable!()
}

/// The size of an area that is Uninit, in bytes. `None` exactly where the area of the module is not.
fn uninit_size(loaded: &LoadedModule) -> Option<u64>
    ensures { result ≡ uninit_size loaded.now.area }
{
    match &loaded.area {
        ModuleArea::Missing => None,
        ModuleArea::WrongSize { .. } => None,
        ModuleArea::Uninit { size } => Some(*size),
        ModuleArea::Foreign { .. } => None,
        ModuleArea::Ready(_) => None,
    }
}

/// Initialises the area of the module at a seat, which is Uninit and has `size` bytes. `vacant` is what is kept of it
/// then. After an error the modules are as before.
fn init_at<R: Rig>(
    alloc: Global,
    rig: &mut R,
    modules: &mut [LoadedModule],
    regions: &[RegionLabels],
    seat: usize,
    size: u64,
    vacant: Area,
) -> Result<Lists, SetInitFault>
    requires within { seat < length modules.old }
    requires dimm { (d : LoadedModule) → (slice_index_or modules.old seat d).dimm ≡ vacant.dimm }
    requires uninit { (d : LoadedModule) → (slice_index_or modules.old seat d).area ≡ Uninit size }
    requires vacant { IsVacantArea vacant.dimm size vacant }
    requires sound { IsSound vacant }
    requires once { EachOnce modules.old }
    requires own { All IsOwn modules.old }
    requires in_use { All HasLabelsInUse modules.old }
    requires over { All (IsOver modules.old) regions.now }
    ensures initialised { OnOk result
        (IsInitialisedTo modules.old modules.new regions.now vacant.dimm vacant.geometry.slots) }
    ensures free { IfOk result (λ lists. AllFree modules.new regions.now lists.free.items) }
    ensures slots { IfOk result (λ lists. All (HasSlotsWithin (vec_capacity lists.slots)) modules.new) }
    ensures lost { IfOk result (λ lists. All (HasSlotsWithin (vec_capacity lists.lost)) modules.new) }
    ensures kept { OnErr result (modules.new ≡ modules.old) }
    ensures not_uninit { IfErr result (Refuses (λ told. told ≢ state.Uninit)) }
    ensures told { IsTold R.Shown rig.old → All (StandsIn (R.areas rig.old)) modules.old
        → IfErr result (Refuses (λ told. ⊥)) }
    ensures stands { IsTold R.Shown rig.old → All (StandsIn (R.areas rig.old)) modules.old
        → OnOk result (All (StandsIn (R.areas rig.new)) modules.new) }
    ensures any_moment { IsTold R.Shown rig.old → All (StandsIn (R.areas rig.old)) modules.old
        → LeavesOnly R.Shown rig.old rig.new (LeftIn (map dimm_of modules.old) (R.said rig.old)
        (IsOneOf (labels_in modules.old)
        (with_module vacant.dimm (vacant_module vacant.geometry.slots) (labels_in modules.old)))) }
    ensures area { IsTold R.Shown rig.old
        → OnOk result (R.areas rig.new ≡ initialised vacant.dimm (R.areas rig.old)) }
    ensures area_left { IsTold R.Shown rig.old
        → LeavesOnly R.Shown rig.old rig.new (LeftByInit (R.areas rig.old) (R.said rig.old) vacant.dimm) }
    ensures unwritten { IsTold R.Shown rig.old → area_kind (get (R.areas rig.old) vacant.dimm) ≢ kind.Uninit
        → R.areas rig.new ≡ R.areas rig.old }
    ensures writes_only { WritesTo vacant.dimm R.Shown rig.old rig.new }
    ensures reads_only { IfErr result (UnlessFailed (Reads R.Shown rig.old rig.new)) }
    ensures cause { FailsAt vacant.dimm R.Shown rig.old rig.new (is_init_failed result) }
    ensures names { IfErr result (NamesModule vacant.dimm) }
{
    let dimm = vacant.dimm();
    let slots = vacant.slots();
    modules[seat] = LoadedModule {
        dimm,
        area: ModuleArea::Ready(vacant),
    };
    match init_over(alloc, rig, modules, regions, dimm, slots) {
        Ok(lists) => Ok(lists),
        Err(fault) => {
            modules[seat] = LoadedModule {
                dimm,
                area: ModuleArea::Uninit { size },
            };
            Err(fault)
        }
    }
}

/// Takes the memory of what is kept beside modules and regions, and then initialises the area of a module, which has
/// so many slots.
fn init_over<R: Rig>(
    alloc: Global,
    rig: &mut R,
    modules: &[LoadedModule],
    regions: &[RegionLabels],
    dimm: u32,
    slots: u32,
) -> Result<Lists, SetInitFault>
    requires { All (IsOver modules.now) regions.now }
    ensures free { IfOk result (λ lists. AllFree modules.now regions.now lists.free.items) }
    ensures slots { IfOk result (λ lists. All (HasSlotsWithin (vec_capacity lists.slots)) modules.now) }
    ensures lost { IfOk result (λ lists. All (HasSlotsWithin (vec_capacity lists.lost)) modules.now) }
    ensures not_uninit { IfErr result (Refuses (λ told. told ≢ state.Uninit)) }
    ensures told { IsTold R.Shown rig.old
        → IfErr result (Refuses (λ told. area_kind (get (R.areas rig.old) dimm) ≢ kind.Uninit)) }
    ensures written { IsTold R.Shown rig.old → OnOk result (R.areas rig.new ≡ initialised dimm (R.areas rig.old)) }
    ensures any_moment { IsTold R.Shown rig.old
        → LeavesOnly R.Shown rig.old rig.new (LeftByInit (R.areas rig.old) (R.said rig.old) dimm) }
    ensures unwritten { IsTold R.Shown rig.old → area_kind (get (R.areas rig.old) dimm) ≢ kind.Uninit
        → R.areas rig.new ≡ R.areas rig.old }
    ensures writes_only { WritesTo dimm R.Shown rig.old rig.new }
    ensures reads_only { IfErr result (UnlessFailed (Reads R.Shown rig.old rig.new)) }
    ensures cause { FailsAt dimm R.Shown rig.old rig.new (is_init_failed result) }
    ensures names { IfErr result (NamesModule dimm) }
{
    let lists = match lists_over(alloc, modules, regions) {
        Ok(lists) => lists,
        Err(_) => return Err(SetInitFault::Memory),
    };
    match Area::init(rig, dimm) {
        Ok(_) => Ok(lists),
        Err(fault) => Err(fault_of(fault, dimm, slots)),
    }
}

/// What is kept beside these modules and regions.
fn lists_over(
    alloc: Global,
    modules: &[LoadedModule],
    regions: &[RegionLabels],
) -> Result<Lists, AllocError>
    requires { All (IsOver modules.now) regions.now }
    ensures free { IfOk result (λ lists. AllFree modules.now regions.now lists.free.items) }
    ensures slots { IfOk result (λ lists. All (HasSlotsWithin (vec_capacity lists.slots)) modules.now) }
    ensures lost { IfOk result (λ lists. All (HasSlotsWithin (vec_capacity lists.lost)) modules.now) }
{
    let free = free_in(alloc, modules, regions)?;
    let most = most_slots(modules) as usize;
    let slots = Vec::with_capacity(alloc, most)?;
    let lost = Vec::with_capacity(alloc, most)?;
    Ok(Lists { free, slots, lost })
}

/// Why the area of a module, with so many slots, isn't initialised.
fn fault_of(fault: InitFault, dimm: u32, slots: u32) -> SetInitFault
    ensures { result ≡ fault_by dimm slots fault }
{
    match fault {
        InitFault::Missing => SetInitFault::Refused(AreaState::Missing),
        InitFault::WrongSize => SetInitFault::Refused(AreaState::WrongSize),
        InitFault::Foreign => SetInitFault::Refused(AreaState::Foreign),
        InitFault::AlreadyReady => SetInitFault::Refused(AreaState::Ready { slots, spare: 0 }),
        InitFault::Failed => SetInitFault::Failed { dimm },
    }
}
