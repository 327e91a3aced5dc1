//! Modules, with what was loaded of their label storage areas.

use label_area::Area;
use label_codec::{AreaKind, Label};

/// What was loaded of a module's label storage area.
#[derive(Drop)]
pub enum ModuleArea {
    /// The module has no area.
    Missing,
    /// No area can have its size, in bytes.
    WrongSize { size: u64 },
    /// It has no signed index block, in so many bytes.
    Uninit { size: u64 },
    /// It has a signed index block, and none that is usable, in so many bytes.
    Foreign { size: u64 },
    Ready(Area),
}

/// A module with its label storage area.
#[derive(Drop)]
pub struct LoadedModule {
    /// The device handle.
    pub dimm: u32,
    pub area: ModuleArea,
}

impl LoadedModule {
    ghost use Rattle.std.specs.Prelude.{◌≡◌};
    ghost use Rattle.std.specs.Option.{option_copied};
    ghost use Rattle.region_labels.specs.Modules.{module_in, size_in};

    /// The size of the area in bytes. `None` exactly where there is none.
    pub fn size(&self) -> Option<u64>
        ensures { result ≡ size_in self.now }
    {
        match &self.area {
            ModuleArea::Missing => None,
            ModuleArea::WrongSize { size } => Some(*size),
            ModuleArea::Uninit { size } => Some(*size),
            ModuleArea::Foreign { size } => Some(*size),
            ModuleArea::Ready(area) => Some(area.size()),
        }
    }

    /// The kind of the area.
    pub fn kind(&self) -> AreaKind
        ensures { result ≡ (module_in self.now).kind }
    {
        match &self.area {
            ModuleArea::Missing => AreaKind::Missing,
            ModuleArea::WrongSize { .. } => AreaKind::WrongSize,
            ModuleArea::Uninit { .. } => AreaKind::Uninit,
            ModuleArea::Foreign { .. } => AreaKind::Foreign,
            ModuleArea::Ready(_) => AreaKind::Ready,
        }
    }

    /// The number of slots: 0 where the area is not Ready.
    pub fn slots(&self) -> u32
        ensures { result ≡ (module_in self.now).slots }
    {
        match &self.area {
            ModuleArea::Missing => 0,
            ModuleArea::WrongSize { .. } => 0,
            ModuleArea::Uninit { .. } => 0,
            ModuleArea::Foreign { .. } => 0,
            ModuleArea::Ready(area) => area.slots(),
        }
    }

    /// The live label in a slot. `None` exactly where there is none.
    pub fn label(&self, slot: u32) -> Option<&Label>
        ensures { option_copied result ≡ (module_in self.now).at slot }
    {
        match &self.area {
            ModuleArea::Missing => None,
            ModuleArea::WrongSize { .. } => None,
            ModuleArea::Uninit { .. } => None,
            ModuleArea::Foreign { .. } => None,
            ModuleArea::Ready(area) => area.label(slot),
        }
    }
}
