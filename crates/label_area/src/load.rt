//! How an area is loaded.

ghost use Rattle.std.specs.Prelude.{◌≡◌, ◌+◌, ◌≤◌, None, Some, vec_len, IfErr, IfOk};
ghost use Rattle.std.specs.FinMap.{get};
ghost use Rattle.rig_trait.specs.Areas.{size_in};
ghost use Rattle.rig_trait.specs.Frames.{FailsAt, IsTold, Reads};
ghost use Rattle.label_area.specs.declared.load.AreaFault.TheVariants.{Failed, Memory};
ghost use Rattle.label_area.specs.Faults.{is_load_failed, load_kind, load_size};

use crate::area::Area;
use crate::blocks::BlockKinds;
use crate::layouts::Layouts;
use label_codec::AreaKind;
use rig_trait::Rig;
use std::alloc::{AllocError, Global};

/// Why an area isn't loaded.
#[derive(Clone, Copy, Debug, PartialEq, Eq)]
pub enum AreaFault {
    /// The module has no area.
    Missing,
    /// No area can have its size, which is given in bytes.
    WrongSize { size: u64 },
    /// No signed index block stands at one of their places in an area of `size` bytes.
    Uninit { size: u64 },
    /// A signed index block stands at one of their places in an area of `size` bytes, for labels of 256 or of 128
    /// bytes, and none is usable.
    Foreign { size: u64 },
    /// The rig failed.
    Failed,
    /// Memory was refused.
    Memory,
}

impl AreaFault {
    /// The kind of the area. `None` where nothing tells it: the rig failed, or memory was refused.
    pub fn kind(self) -> Option<AreaKind>
        ensures { result ≡ load_kind self }
    {
        match self {
            AreaFault::Missing => Some(AreaKind::Missing),
            AreaFault::WrongSize { .. } => Some(AreaKind::WrongSize),
            AreaFault::Uninit { .. } => Some(AreaKind::Uninit),
            AreaFault::Foreign { .. } => Some(AreaKind::Foreign),
            AreaFault::Failed | AreaFault::Memory => None,
        }
    }

    /// The size of the area in bytes. `None` where there is none, and where nothing tells it.
    pub fn size(self) -> Option<u64>
        ensures { result ≡ load_size self }
    {
        match self {
            AreaFault::WrongSize { size }
            | AreaFault::Uninit { size }
            | AreaFault::Foreign { size } => Some(size),
            AreaFault::Missing | AreaFault::Failed | AreaFault::Memory => None,
        }
    }
}

impl From<rig_trait::Failed> for AreaFault {
    ghost from_gives = { λ _ fault. fault ≡ Failed };

    fn from(_: rig_trait::Failed) -> AreaFault {
        AreaFault::Failed
    }
}

impl From<AllocError> for AreaFault {
    ghost from_gives = { λ _ fault. fault ≡ Memory };

    fn from(_: AllocError) -> AreaFault {
        AreaFault::Memory
    }
}

impl Area {
    ghost use Rattle.label_area.specs.Loads.{Loads};
    ghost use Rattle.label_area.specs.LoadedAreas.{IsSound};

    /// Loads the area of a module: it asks for the size once, and reads the whole area by one call where areas can have
    /// that size. It takes the room for all slots.
    pub fn load<R: Rig>(alloc: Global, rig: &mut R, dimm: u32) -> Result<Area, AreaFault>
        ensures loaded { IsTold R.Shown rig.old → Loads dimm (R.areas rig.old) result }
        ensures dimm { IfOk result (λ area. area.dimm ≡ dimm) }
        ensures sound { IfOk result IsSound }
        ensures reads_only { Reads R.Shown rig.old rig.new }
        ensures cause { FailsAt dimm R.Shown rig.old rig.new (is_load_failed result) }
        ensures reads { R.reads rig.new ≤ R.reads rig.old + 2 }
    {
        let Some(size) = rig.size(dimm)? else {
            return Err(AreaFault::Missing);
        };
        let Some(layouts) = Layouts::of(size) else {
            return Err(AreaFault::WrongSize { size });
        };
        let bytes = read_whole(alloc, rig, dimm, size)?;
        let kinds = BlockKinds::of(&bytes, &layouts);
        let Some(current) = kinds.current(layouts.own) else {
            return match kinds.kind() {
                AreaKind::Foreign => Err(AreaFault::Foreign { size }),
                _ => Err(AreaFault::Uninit { size }),
            };
        };
        Ok(Area::of(alloc, dimm, &bytes, &current)?)
    }
}

/// The bytes of an area of this size.
fn read_whole<R: Rig>(
    alloc: Global,
    rig: &mut R,
    dimm: u32,
    size: u64,
) -> Result<Vec<u8>, AreaFault>
    requires { IsTold R.Shown rig.old → size_in (R.areas rig.old) dimm ≡ Some size }
    ensures whole { IsTold R.Shown rig.old → IfOk result (λ bytes. get (R.areas rig.old) dimm ≡ Some bytes.items) }
    ensures len { IfOk result (λ bytes. vec_len bytes ≡ size) }
    ensures unknown { IfErr result (λ fault. load_kind fault ≡ None) }
    ensures reads_only { Reads R.Shown rig.old rig.new }
    ensures cause { FailsAt dimm R.Shown rig.old rig.new (is_load_failed result) }
    ensures reads { R.reads rig.new ≤ R.reads rig.old + 1 }
{
    let mut bytes = vec![in alloc; 0; size as usize]?;
    rig.read(dimm, 0, &mut bytes)?;
    Ok(bytes)
}
