//! How an area is initialised.

ghost use Rattle.std.specs.Prelude.{◌≡◌, ◌≢◌, Err, Some, IfErr, IfOk, OnOk};
ghost use Rattle.std.specs.Result.{is_err};
ghost use Rattle.std.specs.FinMap.{get};
ghost use Rattle.index_block.specs.Geometry.{FitsIn, IsGeometry};
ghost use Rattle.label_codec.specs.declared.kind.AreaKind.TheVariants.{Uninit};
ghost use Rattle.rig_trait.specs.Areas.{area, size_in};
ghost use Rattle.rig_trait.specs.Frames.{FailsAt, IsTold, LeavesOnly, Reads, WritesTo};
ghost use Rattle.rig_trait.specs.TwoWrites.{LeftByTwo};
ghost use Rattle.label_area.specs.declared.init.InitFault.TheVariants.{Failed};
ghost use Rattle.label_area.specs.Blocks.{kind_at, kinds_in};
ghost use Rattle.label_area.specs.Faults.{init_kind, is_init_failed};
ghost use Rattle.label_area.specs.Inits.{Initialises, IsInOrder, IsRefused, IsVacant, LeftByInit, first_block};
ghost use Rattle.label_area.specs.Inits.{initialised, layout_of, second_block, with_blocks};
ghost use Rattle.label_area.specs.Layouts.{AreLayouts};
ghost use Rattle.label_area.specs.Modules.{area_kind};

use crate::area::Area;
use crate::blocks::{BITMAP_BYTES, BlockKinds};
use crate::layouts::Layouts;
use index_block::{BlockKind, Geometry, Place, WINDOW_BYTES, read_block, write_block};
use label_codec::AreaKind;
use rig_trait::Rig;

/// A bitmap with all slots free.
const ALL_FREE: [u8; BITMAP_BYTES] = [0xff; BITMAP_BYTES];

/// Why an area isn't initialised.
#[derive(Clone, Copy, Debug, PartialEq, Eq)]
pub enum InitFault {
    /// The module has no area.
    Missing,
    /// No area can have its size.
    WrongSize,
    /// A signed index block stands at one of their places, for labels of 256 or of 128 bytes, and none is usable.
    Foreign,
    /// An index block is usable.
    AlreadyReady,
    /// The rig failed.
    Failed,
}

impl InitFault {
    /// The kind of the area. `None` where nothing tells it: the rig failed.
    pub fn kind(self) -> Option<AreaKind>
        ensures { result ≡ init_kind self }
    {
        match self {
            InitFault::Missing => Some(AreaKind::Missing),
            InitFault::WrongSize => Some(AreaKind::WrongSize),
            InitFault::Foreign => Some(AreaKind::Foreign),
            InitFault::AlreadyReady => Some(AreaKind::Ready),
            InitFault::Failed => None,
        }
    }
}

impl From<rig_trait::Failed> for InitFault {
    ghost from_gives = { λ _ fault. fault ≡ Failed };

    fn from(_: rig_trait::Failed) -> InitFault {
        InitFault::Failed
    }
}

impl Area {
    /// Initialises the area of a module, which has to be Uninit, and answers the number of its slots. It writes the
    /// first index block with the sequence number 3 and then the second with 2, both with all slots free, and takes no
    /// memory. A stop at any moment leaves the area Uninit, or Ready without labels.
    pub fn init<R: Rig>(rig: &mut R, dimm: u32) -> Result<u32, InitFault>
        ensures answer { IsTold R.Shown rig.old → Initialises dimm (R.areas rig.old) result }
        ensures written { IsTold R.Shown rig.old → OnOk result (R.areas rig.new ≡ initialised dimm (R.areas rig.old)) }
        ensures vacant { IsTold R.Shown rig.old → IfOk result (IsVacant (get (R.areas rig.new) dimm)) }

        // Whatever the answer, and by a stop at any moment.
        ensures in_order { IsTold R.Shown rig.old → IsInOrder dimm (R.areas rig.old) (R.areas rig.new) }
        ensures any_moment { IsTold R.Shown rig.old
            → LeavesOnly R.Shown rig.old rig.new (LeftByInit (R.areas rig.old) (R.said rig.old) dimm) }
        ensures kept { IsTold R.Shown rig.old → area_kind (get (R.areas rig.old) dimm) ≢ Uninit
            → R.areas rig.new ≡ R.areas rig.old }
        ensures writes_only { WritesTo dimm R.Shown rig.old rig.new }

        // Where it refuses to, it has written nothing, at every rig.
        ensures refused { IsRefused result → Reads R.Shown rig.old rig.new }
        ensures cause { FailsAt dimm R.Shown rig.old rig.new (is_init_failed result) }
    {
        let geometry = uninit_layout(rig, dimm)?;
        write_blocks(rig, dimm, &geometry)?;
        Ok(geometry.slots)
    }
}

/// The layout of an area that is Uninit.
fn uninit_layout<R: Rig>(rig: &mut R, dimm: u32) -> Result<Geometry, InitFault>
    ensures uninit { IsTold R.Shown rig.old → OnOk result (area_kind (get (R.areas rig.old) dimm) ≡ Uninit) }
    ensures layout { IsTold R.Shown rig.old
        → IfOk result (λ geometry. layout_of (get (R.areas rig.old) dimm) ≡ Some geometry) }
    ensures refused { IsTold R.Shown rig.old → IfErr result (λ fault. Initialises dimm (R.areas rig.old) (Err fault)) }
    ensures geometry { IfOk result IsGeometry }
    ensures label { IfOk result (λ geometry. geometry.label ≡ 256) }
    ensures reads_only { Reads R.Shown rig.old rig.new }
    ensures cause { FailsAt dimm R.Shown rig.old rig.new (is_init_failed result) }
{
    let Some(size) = rig.size(dimm)? else {
        return Err(InitFault::Missing);
    };
    let Some(layouts) = Layouts::of(size) else {
        return Err(InitFault::WrongSize);
    };
    let kinds = read_kinds(rig, dimm, size, &layouts)?;
    match kinds.kind() {
        AreaKind::Uninit => Ok(layouts.own),
        AreaKind::Ready => Err(InitFault::AlreadyReady),
        _ => Err(InitFault::Foreign),
    }
}

/// What stands in an area of `size` bytes. It reads the three windows in which a signed index block may stand, each of
/// at most `WINDOW_BYTES`.
fn read_kinds<R: Rig>(
    rig: &mut R,
    dimm: u32,
    size: u64,
    layouts: &Layouts,
) -> Result<BlockKinds, rig_trait::Failed>
    requires layouts { AreLayouts size layouts.now }
    requires size { IsTold R.Shown rig.old → size_in (R.areas rig.old) dimm ≡ Some size }
    ensures kinds { IsTold R.Shown rig.old
        → IfOk result (λ kinds. kinds ≡ kinds_in layouts.now (area (R.areas rig.old) dimm)) }
    ensures reads_only { Reads R.Shown rig.old rig.new }
    ensures cause { FailsAt dimm R.Shown rig.old rig.new (is_err result) }
{
    let first = read_kind(rig, dimm, size, Place::First, &layouts.own)?;
    let second = read_kind(rig, dimm, size, Place::Second, &layouts.own)?;
    let old_second = read_kind(rig, dimm, size, Place::Second, &layouts.old)?;
    Ok(BlockKinds {
        first,
        second,
        old_second,
    })
}

/// What stands at a place, in an area of `size` bytes.
fn read_kind<R: Rig>(
    rig: &mut R,
    dimm: u32,
    size: u64,
    place: Place,
    geometry: &Geometry,
) -> Result<BlockKind, rig_trait::Failed>
    requires geometry { IsGeometry geometry.now }
    requires fits { FitsIn size geometry.now }
    requires size { IsTold R.Shown rig.old → size_in (R.areas rig.old) dimm ≡ Some size }
    ensures kind { IsTold R.Shown rig.old
        → IfOk result (λ kind. kind ≡ kind_at geometry.now (area (R.areas rig.old) dimm) place) }
    ensures reads_only { Reads R.Shown rig.old rig.new }
    ensures cause { FailsAt dimm R.Shown rig.old rig.new (is_err result) }
{
    let at = u64::from(geometry.place_offset(place));
    let len = (size - at).min(WINDOW_BYTES as u64) as usize;
    let mut buffer = [0; WINDOW_BYTES];
    let window = &mut buffer[..len];
    rig.read(dimm, at, window)?;
    Ok(read_block(window, place, geometry))
}

/// Writes both index blocks, with all slots free: the first with the sequence number 3, and then the second with 2.
fn write_blocks<R: Rig>(
    rig: &mut R,
    dimm: u32,
    geometry: &Geometry,
) -> Result<(), rig_trait::Failed>
    requires geometry { IsGeometry geometry.now }
    requires label { geometry.now.label ≡ 256 }
    requires layout { IsTold R.Shown rig.old → layout_of (get (R.areas rig.old) dimm) ≡ Some geometry.now }
    ensures both { IsTold R.Shown rig.old
        → OnOk result (R.areas rig.new ≡ with_blocks geometry.now (R.areas rig.old) dimm) }
    ensures in_order { IsTold R.Shown rig.old → IsInOrder dimm (R.areas rig.old) (R.areas rig.new) }
    ensures any_moment { IsTold R.Shown rig.old
        → LeavesOnly R.Shown rig.old rig.new (LeftByTwo (R.areas rig.old) (R.said rig.old) dimm 0
        (first_block geometry.now) geometry.now.block (second_block geometry.now)) }
    ensures writes_only { WritesTo dimm R.Shown rig.old rig.new }
    ensures cause { FailsAt dimm R.Shown rig.old rig.new (is_err result) }
{
    let len = geometry.block as usize;
    let mut first = [0; WINDOW_BYTES];
    let mut second = [0; WINDOW_BYTES];
    let first = &mut first[..len];
    let second = &mut second[..len];
    write_block(first, Place::First, 3, geometry, &ALL_FREE);
    write_block(second, Place::Second, 2, geometry, &ALL_FREE);
    rig_trait::write_two(rig, dimm, 0, first, u64::from(geometry.block), second)
}
