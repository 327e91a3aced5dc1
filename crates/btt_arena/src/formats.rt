//! How a media is formatted.

ghost use Rattle.std.specs.Prelude.{◌≡◌, ◌-◌, length, Err, None, IsTrue, IsSome, IfErr, IfOk, IfSome, OnOk};
ghost use Rattle.std.specs.Result.{is_err};
ghost use Rattle.btt_arena.specs.declared.formats.FormatFault.TheVariants.{Failed};
ghost use Rattle.btt_arena.specs.Formatting.{ChangesOnly, Formats, HasFreshMap, IsFormatted, IsInOrder, IsNoneOrFresh};
ghost use Rattle.btt_arena.specs.Formatting.{IsRefused, IsStage, is_format_failed};
ghost use Rattle.btt_arena.specs.Frames.{IsTold, Reads, GoesOn, Fails, LeavesOnly};
ghost use Rattle.btt_arena.specs.Info.{arena_in};
ghost use Rattle.btt_arena.specs.Layout.{IsLayout, is_sector, is_size, layout_of};

use crate::Media;
use crate::info::{INFO_BYTES, info_block, told_layout};
use crate::lanes::fresh_log;
use crate::layout::{Layout, is_size};

/// Why a media isn't formatted.
#[derive(Clone, Copy, Debug, PartialEq, Eq)]
pub enum FormatFault {
    /// No media can have its size.
    Size { size: u64 },
    /// An info block is right.
    Already,
    /// The media failed.
    Failed,
}

impl From<rig_trait::Failed> for FormatFault {
    ghost from_gives = { λ _ fault. fault ≡ Failed };

    fn from(_: rig_trait::Failed) -> FormatFault {
        FormatFault::Failed
    }
}

/// Makes an arena in a media that has none, with sectors of `sector` bytes, which are 512 or 4,096, and answers the
/// number of its sectors. It writes the map, the lanes, the info block at `info_at` and that at 0, in this order; the
/// data stay.
pub fn format<M: Media>(media: &mut M, sector: u32, uuid: &[u8; 16]) -> Result<u32, FormatFault>
    requires { IsTrue (is_sector sector) }
    ensures answer { IsTold M.MediaState media.old → Formats sector (M.bytes media.old) result }
    ensures formatted { IsTold M.MediaState media.old → OnOk result
        (IsFormatted (layout_of (length (M.bytes media.old)) sector) uuid.now (M.bytes media.old) (M.bytes media.new)) }

    // Whatever the answer, as the bytes stand then, and by a stop at any moment.
    ensures so_far { IsTold M.MediaState media.old → IsInOrder (layout_of (length (M.bytes media.old)) sector) uuid.now
        (M.bytes media.old) (M.bytes media.new) }
    ensures in_order { IsTold M.MediaState media.old → LeavesOnly M.MediaState media.old media.new
        (λ c. IsInOrder (layout_of (length (M.bytes media.old)) sector) uuid.now (M.bytes media.old) c.bytes) }
    ensures any_moment { IsTold M.MediaState media.old → arena_in (M.bytes media.old) ≡ None
        → LeavesOnly M.MediaState media.old media.new
        (IsNoneOrFresh (layout_of (length (M.bytes media.old)) sector) (M.bytes media.old)) }

    // Where it refuses to, or there is an arena, it has written nothing.
    ensures refused { IsRefused result → Reads M.MediaState media.old media.new }
    ensures kept { IsTold M.MediaState media.old → IsSome (arena_in (M.bytes media.old))
        → Reads M.MediaState media.old media.new }
    ensures goes_on { GoesOn M.MediaState media.old media.new }
    ensures cause { Fails M.MediaState media.old media.new (is_format_failed result) }
{
    let layout = vacant_layout(media, sector)?;
    write_parts(media, &layout, uuid)?;
    Ok(layout.sectors)
}

/// Writes the parts of an arena, one after the other.
fn write_parts<M: Media>(
    media: &mut M,
    layout: &Layout,
    uuid: &[u8; 16],
) -> Result<(), rig_trait::Failed>
    requires layout { IsLayout layout.now }
    requires told { IsTold M.MediaState media.old → length (M.bytes media.old) ≡ layout.now.size }
    ensures formatted { IsTold M.MediaState media.old
        → OnOk result (IsFormatted layout.now uuid.now (M.bytes media.old) (M.bytes media.new)) }
    ensures so_far { IsTold M.MediaState media.old
        → IsInOrder layout.now uuid.now (M.bytes media.old) (M.bytes media.new) }
    ensures any_moment { IsTold M.MediaState media.old → LeavesOnly M.MediaState media.old media.new
        (IsStage layout.now uuid.now (M.bytes media.old)) }
    ensures goes_on { GoesOn M.MediaState media.old media.new }
    ensures cause { Fails M.MediaState media.old media.new (is_err result) }
{
    write_map(media, layout)?;
    let log = fresh_log(layout);
    media.write(layout.log_at, &log)?;
    let info = info_block(layout, uuid);
    media.write(layout.info_at, &info)?;
    media.write(0, &info)
}

/// The arena in a media of `size` bytes: that of the info block at 0, where it is right, else that of the other one.
pub fn find_arena<M: Media>(media: &mut M, size: u64) -> Result<Option<Layout>, rig_trait::Failed>
    requires size { IsTrue (is_size size) }
    requires told { IsTold M.MediaState media.old → length (M.bytes media.old) ≡ size }
    ensures arena { IsTold M.MediaState media.old → IfOk result (λ arena. arena ≡ arena_in (M.bytes media.old)) }
    ensures layout { IfOk result (λ arena. IfSome arena IsLayout) }
    ensures size { IfOk result (λ arena. IfSome arena (λ a. a.size ≡ size)) }
    ensures reads_only { Reads M.MediaState media.old media.new }
    ensures cause { Fails M.MediaState media.old media.new (is_err result) }
{
    let mut first = [0; INFO_BYTES];
    media.read(0, &mut first)?;
    let mut second = [0; INFO_BYTES];
    media.read(size - 4096, &mut second)?;
    match told_layout(size, &first) {
        Some(layout) => Ok(Some(layout)),
        None => Ok(told_layout(size, &second)),
    }
}

/// The layout that a media without an arena gets, with sectors of `sector` bytes, which are 512 or 4,096.
fn vacant_layout<M: Media>(media: &mut M, sector: u32) -> Result<Layout, FormatFault>
    requires { IsTrue (is_sector sector) }
    ensures vacant { IsTold M.MediaState media.old → OnOk result (arena_in (M.bytes media.old) ≡ None) }
    ensures exact { IsTold M.MediaState media.old
        → IfOk result (λ layout. layout ≡ layout_of (length (M.bytes media.old)) sector) }
    ensures layout { IfOk result IsLayout }
    ensures refused { IsTold M.MediaState media.old
        → IfErr result (λ fault. Formats sector (M.bytes media.old) (Err fault)) }
    ensures reads_only { Reads M.MediaState media.old media.new }
    ensures cause { Fails M.MediaState media.old media.new (is_format_failed result) }
{
    let size = media.size()?;
    if !is_size(size) {
        return Err(FormatFault::Size { size });
    }
    match find_arena(media, size)? {
        Some(_) => Err(FormatFault::Already),
        None => Ok(Layout::of(size, sector)),
    }
}

/// How many zeros are written at once, at most.
const ZEROS: usize = 65536;

/// Makes the map one that was never written.
fn write_map<M: Media>(media: &mut M, layout: &Layout) -> Result<(), rig_trait::Failed>
    requires layout { IsLayout layout.now }
    requires told { IsTold M.MediaState media.old → length (M.bytes media.old) ≡ layout.now.size }
    ensures map { IsTold M.MediaState media.old → OnOk result (HasFreshMap layout.now (M.bytes media.new)) }
    ensures changes { IsTold M.MediaState media.old
        → ChangesOnly layout.now.map_at (layout.now.log_at - layout.now.map_at)
        (M.bytes media.old) (M.bytes media.new) }
    ensures any_moment { IsTold M.MediaState media.old → LeavesOnly M.MediaState media.old media.new
        (λ c. ChangesOnly layout.now.map_at (layout.now.log_at - layout.now.map_at) (M.bytes media.old) c.bytes) }
    ensures goes_on { GoesOn M.MediaState media.old media.new }
    ensures cause { Fails M.MediaState media.old media.new (is_err result) }
{
    let zeros = [0; ZEROS];
    let mut at = layout.map_at;
    while at < layout.log_at {
        let len = (layout.log_at - at).min(ZEROS as u64) as usize;
        media.write(at, &zeros[..len])?;
        at += len as u64;
    }
    Ok(())
}
