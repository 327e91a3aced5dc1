//! Where a range fits into one extent.

ghost use Rattle.std.specs.Prelude.{◌≡◌, ◌<◌, ◌+◌, ◌^◌, IfNone, IfSome};
ghost use Rattle.view_types.specs.Intervals.{aligned_len};
ghost use Rattle.extent_alloc.specs.Fits.{IsFitIn, NoFitIn};

use view_types::Extent;

/// The least multiple of `align` from which `len` offsets lie in the extent.
pub(crate) fn fit_in(extent: Extent, len: u64, align: u64) -> Option<u64>
    requires inside { extent.start + extent.len < 2 ^ 64 }
    requires some { 0 < len }
    requires align { 0 < align }
    ensures fit { IfSome result (IsFitIn extent len align) }
    ensures none { IfNone result (NoFitIn extent len align) }
{
    let start = extent.start.checked_next_multiple_of(align)?;
    let room = extent.end().saturating_sub(start);
    if len <= room { Some(start) } else { None }
}

/// What is left of the extent between the first and the last multiple of `align`.
pub(crate) fn aligned_len(extent: Extent, align: u64) -> u64
    requires inside { extent.start + extent.len < 2 ^ 64 }
    requires align { 0 < align }
    ensures { result ≡ aligned_len align extent }
{
    let end = extent.end();
    match extent.start.checked_next_multiple_of(align) {
        Some(start) => (end - end % align).saturating_sub(start),
        None => 0,
    }
}
