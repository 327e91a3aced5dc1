//! The platform of a table of two modules.

ghost use Rattle.std.specs.Prelude.{IfOk};
ghost use Rattle.region_map.specs.Platforms.{IsSound};

use crate::nfits;
use nfit_tables::read_nfit;
use region_map::Platform;
use std::alloc::Global;

/// Two modules of 64 GiB in lines of 4,096 bytes.
pub(crate) fn platform(alloc: Global) -> Result<Platform, &'static str>
    ensures { IfOk result (λ platform. IsSound platform) }
{
    let structures = nfits::two_modules(alloc).ok().ok_or("no memory")?;
    let bytes = nfits::nfit(alloc, &structures).ok().ok_or("no memory")?;
    let nfit = read_nfit(alloc, &bytes)
        .ok()
        .ok_or("the bytes are no table")?;
    Platform::of(alloc, &nfit).ok().ok_or("no memory")
}
