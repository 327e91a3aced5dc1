//! The commands that translate addresses of a region.

ghost use Rattle.std.specs.Prelude.{IfErr, IfOk};
ghost use Rattle.region_map.specs.Platforms.{IsSound};
ghost use Rattle.namespace_commands.specs.Translations.{AreToRuns, IsToModule, IsToSpa, IsTranslated};
ghost use Rattle.namespace_commands.specs.Translations.{IsUntranslated, IsWoven};

use crate::refusals::Unanswered;
use cmd_words::Translation;
use region_map::Platform;
use spa_translate::{CheckFault, Weave};
use std::alloc::{AllocError, Global};
use view_types::{Refusal, Reply};

/// The reply to what is asked of the addresses of a region.
pub fn translate(
    alloc: Global,
    platform: &Platform,
    translation: Translation,
) -> Result<Reply, AllocError>
    requires { IsSound platform.now }
    ensures { IfOk result (IsTranslated platform.now translation) }
{
    match translation {
        Translation::Module { region, spa } => to_module(alloc, platform, region, spa),
        Translation::Spa { region, dimm, dpa } => to_spa(alloc, platform, region, dimm, dpa),
        Translation::Runs {
            region,
            spa,
            length,
        } => to_runs(alloc, platform, region, spa, length),
    }
}

/// The module address (DPA) behind a system physical address (SPA) of a region.
///
/// Refused are, in this order, a region that the platform does not have, one that cannot be used or whose addresses
/// cannot be translated, and an address outside its range.
fn to_module(alloc: Global, platform: &Platform, region: u16, spa: u64) -> Result<Reply, AllocError>
    requires { IsSound platform.now }
    ensures { IfOk result (IsToModule platform.now region spa) }
{
    let weave = match woven(alloc, platform, region) {
        Ok(weave) => weave,
        Err(Unanswered::Refused(refusal)) => return Ok(Reply::Refused(refusal)),
        Err(Unanswered::Memory) => return Err(AllocError),
    };
    match weave.to_module(spa) {
        Some((dimm, dpa)) => Ok(Reply::Module { dimm, dpa }),
        None => Ok(Reply::Refused(Refusal::Outside)),
    }
}

/// The system physical address (SPA) of a module address (DPA) in a region.
///
/// Refused are, in this order, a region that the platform does not have, one that cannot be used or whose addresses
/// cannot be translated, a module that is none of its members, and an address outside the member's part.
fn to_spa(
    alloc: Global,
    platform: &Platform,
    region: u16,
    dimm: u32,
    dpa: u64,
) -> Result<Reply, AllocError>
    requires { IsSound platform.now }
    ensures { IfOk result (IsToSpa platform.now region dimm dpa) }
{
    let weave = match woven(alloc, platform, region) {
        Ok(weave) => weave,
        Err(Unanswered::Refused(refusal)) => return Ok(Reply::Refused(refusal)),
        Err(Unanswered::Memory) => return Err(AllocError),
    };
    if !weave.is_member(dimm) {
        return Ok(Reply::Refused(Refusal::NotInRegion { dimm }));
    }
    match weave.to_spa(dimm, dpa) {
        Some(spa) => Ok(Reply::Spa { spa }),
        None => Ok(Reply::Refused(Refusal::Outside)),
    }
}

/// The runs of module addresses (DPA) behind a range of system physical addresses (SPA) of a region: `length` bytes,
/// from `spa` on.
///
/// Refused are, in this order, a region that the platform does not have, one that cannot be used or whose addresses
/// cannot be translated, and a range that is empty or does not lie in the region's.
fn to_runs(
    alloc: Global,
    platform: &Platform,
    region: u16,
    spa: u64,
    length: u64,
) -> Result<Reply, AllocError>
    requires { IsSound platform.now }
    ensures { IfOk result (AreToRuns platform.now region spa length) }
{
    let weave = match woven(alloc, platform, region) {
        Ok(weave) => weave,
        Err(Unanswered::Refused(refusal)) => return Ok(Reply::Refused(refusal)),
        Err(Unanswered::Memory) => return Err(AllocError),
    };
    if !weave.has_range(spa, length) {
        return Ok(Reply::Refused(Refusal::Outside));
    }
    Ok(Reply::Runs(weave.module_runs(alloc, spa, length)?))
}

/// The weave of a region, by which its addresses are translated.
fn woven(alloc: Global, platform: &Platform, index: u16) -> Result<Weave, Unanswered>
    requires { IsSound platform.now }
    ensures weave { IfOk result (IsWoven platform.now index) }
    ensures fault { IfErr result (IsUntranslated platform.now index) }
{
    let Some(region) = platform.region(index) else {
        return Err(Unanswered::Refused(Refusal::UnknownRegion { region: index }));
    };
    if let Some(rule) = region.rule {
        return Err(Unanswered::Refused(Refusal::Unusable { rule }));
    }
    match Weave::check(alloc, platform, region) {
        Ok(weave) => Ok(weave),
        Err(CheckFault::Fault(fault)) => {
            Err(Unanswered::Refused(Refusal::NoTranslation { fault }))
        }
        Err(CheckFault::Memory) => Err(Unanswered::Memory),
    }
}
