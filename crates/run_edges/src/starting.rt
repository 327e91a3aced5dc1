//! The session of a run is started.

ghost use Rattle.std.specs.Prelude.{IfErr, IfOk};
ghost use Rattle.region_map.specs.Platforms.{IsSound};
ghost use Rattle.run_edges.specs.Starting.{HasNoSession, HasSession};

use crate::faults::Fault;
use namespace_core::Session;
use region_map::Platform;
use rig_trait::Rig;
use std::alloc::Global;

/// The session of a platform: the areas of all its modules are read, and nothing is written or said.
pub fn start_session<R: Rig>(
    alloc: Global,
    rig: &mut R,
    platform: Platform,
) -> Result<Session, Fault>
    requires { IsSound platform }
    ensures started { IfOk result (HasSession R.Shown platform rig.old rig.new) }
    ensures fault { IfErr result (HasNoSession R.Shown platform rig.old rig.new) }
{
    Ok(Session::start(alloc, platform, rig)?)
}
