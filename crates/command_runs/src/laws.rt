//! What a list of lines says is determined.

ghost use Rattle.std.specs.Prelude.{◌≡◌, ℕ};
ghost use Rattle.region_map.specs.Platforms.{IsSound};
ghost use Rattle.namespace_core.specs.Sessions.{IsCurrent};
ghost use Rattle.command_runs.specs.Runs.{IsBehind, Progress, Run};

use namespace_core::Session;
use rig_trait::Rig;

/// Two runs of the first k lines of a list, from one state, say the same bytes and end in one state, where the areas are
/// those that the session keeps.
pub fn one_run<R: Rig>(rig: &R, session: &Session)
    ensures { (run : Run) (k : ℕ) (one other : Progress) → IsSound run.platform
        → IsCurrent R.Shown rig.now session.now → IsBehind (IsCurrent R.Shown rig.now session.now) run k one
        → IsBehind (IsCurrent R.Shown rig.now session.now) run k other → one ≡ other }
{}
