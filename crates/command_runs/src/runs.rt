//! The lines of a list, one after the other.

ghost use Rattle.std.specs.Prelude.{◌≡◌, [], false, map};
ghost use Rattle.rig_trait.specs.Frames.{GoesOn, IsTold, LeavesOnly};
ghost use Rattle.namespace_core.specs.Commands.{has_module};
ghost use Rattle.namespace_core.specs.Sessions.{HasSizes, IsCurrent};
ghost use Rattle.command_runs.specs.Areas.{KeepsBytes, LeaveLabels, LeavesBytes, initialised_by};
ghost use Rattle.command_runs.specs.Ends.{Ends, run_of};
ghost use Rattle.command_runs.specs.Faults.{HasCause, IsAmong, fails_at, is_area};
ghost use Rattle.command_runs.specs.Stops.{IsLeft};

use crate::faults::LineFault;
use crate::turns::turn;
use namespace_core::Session;
use rig_trait::Rig;
use std::alloc::Global;

/// Does the command of each line, and says its reply before the next line is looked at. Lines are numbered from 1. A
/// new namespace for which its command gives no uuid gets one that is made from the seed and the number of its line. It
/// answers whether a reply was a refusal.
///
/// The first fault ends the list. `Area` comes only where the rig failed at an area, and `Say` only where a reply could
/// not be said.
pub fn run_lines<R: Rig>(
    alloc: Global,
    rig: &mut R,
    session: &mut Session,
    lines: &[&[u8]],
    seed: u128,
) -> Result<bool, LineFault>
    requires unspent { session.old.spent ≡ false }
    requires sized { IsTold R.Shown rig.old → HasSizes session.old (R.areas rig.old) }

    // The replies and the state are those of the lines. What `init-labels` replies is promised where the areas are
    // known to be those that are kept.
    ensures ends { Ends R.Shown (IsCurrent R.Shown rig.old session.old)
        (run_of session.old seed (map (λ line. line.now) lines.now)) rig.old rig.new session.new result }

    // A stop leaves the table behind the lines whose replies were said, or behind one more.
    ensures any_moment { IsCurrent R.Shown rig.old session.old → LeavesOnly R.Shown rig.old rig.new
        (IsLeft (IsCurrent R.Shown rig.old session.old) (run_of session.old seed (map (λ line. line.now) lines.now))
        (R.said rig.old)) }

    // No other area is written, and `init-labels` writes its index blocks alone. A stop leaves them so where no line
    // changes labels.
    ensures bytes { IsCurrent R.Shown rig.old session.old → KeepsBytes (fails_at result) session.old.platform
        (map (λ line. line.now) lines.now) (R.areas rig.old) (R.areas rig.new) }
    ensures bytes_left { IsCurrent R.Shown rig.old session.old → LeaveLabels (map (λ line. line.now) lines.now)
        → LeavesOnly R.Shown rig.old rig.new (LeavesBytes session.old.platform
        (map (λ line. line.now) lines.now) (R.areas rig.old)) }

    // But for `init-labels` no area is read.
    ensures reads { initialised_by session.old.platform (map (λ line. line.now) lines.now) ≡ []
        → R.reads rig.new ≡ R.reads rig.old }

    // From a fault at an area on the session is spent.
    ensures spends { session.new.spent ≡ is_area result }
    ensures platform { session.new.platform ≡ session.old.platform }

    ensures cause { HasCause R.Shown rig.old rig.new result }
    ensures among { IsAmong (has_module session.old.platform) result }
    ensures goes_on { GoesOn R.Shown rig.old rig.new }
{
    let mut refused = false;
    for (index, line) in lines.iter().enumerate() {
        let is_refused = turn(alloc, rig, session, line, seed, index as u64 + 1)?;
        refused = refused || is_refused;
    }
    Ok(refused)
}
