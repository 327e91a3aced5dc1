//! The session.

ghost use Rattle.std.specs.Prelude.{◌≡◌, ◌↔◌, IfErr, IfOk, OnOk, false, map, true};
ghost use Rattle.std.specs.List.{All};
ghost use Rattle.rig_trait.specs.Frames.{IsTold, LeavesOnly, Reads};
ghost use Rattle.region_map.specs.Platforms.{IsSound};
ghost use Rattle.region_labels.specs.Modules.{dimm_of, size_in};
ghost use Rattle.module_flips.specs.Flips.{IsSizedIn};
ghost use Rattle.module_flips.specs.Stops.{LeftIn, WritesAmong};
ghost use Rattle.cmd_words.specs.Parts.{part_of};
ghost use Rattle.namespace_core.specs.Commands.{Does, DoesAnyhow, HasAreas, IsBeforeOrAfter, LeavesArea};
ghost use Rattle.namespace_core.specs.Commands.{SaysIfKnown, is_init, may_change, written_by};
ghost use Rattle.namespace_core.specs.Faults.{HasOpenCause, HasRunCause, IsOpenAmong, IsRunAmong, IsRunAt, IsSpent};
ghost use Rattle.namespace_core.specs.Faults.{spent_after};
ghost use Rattle.namespace_core.specs.Sessions.{IsCurrent, labels_of, opens, slots_of, state_of};
ghost use Rattle.namespace_core.specs.Success.{CanCreate, HasCreated};
ghost use Rattle.namespace_core.specs.Views.{IsView};

use crate::commands::do_command;
use crate::faults::{OpenFault, RunFault};
use cmd_words::Command;
use label_sets::{Sets, read_state};
use region_map::Platform;
use rig_trait::Rig;
use std::alloc::{AllocError, Global};
use std::marker::Model;
use uuid::Uuid;
use view_types::{Reply, View};

/// The state that the label storage areas of a platform's modules stand for, as they were read at the start, and as
/// commands changed it since.
#[derive(Drop)]
pub struct Session {
    platform: Platform,
    sets: Sets,
    /// An area could not be read or written, so what is kept may be another state than that of the areas.
    spent: bool,
}

impl Model for Session {
    ghost use Rattle.namespace_core.specs.Sessions.{StoredSession};

    ghost Value = { StoredSession };

    ghost use Rattle.namespace_core.specs.Codes.{session_code};

    ghost coded = { session_code };

    ghost use Rattle.namespace_core.specs.Kept.{IsKept, shown};

    ghost view = { shown };

    ghost invariant = { IsKept };
}

impl Session {
    /// The session of a platform: the areas of all its modules are read.
    pub fn start<R: Rig>(
        alloc: Global,
        platform: Platform,
        rig: &mut R,
    ) -> Result<Session, OpenFault>
        requires { IsSound platform }
        ensures opened { IfOk result (opens platform) }
        ensures current { IsTold R.Shown rig.old → IfOk result (IsCurrent R.Shown rig.new) }
        ensures reads_only { Reads R.Shown rig.old rig.new }
        ensures cause { HasOpenCause R.Shown rig.old rig.new result }
        ensures among { IfErr result (IsOpenAmong platform.modules) }
    {
        match read_state(alloc, &platform, rig) {
            Ok(sets) => Ok(Session {
                platform,
                sets,
                spent: false,
            }),
            Err(fault) => Err(OpenFault::of(fault)),
        }
    }

    /// Does a command, up to its reply: nothing is said. `own` is the uuid of a new namespace for which the command
    /// gives none. Where the rig tells its areas they have to be those of which the session was made, or which the last
    /// command on it left. But for `init-labels` no area is read.
    ///
    /// Why a command is refused is told by its definition; nothing has changed then, nor after `Memory`. `Area` comes
    /// only where the rig failed, and the session is spent from there on; `Spent` exactly where it was spent before.
    pub fn apply<R: Rig>(
        &mut self,
        alloc: Global,
        rig: &mut R,
        command: &Command,
        own: Uuid,
    ) -> Result<Reply, RunFault>
        requires sized { IsTold R.Shown rig.old → All (IsSizedIn (R.areas rig.old)) self.old.sets.modules }

        // The reply and the state are those of the step.
        ensures step { IfOk result (λ reply. SaysIfKnown self.old.platform (part_of command.now)
            (IsCurrent R.Shown rig.old self.old)
            (Does self.old.platform (slots_of self.old) (labels_of self.old) (part_of command.now) own reply
            (state_of self.new))) }
        ensures current { IsCurrent R.Shown rig.old self.old → OnOk result (IsCurrent R.Shown rig.new self.new) }

        // Whatever the areas hold, they are those of the step, or `init-labels` is refused for the state in which it
        // finds its area.
        ensures anyhow { IfOk result (λ reply. DoesAnyhow self.old.platform (slots_of self.old) (labels_of self.old)
            (part_of command.now) own reply (state_of self.new)) }

        // Where none of the conditions on a create fails it is accepted, unless an area fails or memory is refused.
        ensures creates { CanCreate self.old.platform (labels_of self.old) (part_of command.now) own → IfOk result HasCreated }

        // A stop leaves the table before the command, or the one behind it.
        ensures any_moment { IsCurrent R.Shown rig.old self.old
            → LeavesOnly R.Shown rig.old rig.new (LeftIn self.old.platform.modules (R.said rig.old)
            (IsBeforeOrAfter self.old.platform (slots_of self.old) (labels_of self.old) (part_of command.now) own)) }

        // A refusal, want of memory and the commands that only tell change nothing.
        ensures kept { may_change (part_of command.now) result ≡ false → self.new ≡ self.old }
        ensures reads_only { may_change (part_of command.now) result ≡ false → Reads R.Shown rig.old rig.new }

        // No other module is written, and `init-labels` writes its index blocks alone.
        ensures writes { WritesAmong (written_by self.old.platform (part_of command.now)) R.Shown rig.old rig.new }
        ensures area { IsTold R.Shown rig.old → HasAreas (part_of command.now) (R.areas rig.old) (R.areas rig.new) result }
        ensures area_left { is_init (part_of command.now) ≡ true → IsTold R.Shown rig.old
            → LeavesOnly R.Shown rig.old rig.new (LeavesArea (part_of command.now) (R.areas rig.old) (R.said rig.old)) }

        ensures cause { HasRunCause R.Shown rig.old rig.new result }
        ensures among { IfErr result (IsRunAmong self.old.platform.modules) }
        ensures at { IfErr result (IsRunAt (written_by self.old.platform (part_of command.now))) }
        ensures spent { IsSpent result ↔ (self.old.spent ≡ true) }
        ensures spends { self.new.spent ≡ spent_after self.old.spent result }
        ensures platform { self.new.platform ≡ self.old.platform }
        ensures dimms { map dimm_of self.new.sets.modules ≡ map dimm_of self.old.sets.modules }
        ensures sizes { map size_in self.new.sets.modules ≡ map size_in self.old.sets.modules }
        ensures reads { is_init (part_of command.now) ≡ false → R.reads rig.new ≡ R.reads rig.old }
    {
        if self.spent {
            return Err(RunFault::Spent);
        }
        match do_command(alloc, rig, &self.platform, &mut self.sets, command, &own) {
            Ok(reply) => Ok(reply),
            Err(fault) => {
                let fault = RunFault::of(fault);
                self.spent = fault.is_area();
                Err(fault)
            }
        }
    }

    /// The platform with the state that is kept: all its regions, by index, and all its modules, by handle. Addresses
    /// and lengths are in bytes. No area is read, and it fails for want of memory alone.
    ///
    /// A session that is spent shows what it keeps, which may be another state than that of the areas.
    pub fn view(&self, alloc: Global) -> Result<View, AllocError>
        ensures { IfOk result (IsView self.now.platform (labels_of self.now)) }
    {
        self.sets.view(alloc)
    }
}
