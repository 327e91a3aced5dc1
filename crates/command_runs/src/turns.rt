//! One line: its command is done, and its reply said.

ghost use Rattle.std.specs.Prelude.{◌≡◌, false};
ghost use Rattle.rig_trait.specs.Frames.{IsTold};
ghost use Rattle.cmd_words.specs.Lines.{command_in};
ghost use Rattle.namespace_core.specs.Faults.{IsSpent};
ghost use Rattle.namespace_core.specs.Sessions.{HasSizes};
ghost use Rattle.command_runs.specs.Turns.{Answers, Turns, answer_by};

use crate::faults::LineFault;
use crate::replies::{is_refused, say_reply};
use crate::uuids::own_uuid;
use cmd_words::read_line;
use namespace_core::{RunFault, Session};
use rig_trait::Rig;
use std::alloc::Global;
use view_types::{Refusal, Reply};

/// Does the command of the line with a number, and says its reply. It answers whether that is a refusal. A blank line
/// and a comment do nothing.
pub fn turn<R: Rig>(
    alloc: Global,
    rig: &mut R,
    session: &mut Session,
    line: &[u8],
    seed: u128,
    number: u64,
) -> Result<bool, LineFault>
    requires unspent { session.old.spent ≡ false }
    requires sized { IsTold R.Shown rig.old → HasSizes session.old (R.areas rig.old) }
    ensures { Turns R.Shown session.old seed number (command_in line.now) rig.old session.new rig.new result }
{
    match answer(alloc, rig, session, line, seed, number)? {
        Some(reply) => {
            say_reply(alloc, rig, &reply)?;
            Ok(is_refused(&reply))
        }
        None => Ok(false),
    }
}

/// Does the command of the line with a number, up to its reply. A blank line and a comment have none, and a line that
/// is no command is refused.
fn answer<R: Rig>(
    alloc: Global,
    rig: &mut R,
    session: &mut Session,
    line: &[u8],
    seed: u128,
    number: u64,
) -> Result<Option<Reply>, LineFault>
    requires unspent { session.old.spent ≡ false }
    requires sized { IsTold R.Shown rig.old → HasSizes session.old (R.areas rig.old) }
    ensures { Answers R.Shown session.old seed number (command_in line.now) rig.old session.new rig.new result }
{
    match read_line(line) {
        Ok(Some(command)) => {
            answer_by(session.apply(alloc, rig, &command, own_uuid(seed, number)))
        }
        Ok(None) => Ok(None),
        Err(fault) => Ok(Some(Reply::Refused(Refusal::Words(fault)))),
    }
}

/// The answer to a command, by that of a session that was not spent.
fn answer_by(done: Result<Reply, RunFault>) -> Result<Option<Reply>, LineFault>
    requires { ¬ IsSpent done }
    ensures { result ≡ answer_by done }
{
    match done {
        Ok(reply) => Ok(Some(reply)),
        Err(RunFault::Area { dimm }) => Err(LineFault::Area { dimm }),
        Err(RunFault::Memory) => Err(LineFault::Memory),
        Err(RunFault::Spent) => unreachable!(),
    }
}
