//! Replies are said.

ghost use Rattle.std.specs.Prelude.{◌≡◌};
ghost use Rattle.command_runs.specs.Replies.{TellsReply, TellsText};
ghost use Rattle.view_types.specs.Replies.{is_refusal};

use crate::faults::LineFault;
use report_json::{line_of, reply_text};
use rig_trait::Rig;
use std::alloc::Global;
use view_types::Reply;

/// Says a reply. Memory is taken for that of a list alone: `Memory` comes for no other, before anything is said. `Say`
/// comes only where the rig failed, and `Area` never.
pub fn say_reply<R: Rig>(alloc: Global, rig: &mut R, reply: &Reply) -> Result<(), LineFault>
    ensures { TellsReply R.Shown rig.old rig.new reply.now result }
{
    if let Some(line) = line_of(reply) {
        return say(rig, line.as_bytes());
    }
    let text = reply_text(alloc, reply)?;
    say(rig, &text)
}

/// Says a text.
fn say<R: Rig>(rig: &mut R, text: &[u8]) -> Result<(), LineFault>
    ensures { TellsText R.Shown rig.old rig.new text.now result }
{
    Ok(rig.say(text)?)
}

/// Whether a reply is a refusal.
pub fn is_refused(reply: &Reply) -> bool
    ensures { result ≡ is_refusal reply.now }
{
    reply.is_refusal()
}
