//! What a session answers is determined.

ghost use Rattle.std.specs.Prelude.{◌≡◌, ℕ, List};
ghost use Rattle.view_types.specs.declared.reply.Reply.{Reply};
ghost use Rattle.cmd_words.specs.declared.commands.Command.{Command};
ghost use Rattle.cmd_words.specs.Parts.{part_of};
ghost use Rattle.label_codec.specs.ModuleLabels.{Labels};
ghost use Rattle.region_map.specs.declared.platform.Platform.{Platform};
ghost use Rattle.region_map.specs.Platforms.{IsSound};
ghost use Rattle.label_table.specs.Tables.{State, state};
ghost use Rattle.namespace_core.specs.Commands.{Does};

/// There is one reply to a command, and one state behind it: the state before tells them, whichever labels stand for it.
pub fn one_reply()
    ensures { (platform : Platform) (slots : ℕ → ℕ) (labels other : Labels) (command : Command) (own : List ℕ)
        (reply told : Reply) (after now : State) → IsSound platform → state platform other ≡ state platform labels
        → Does platform slots labels (part_of command) own reply after
        → Does platform slots other (part_of command) own told now → (reply ≡ told) × (after ≡ now) }
{}
