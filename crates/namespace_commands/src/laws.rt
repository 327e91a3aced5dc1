//! What is answered to a command that only tells is determined.

ghost use Rattle.std.specs.Prelude.{◌≡◌, ℕ};
ghost use Rattle.view_types.specs.declared.reply.Reply.{Reply};
ghost use Rattle.cmd_words.specs.declared.parts.Query.{Query};
ghost use Rattle.label_codec.specs.ModuleLabels.{Labels};
ghost use Rattle.region_map.specs.declared.platform.Platform.{Platform};
ghost use Rattle.region_map.specs.Platforms.{IsSound};
ghost use Rattle.label_table.specs.Tables.{state};
ghost use Rattle.namespace_commands.specs.Lists.{IsShown};
ghost use Rattle.namespace_commands.specs.Translations.{AreToRuns, IsToModule, IsToSpa};

/// There is one reply to each command that translates addresses.
pub fn one_translation()
    ensures to_module { (platform : Platform) (index spa : ℕ) (reply told : Reply) → IsSound platform
        → IsToModule platform index spa reply → IsToModule platform index spa told → reply ≡ told }
    ensures to_spa { (platform : Platform) (index dimm dpa : ℕ) (reply told : Reply) → IsSound platform
        → IsToSpa platform index dimm dpa reply → IsToSpa platform index dimm dpa told → reply ≡ told }
    ensures to_runs { (platform : Platform) (index spa len : ℕ) (reply told : Reply)
        → AreToRuns platform index spa len reply → AreToRuns platform index spa len told → reply ≡ told }
{}

/// There is one reply to what is asked of a state, whichever labels stand for it.
pub fn one_list()
    ensures { (platform : Platform) (labels other : Labels) (query : Query) (reply told : Reply) → IsSound platform
        → state platform other ≡ state platform labels → IsShown platform labels query reply
        → IsShown platform other query told → reply ≡ told }
{}
