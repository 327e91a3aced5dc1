//! Laws of the texts. The function does nothing: its clauses say what holds.

ghost use Rattle.std.specs.Prelude.{◌≡◌, false, codes, nat_eq};
ghost use Rattle.std.specs.List.{starts_with};
ghost use Rattle.view_types.specs.declared.reply.Reply.{Reply};
ghost use Rattle.report_json.specs.Texts.{IsEnded, reply_text};

/// What all texts of replies have in common.
pub fn text_laws()
    // It ends with the end of a line, and so it is not empty.
    ensures ended { (reply : Reply) → IsEnded (reply_text reply) }

    // It does not begin as the line of an error does.
    ensures no_error { (reply : Reply) → starts_with nat_eq (reply_text reply) (codes "error ") ≡ false }
{}
