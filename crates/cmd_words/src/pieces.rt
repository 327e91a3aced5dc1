//! The pieces of a line: the parts between its spaces.

ghost use Rattle.std.specs.Prelude.{◌≡◌, [], ◌∷◌, MatchOption};
ghost use Rattle.std.specs.Iterator.{YieldsFirstRef, item_count};
ghost use Rattle.cmd_words.specs.Pieces.{pieces};

/// The pieces of a text, from left to right.
#[derive(Drop)]
pub(crate) struct Pieces<'a>(pub(crate) &'a str);

impl<'a> Iterator for Pieces<'a> {
    type Item = &'a str;

    ghost next_gives = { YieldsFirstRef (λ s. pieces s.0.now) };

    ghost remaining = { item_count (λ s. pieces s.0.now) };

    fn next(&mut self) -> Option<&'a str> {
        let (piece, rest) = next_piece(self.0)?;
        self.0 = rest;
        Some(piece)
    }
}

/// The first piece of a text, and what stands behind it. `None` exactly where it has none.
pub(crate) fn next_piece(text: &str) -> Option<(&str, &str)>
    ensures { MatchOption result (pieces text.now ≡ []) (λ next. pieces text.now ≡ next.0.now ∷ pieces next.1.now) }
{
    let text = text.trim_start_matches(' ');
    if text.is_empty() {
        return None;
    }
    Some(text.split_once(' ').unwrap_or((text, "")))
}
