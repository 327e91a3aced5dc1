//! The lines of an input.

ghost use Rattle.std.specs.Prelude.{◌≡◌, IfOk, map};
ghost use Rattle.command_runs.specs.Lines.{is_end, lines_in};

use std::alloc::{AllocError, Global};

/// The lines of an input, each without its end, the byte 0x0A. Behind the last end there is one more, which may be
/// empty.
pub fn lines_of(alloc: Global, input: &[u8]) -> Result<Vec<&[u8]>, AllocError>
    ensures { IfOk result (λ lines. map (λ line. line.now) lines.items ≡ lines_in input.now) }
{
    input.split(is_end).collect(alloc)
}

/// The byte ends a line.
fn is_end(byte: &u8) -> bool
    ensures { result ≡ is_end byte.now }
{
    *byte == b'\n'
}
