//! Words of four bytes, as they are read and written.

ghost use Rattle.std.specs.Prelude.{◌≡◌, ◌+◌, ◌%◌, ◌≤◌, length, IfOk, OnOk};
ghost use Rattle.std.specs.Result.{is_err};
ghost use Rattle.byte_ranges.specs.Ranges.{number_at};
ghost use Rattle.btt_arena.specs.Frames.{IsTold, Reads, GoesOn, Fails, LeavesOnly};
ghost use Rattle.btt_arena.specs.Words.{IsEither, with_word};

use crate::Media;
use byte_ranges::{put_u32, u32_at};
use rig_trait::Failed;

/// The word at an offset.
pub fn read_word<M: Media>(media: &mut M, at: u64) -> Result<u32, Failed>
    requires { IsTold M.MediaState media.old → at + 4 ≤ length (M.bytes media.old) }
    ensures word { IsTold M.MediaState media.old → IfOk result (λ word. word ≡ number_at 4 (M.bytes media.old) at) }
    ensures reads_only { Reads M.MediaState media.old media.new }
    ensures cause { Fails M.MediaState media.old media.new (is_err result) }
{
    let mut word = [0; 4];
    media.read(at, &mut word)?;
    Ok(u32_at(&word, 0))
}

/// Puts a word at an offset, which a stop leaves old or new.
pub fn write_word<M: Media>(media: &mut M, at: u64, word: u32) -> Result<(), Failed>
    requires inside { IsTold M.MediaState media.old → at + 4 ≤ length (M.bytes media.old) }
    requires at_word { at % 4 ≡ 0 }
    ensures written { IsTold M.MediaState media.old
        → OnOk result (M.bytes media.new ≡ with_word (M.bytes media.old) at word) }
    ensures so_far { IsTold M.MediaState media.old
        → IsEither (M.bytes media.old) (with_word (M.bytes media.old) at word) (M.bytes media.new) }
    ensures any_moment { IsTold M.MediaState media.old → LeavesOnly M.MediaState media.old media.new
        (λ c. IsEither (M.bytes media.old) (with_word (M.bytes media.old) at word) c.bytes) }
    ensures goes_on { GoesOn M.MediaState media.old media.new }
    ensures cause { Fails M.MediaState media.old media.new (is_err result) }
{
    let mut bytes = [0; 4];
    put_u32(&mut bytes, 0, word);
    media.write(at, &bytes)
}
