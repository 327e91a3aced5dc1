//! The halves of a lane, and which of them is newer.

ghost use Rattle.std.specs.Prelude.{◌≡◌, ◌+◌, ◌≤◌, length};
ghost use Rattle.btt_arena.specs.Opening.{half_of};
ghost use Rattle.btt_arena.specs.Tables.{is_newer, newer_of};

use byte_ranges::u32_at;

/// A half of a lane: what a write of a sector notes. A block stands in the low 30 bits of its word.
#[derive(Clone, Copy, Debug, PartialEq, Eq)]
pub struct Half {
    /// The sector.
    pub lba: u32,
    /// The block that its map entry named.
    pub old: u32,
    /// The block that its bytes went to.
    pub new: u32,
    /// The number of the note, 1 to 3, or 0 where there is none.
    pub seq: u32,
}

/// The newer half of the lane that begins at an offset of some lanes' bytes.
pub fn newer_half(log: &[u8], at: usize) -> Option<Half>
    requires { at + 32 ≤ length log.now }
    ensures { result ≡ newer_of (half_of log.now at) (half_of log.now (at + 16)) }
{
    let first = half_at(log, at);
    let second = half_at(log, at + 16);
    if is_newer(first.seq, second.seq) {
        return Some(first);
    }
    if is_newer(second.seq, first.seq) {
        return Some(second);
    }
    None
}

/// The half that begins at an offset.
pub fn half_at(log: &[u8], at: usize) -> Half
    requires { at + 16 ≤ length log.now }
    ensures { result ≡ half_of log.now at }
{
    Half {
        lba: u32_at(log, at),
        old: u32_at(log, at + 4),
        new: u32_at(log, at + 8),
        seq: u32_at(log, at + 12),
    }
}

/// Whether a half with the first number is newer than that with the other one.
pub fn is_newer(seq: u32, other: u32) -> bool
    ensures { result ≡ is_newer seq other }
{
    (other == 1 && seq == 2)
        || (other == 2 && seq == 3)
        || (other == 3 && seq == 1)
        || (other == 0 && seq >= 1 && seq <= 3)
}
