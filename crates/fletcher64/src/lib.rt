//! Fletcher's checksum over 32-bit words, as the index blocks and labels of label storage areas carry it (UEFI 2.7,
//! section 13.19).
#![tactic(auto)]

ghost use Rattle.std.specs.Prelude.{◌≡◌, ◌+◌, ◌*◌, ◌%◌, ◌<◌, ◌≤◌, length, replicate, IsTrue};
ghost use Rattle.byte_ranges.specs.Ranges.{patched};
ghost use Rattle.fletcher64.specs.Sums.{word, checksum_of, checksum_but, has_checksum, with_checksum};

mod sums;

use byte_ranges::{put_u64, u32_at, u64_at};
use sums::Sums;

/// How many bytes a word has.
const WORD: usize = 4;

/// The checksum of some bytes, whose number is a multiple of 4.
pub fn fletcher64(bytes: &[u8]) -> u64
    requires { length bytes.now % 4 ≡ 0 }
    ensures { result ≡ checksum_of bytes.now }
{
    let mut sums = Sums::new();
    for i in 0..bytes.len() / WORD {
        sums.add(word_at(bytes, i));
    }
    sums.checksum()
}

/// The checksum with the eight bytes at `hole` as zero, as it is stored at `hole` itself. The number of bytes and
/// `hole` are multiples of 4.
pub fn fletcher64_but(bytes: &[u8], hole: usize) -> u64
    requires words { length bytes.now % 4 ≡ 0 }
    requires at_word { hole % 4 ≡ 0 }
    requires within { hole + 8 ≤ length bytes.now }
    ensures { result ≡ checksum_but bytes.now hole }
{
    let mut sums = Sums::new();
    for i in 0..bytes.len() / WORD {
        sums.add(word_but(bytes, hole, i));
    }
    sums.checksum()
}

/// Whether the checksum of some bytes stands at `hole`, under the conditions of `fletcher64_but`.
#[tactic(auto, unfolding(crate::specs::Sums::has_checksum))]
pub fn has_checksum(bytes: &[u8], hole: usize) -> bool
    requires words { length bytes.now % 4 ≡ 0 }
    requires at_word { hole % 4 ≡ 0 }
    requires within { hole + 8 ≤ length bytes.now }
    ensures { result ≡ has_checksum bytes.now hole }
{
    u64_at(bytes, hole) == fletcher64_but(bytes, hole)
}

/// Writes the checksum of some bytes at `hole`, under the conditions of `fletcher64_but`.
pub fn put_checksum(bytes: &mut [u8], hole: usize)
    requires words { length bytes.old % 4 ≡ 0 }
    requires at_word { hole % 4 ≡ 0 }
    requires within { hole + 8 ≤ length bytes.old }
    ensures text { bytes.new ≡ with_checksum bytes.old hole }
    ensures right { IsTrue (has_checksum bytes.new hole) }
{
    let checksum = fletcher64_but(bytes, hole);
    put_u64(bytes, hole, checksum);
}

fn word_at(bytes: &[u8], i: usize) -> u32
    requires { 4 * i + 4 ≤ length bytes.now }
    ensures { result ≡ word bytes.now i }
{
    u32_at(bytes, WORD * i)
}

fn word_but(bytes: &[u8], hole: usize, i: usize) -> u32
    requires word_within { 4 * i + 4 ≤ length bytes.now }
    requires at_word { hole % 4 ≡ 0 }
    requires hole_within { hole + 8 ≤ length bytes.now }
    ensures { result ≡ word (patched bytes.now hole (replicate 8 0)) i }
{
    let at = WORD * i;
    if at == hole || at == hole + WORD {
        0
    } else {
        word_at(bytes, i)
    }
}
