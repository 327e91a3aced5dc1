//! The cookies of interleave sets.

ghost use Rattle.std.specs.Prelude.{◌≡◌, ◌+◌, ◌≤◌, ◌<◌, ◌++◌, length, take};
ghost use Rattle.region_map.specs.Cookies.{cookie11, cookie12, entry11, entry12};

use crate::platform::Member;
use byteorder::{ByteOrder, LittleEndian};
use fletcher64::fletcher64;

/// The bytes of an entry of version 1.2, and of 16 of them.
const ENTRY_12: usize = 48;

const ENTRIES_12: usize = 768;

/// The bytes of an entry of version 1.1, and of 16 of them.
const ENTRY_11: usize = 16;

const ENTRIES_11: usize = 256;

/// The interleave set cookie of version 1.2 of the labels, of 1 to 16 members in the order of positions.
pub fn cookie12(members: &[Member]) -> u64
    requires some { 0 < length members.now }
    requires few { length members.now ≤ 16 }
    ensures { result ≡ cookie12 members.now }
{
    let mut entries = [0; ENTRIES_12];
    for (position, member) in members.iter().enumerate() {
        put(&mut entries, ENTRY_12 * position, &entry12(member));
    }
    fletcher64(&entries[..ENTRY_12 * members.len()])
}

/// The interleave set cookie of version 1.1, of 1 to 16 members in the order of positions.
pub fn cookie11(members: &[Member]) -> u64
    requires some { 0 < length members.now }
    requires few { length members.now ≤ 16 }
    ensures { result ≡ cookie11 members.now }
{
    let mut entries = [0; ENTRIES_11];
    for (position, member) in members.iter().enumerate() {
        put(&mut entries, ENTRY_11 * position, &entry11(member));
    }
    fletcher64(&entries[..ENTRY_11 * members.len()])
}

/// The entry of a member for version 1.2: 48 bytes, the last 31 of them zero.
#[tactic(auto, unfolding(crate::specs::Cookies::entry12))]
fn entry12(member: &Member) -> [u8; ENTRY_12]
    ensures { result ≡ entry12 member.now }
{
    let mut entry = [0; ENTRY_12];
    LittleEndian::write_u64(&mut entry, member.region_offset);
    LittleEndian::write_u32(&mut entry[8..], member.serial);
    LittleEndian::write_u16(&mut entry[12..], member.vendor);
    LittleEndian::write_u16(&mut entry[14..], member.date);
    entry[16] = member.location;
    entry
}

/// The entry of a member for version 1.1: 16 bytes, the last 4 of them zero.
#[tactic(auto, unfolding(crate::specs::Cookies::entry11))]
fn entry11(member: &Member) -> [u8; ENTRY_11]
    ensures { result ≡ entry11 member.now }
{
    let mut entry = [0; ENTRY_11];
    LittleEndian::write_u64(&mut entry, member.region_offset);
    LittleEndian::write_u32(&mut entry[8..], member.serial);
    entry
}

/// Writes an entry at its place, behind those before it.
fn put(entries: &mut [u8], at: usize, entry: &[u8])
    requires { at + length entry.now ≤ length entries.old }
    ensures { take (at + length entry.now) entries.new ≡ take at entries.old ++ entry.now }
{
    entries[at..at + entry.len()].copy_from_slice(entry);
}
