//! The writes that a media in memory keeps. The memory of all is taken at once.

ghost use Rattle.std.specs.Prelude.{◌≡◌, ◌≤◌, ◌<◌, ◌+◌, ◌*◌, ◌++◌, [], ◌∷◌, length, drop, IsTrue, IfOk, IfSome, IfNone};
ghost use Rattle.std.specs.Prelude.{Some, None, vec_len, vec_capacity, if◌then◌else◌};
ghost use Rattle.byte_ranges.specs.Ranges.{range};
ghost use Rattle.btt_arena.specs.Crashed.{IsFirst, first_stopped, mixed, stopped};
ghost use Rattle.btt_arena.specs.Kept.{KeptWrite, nothing_kept, has_space, with_write, write_over, kept_from, AllLieIn};
ghost use Rattle.btt_arena.specs.Undone.{before, undone};

use byte_ranges::put;
use std::alloc::{AllocError, Global};
use std::marker::Model;

/// Where the bytes of a kept write stand: `len` of them from `from` on, and as many new ones behind the old.
#[derive(Clone, Copy)]
struct Entry {
    call: u64,
    at: u64,
    from: usize,
    len: usize,
}

/// The writes kept, up to a number of writes and of bytes.
#[derive(Drop)]
pub struct KeptWrites {
    entries: Vec<Entry>,
    bytes: Vec<u8>,
    most_calls: u64,
    most_bytes: u64,
}

impl Model for KeptWrites {
    ghost use Rattle.btt_arena.specs.Kept.{Keeping, keeping_code};

    ghost Value = { Keeping };

    ghost coded = { keeping_code };

    ghost use Rattle.btt_arena.specs.InKept.{keeping_in, IsSound};

    ghost view = { keeping_in };

    ghost invariant = { IsSound };
}

impl KeptWrites {
    /// Takes the memory for so many writes and bytes.
    pub fn new(alloc: Global, calls: u64, bytes: u64) -> Result<KeptWrites, AllocError>
        ensures { IfOk result (λ kept. kept ≡ nothing_kept calls bytes) }
    {
        Ok(KeptWrites {
            entries: Vec::with_capacity(alloc, calls as usize)?,
            bytes: Vec::with_capacity(alloc, bytes as usize)?,
            most_calls: calls,
            most_bytes: bytes,
        })
    }

    fn len(&self) -> usize
        ensures { result ≡ length self.now.kept }
    {
        self.entries.len()
    }

    /// Whether one write more can be kept, with so many bytes in its two parts.
    fn has_space(&self, first: usize, second: usize) -> bool
        ensures value { result ≡ has_space (first + second) (Some self.now) }
        ensures bytes { IsTrue result → self.now.taken + (first + second) ≤ self.now.bytes }
        ensures calls { IsTrue result → length self.now.kept < self.now.calls }
    {
        let free = self.most_bytes as usize - self.bytes.len();
        let has_bytes = first <= free && second <= free - first;
        has_bytes && (self.entries.len() as u64) < self.most_calls
    }

    /// Keeps a write, where it can be kept, and says whether it can.
    fn keep(&mut self, call: u64, at: u64, old: &[u8], new: &[u8]) -> bool
        requires { length old.now ≡ length new.now }
        ensures fits { result ≡ has_space (2 * length new.now) (Some self.old) }
        ensures kept { Some self.new
            ≡ with_write (record { call = call; at = at; old = old.now; new = new.now }) (Some self.old) }
    {
        if !self.has_space(old.len(), new.len()) {
            return false;
        }
        let (from, len) = (self.bytes.len(), new.len());
        append(&mut self.bytes, old);
        append(&mut self.bytes, new);
        push(
            &mut self.entries,
            Entry {
                call,
                at,
                from,
                len,
            },
        );
        true
    }

    /// Where the first write with a number stands.
    fn find(&self, call: u64) -> Option<usize>
        ensures found { IfSome result (λ i. drop i self.now.kept ≡ kept_from call self.now.kept) }
        ensures inside { IfSome result (λ i. i < length self.now.kept) }
        ensures none { IfNone result (kept_from call self.now.kept ≡ []) }
    {
        for (i, entry) in self.entries.iter().enumerate() {
            if entry.call == call {
                return Some(i);
            }
        }
        None
    }

    /// Takes a write back.
    fn undo(&self, i: usize, bytes: &mut [u8])
        requires inside { i < length self.now.kept }
        requires lie { AllLieIn (length bytes.old) self.now.kept }
        ensures { (write : KeptWrite) → IsFirst (drop i self.now.kept) write → bytes.new ≡ undone write bytes.old }
    {
        let entry = self.entries[i];
        put(
            bytes,
            entry.at as usize,
            part(&self.bytes, entry.from, entry.len),
        );
    }

    /// Takes the writes from one on back, the last of them first.
    fn rewind(&self, to: usize, bytes: &mut [u8])
        requires inside { to < length self.now.kept }
        requires lie { AllLieIn (length bytes.old) self.now.kept }
        ensures { bytes.new ≡ before (drop to self.now.kept) bytes.old }
    {
        let mut i = self.len();
        while i > to {
            i -= 1;
            self.undo(i, bytes);
        }
    }

    /// Stops a write where these words were taken, if these are as many as it has, and says whether they are.
    fn stop(
        &self,
        alloc: Global,
        i: usize,
        bytes: &mut [u8],
        taken: &[bool],
    ) -> Result<bool, AllocError>
        requires inside { i < length self.now.kept }
        requires lie { AllLieIn (length bytes.old) self.now.kept }
        ensures { IfOk result (λ can. (write : KeptWrite) → IsFirst (drop i self.now.kept) write
            → stopped write bytes.old taken.now ≡ (if can then Some bytes.new else None)) }
    {
        let entry = self.entries[i];
        if taken.len() != entry.len / 4 {
            return Ok(false);
        }
        let old = part(&self.bytes, entry.from, entry.len);
        let new = part(&self.bytes, entry.from + entry.len, entry.len);
        let torn = mix(alloc, taken, old, new)?;
        put(bytes, entry.at as usize, &torn);
        Ok(true)
    }

    /// Makes bytes those where the first write with a number was stopped so, and says whether there is one that can be.
    pub fn crash(
        &self,
        alloc: Global,
        call: u64,
        bytes: &mut [u8],
        taken: &[bool],
    ) -> Result<bool, AllocError>
        requires lie { AllLieIn (length bytes.old) self.now.kept }
        ensures { IfOk result (λ can. first_stopped (kept_from call self.now.kept) bytes.old taken.now
            ≡ (if can then Some bytes.new else None)) }
    {
        let Some(i) = self.find(call) else {
            return Ok(false);
        };
        self.rewind(i, bytes);
        self.stop(alloc, i, bytes, taken)
    }
}

/// For each word of four bytes the new one where it was taken, and the old one where it was not.
fn mix(alloc: Global, taken: &[bool], old: &[u8], new: &[u8]) -> Result<Vec<u8>, AllocError>
    requires old { length old.now ≡ 4 * length taken.now }
    requires new { length new.now ≡ 4 * length taken.now }
    ensures { IfOk result (λ torn. torn.items ≡ mixed taken.now old.now new.now) }
{
    let mut torn = Vec::new(alloc);
    for (word, is_new) in taken.iter().enumerate() {
        let from = if *is_new { new } else { old };
        torn.extend_from_slice(part(from, 4 * word, 4))?;
    }
    Ok(torn)
}

/// Some bytes of others.
pub fn part(bytes: &[u8], at: usize, len: usize) -> &[u8]
    requires { at + len ≤ length bytes.now }
    ensures { result.now ≡ range bytes.now at len }
{
    &bytes[at..at + len]
}

/// Appends bytes for which there is room.
fn append(bytes: &mut Vec<u8>, more: &[u8])
    requires { vec_len bytes.old + length more.now ≤ vec_capacity bytes.old }
    ensures items { bytes.new.items ≡ bytes.old.items ++ more.now }
    ensures len { vec_len bytes.new ≡ vec_len bytes.old + length more.now }
    ensures room { vec_capacity bytes.old ≤ vec_capacity bytes.new }
{
    match bytes.extend_from_slice(more) {
        Ok(()) => (),
        Err(_) => unreachable!(),
    }
}

/// Appends an entry for which there is room.
fn push(entries: &mut Vec<Entry>, entry: Entry)
    requires { vec_len entries.old < vec_capacity entries.old }
    ensures items { entries.new.items ≡ entries.old.items ++ entry ∷ [] }
    ensures room { vec_capacity entries.old ≤ vec_capacity entries.new }
{
    match entries.push(entry) {
        Ok(()) => (),
        Err(_) => unreachable!(),
    }
}

/// Keeps a write that begins, where writes are kept and it can be, and says whether it can be made.
pub fn keep_write(
    keeping: &mut Option<KeptWrites>,
    bytes: &[u8],
    call: u64,
    at: u64,
    new: &[u8],
) -> bool
    requires { at + length new.now ≤ length bytes.now }
    ensures fits { result ≡ has_space (2 * length new.now) keeping.old }
    ensures kept { keeping.new ≡ with_write (write_over bytes.now call at new.now) keeping.old }
{
    match keeping {
        Some(kept) => kept.keep(call, at, part(bytes, at as usize, new.len()), new),
        None => true,
    }
}
