//! The calls that a rig in memory keeps, in memory that was taken at once.

ghost use Rattle.std.specs.Prelude.{◌≡◌, ◌≤◌, ◌<◌, ◌+◌, ◌*◌, ◌++◌, [], ◌∷◌, length, drop, Some, None, IfOk, IfSome};
ghost use Rattle.std.specs.Prelude.{IfNone, vec_len, vec_capacity, if◌then◌else◌, IsTrue};
ghost use Rattle.rig_trait.specs.Areas.{IsWithin};
ghost use Rattle.rig_trait.specs.Crashed.{first_stopped, IsFirst, stopped};
ghost use Rattle.rig_trait.specs.InKept.{entry_number};
ghost use Rattle.rig_trait.specs.Kept.{KeptCall, kept_write, kept_say, write_into, nothing_kept, has_space, with_call};
ghost use Rattle.rig_trait.specs.Kept.{kept_from, AllLieIn};
ghost use Rattle.rig_trait.specs.Memory.{areas_of};
ghost use Rattle.rig_trait.specs.Shows.{Shows, ShowsFirst};
ghost use Rattle.rig_trait.specs.Undone.{before, undone, whole};

use crate::Kept;
use crate::stored_areas::{bytes_at, part, put_into};
use std::alloc::{AllocError, Global};
use std::collections::BTreeMap;
use std::marker::Model;

/// Where the bytes of a kept call stand: `len` of them from `from` on, and for a write as many new ones behind the old.
#[derive(Clone, Copy)]
enum Entry {
    Write {
        call: u64,
        dimm: u32,
        at: u64,
        from: usize,
        len: usize,
    },
    Say {
        call: u64,
        said: usize,
        from: usize,
        len: usize,
    },
}

/// The calls kept, up to a number of calls and of bytes.
#[derive(Drop)]
pub struct KeptCalls {
    entries: Vec<Entry>,
    bytes: Vec<u8>,
    most_calls: u64,
    most_bytes: u64,
}

impl Model for KeptCalls {
    ghost use Rattle.rig_trait.specs.Kept.{Keeping, keeping_code};

    ghost Value = { Keeping };

    ghost coded = { keeping_code };

    ghost use Rattle.rig_trait.specs.InKept.{keeping_in, IsSound};

    ghost view = { keeping_in };

    ghost invariant = { IsSound };
}

impl KeptCalls {
    /// Takes the memory for so many calls and bytes.
    pub fn new(alloc: Global, calls: u64, bytes: u64) -> Result<KeptCalls, AllocError>
        ensures { IfOk result (λ kept. kept ≡ nothing_kept calls bytes) }
    {
        Ok(KeptCalls {
            entries: Vec::with_capacity(alloc, calls as usize)?,
            bytes: Vec::with_capacity(alloc, bytes as usize)?,
            most_calls: calls,
            most_bytes: bytes,
        })
    }

    fn len(&self) -> usize
        ensures { result ≡ length self.now.kept }
    {
        self.entries.len()
    }

    /// Whether one call more can be kept, with so many bytes in its two parts.
    fn has_space(&self, first: usize, second: usize) -> bool
        ensures value { result ≡ has_space (first + second) (Some self.now) }
        ensures bytes { IsTrue result → self.now.taken + (first + second) ≤ self.now.bytes }
        ensures calls { IsTrue result → length self.now.kept < self.now.calls }
    {
        let free = self.most_bytes as usize - self.bytes.len();
        let has_bytes = first <= free && second <= free - first;
        has_bytes && (self.entries.len() as u64) < self.most_calls
    }

    /// Keeps a write, where it can be kept, and says whether it can.
    fn keep_write(&mut self, call: u64, dimm: u32, at: u64, old: &[u8], new: &[u8]) -> bool
        requires { length old.now ≡ length new.now }
        ensures fits { result ≡ has_space (2 * length new.now) (Some self.old) }
        ensures kept { Some self.new ≡ with_call (kept_write call dimm at old.now new.now) (Some self.old) }
    {
        if !self.has_space(old.len(), new.len()) {
            return false;
        }
        let (from, len) = (self.bytes.len(), new.len());
        append(&mut self.bytes, old);
        append(&mut self.bytes, new);
        push(
            &mut self.entries,
            Entry::Write {
                call,
                dimm,
                at,
                from,
                len,
            },
        );
        true
    }

    /// Keeps a `say`, where it can be kept, and says whether it can.
    fn keep_say(&mut self, call: u64, said: usize, text: &[u8]) -> bool
        ensures fits { result ≡ has_space (length text.now) (Some self.old) }
        ensures kept { Some self.new ≡ with_call (kept_say call said text.now) (Some self.old) }
    {
        if !self.has_space(text.len(), 0) {
            return false;
        }
        let (from, len) = (self.bytes.len(), text.len());
        append(&mut self.bytes, text);
        push(
            &mut self.entries,
            Entry::Say {
                call,
                said,
                from,
                len,
            },
        );
        true
    }

    /// Where the first call with a number stands.
    fn find(&self, call: u64) -> Option<usize>
        ensures found { IfSome result (λ i. drop i self.now.kept ≡ kept_from call self.now.kept) }
        ensures inside { IfSome result (λ i. i < length self.now.kept) }
        ensures none { IfNone result (kept_from call self.now.kept ≡ []) }
    {
        for (i, entry) in self.entries.iter().enumerate() {
            if entry.number() == call {
                return Some(i);
            }
        }
        None
    }

    fn show(&self, i: usize) -> Kept<'_>
        requires { i < length self.now.kept }
        ensures { (call : KeptCall) → IsFirst (drop i self.now.kept) call → Shows call result }
    {
        match self.entries[i] {
            Entry::Write {
                dimm,
                at,
                from,
                len,
                ..
            } => Kept::Write {
                dimm,
                at,
                old: part(&self.bytes, from, len),
                new: part(&self.bytes, from + len, len),
            },
            Entry::Say { from, len, .. } => Kept::Say {
                bytes: part(&self.bytes, from, len),
            },
        }
    }

    /// The first call with a number.
    pub fn kept(&self, call: u64) -> Option<Kept<'_>>
        ensures { ShowsFirst (kept_from call self.now.kept) result }
    {
        match self.find(call) {
            Some(i) => Some(self.show(i)),
            None => None,
        }
    }

    /// Takes a call back.
    fn undo(&self, i: usize, areas: &mut BTreeMap<u32, Vec<u8>>, said: &mut Vec<u8>)
        requires inside { i < length self.now.kept }
        requires lie { AllLieIn (areas_of areas.old) self.now.kept }
        ensures undone { (call : KeptCall) → IsFirst (drop i self.now.kept) call
            → whole (areas_of areas.new) said.new.items ≡ undone call (whole (areas_of areas.old) said.old.items) }
        ensures lie { AllLieIn (areas_of areas.new) self.now.kept }
    {
        match self.entries[i] {
            Entry::Write {
                dimm,
                at,
                from,
                len,
                ..
            } => {
                put_into(areas, dimm, at as usize, part(&self.bytes, from, len));
            }
            Entry::Say { said: before, .. } => said.truncate(before),
        }
    }

    /// Takes the calls from one on back, the last of them first.
    fn rewind(&self, to: usize, areas: &mut BTreeMap<u32, Vec<u8>>, said: &mut Vec<u8>)
        requires inside { to < length self.now.kept }
        requires lie { AllLieIn (areas_of areas.old) self.now.kept }
        ensures before { whole (areas_of areas.new) said.new.items
            ≡ before (drop to self.now.kept) (whole (areas_of areas.old) said.old.items) }
        ensures lie { AllLieIn (areas_of areas.new) self.now.kept }
    {
        let mut i = self.len();
        while i > to {
            i -= 1;
            self.undo(i, areas, said);
        }
    }

    /// Stops a call with these bytes in its range, or said, where it can be stopped so, and says whether it can.
    fn stop(
        &self,
        i: usize,
        areas: &mut BTreeMap<u32, Vec<u8>>,
        said: &mut Vec<u8>,
        torn: &[u8],
    ) -> Result<bool, AllocError>
        requires inside { i < length self.now.kept }
        requires lie { AllLieIn (areas_of areas.old) self.now.kept }
        ensures { IfOk result (λ can. (call : KeptCall) → IsFirst (drop i self.now.kept) call
            → stopped call (whole (areas_of areas.old) said.old.items) torn.now
            ≡ (if can then Some (whole (areas_of areas.new) said.new.items) else None)) }
    {
        match self.entries[i] {
            Entry::Write { dimm, at, len, .. } => {
                if torn.len() != len {
                    return Ok(false);
                }
                put_into(areas, dimm, at as usize, torn);
                Ok(true)
            }
            Entry::Say { from, len, .. } => {
                if !part(&self.bytes, from, len).starts_with(torn) {
                    return Ok(false);
                }
                said.extend_from_slice(torn)?;
                Ok(true)
            }
        }
    }

    /// Makes areas and the bytes said those where the first call with a number was stopped so, and says whether there
    /// is one that can be.
    pub fn crash(
        &self,
        call: u64,
        areas: &mut BTreeMap<u32, Vec<u8>>,
        said: &mut Vec<u8>,
        torn: &[u8],
    ) -> Result<bool, AllocError>
        requires lie { AllLieIn (areas_of areas.old) self.now.kept }
        ensures { IfOk result (λ can.
            first_stopped (kept_from call self.now.kept) (whole (areas_of areas.old) said.old.items) torn.now
            ≡ (if can then Some (whole (areas_of areas.new) said.new.items) else None)) }
    {
        let Some(i) = self.find(call) else {
            return Ok(false);
        };
        self.rewind(i, areas, said);
        self.stop(i, areas, said, torn)
    }
}

impl Entry {
    fn number(&self) -> u64
        ensures { result ≡ entry_number self.now }
    {
        match *self {
            Entry::Write { call, .. } => call,
            Entry::Say { call, .. } => call,
        }
    }
}

/// Appends bytes for which there is room.
fn append(bytes: &mut Vec<u8>, more: &[u8])
    requires { vec_len bytes.old + length more.now ≤ vec_capacity bytes.old }
    ensures items { bytes.new.items ≡ bytes.old.items ++ more.now }
    ensures len { vec_len bytes.new ≡ vec_len bytes.old + length more.now }
    ensures room { vec_capacity bytes.old ≤ vec_capacity bytes.new }
{
    match bytes.extend_from_slice(more) {
        Ok(()) => (),
        Err(_) => unreachable!(),
    }
}

/// Appends an entry for which there is room.
fn push(entries: &mut Vec<Entry>, entry: Entry)
    requires { vec_len entries.old < vec_capacity entries.old }
    ensures items { entries.new.items ≡ entries.old.items ++ entry ∷ [] }
    ensures room { vec_capacity entries.old ≤ vec_capacity entries.new }
{
    match entries.push(entry) {
        Ok(()) => (),
        Err(_) => unreachable!(),
    }
}

/// Keeps a write that begins, where calls are kept and it can be, and says whether it can be made.
pub fn keep_write(
    keeping: &mut Option<KeptCalls>,
    areas: &BTreeMap<u32, Vec<u8>>,
    call: u64,
    dimm: u32,
    at: u64,
    bytes: &[u8],
) -> bool
    requires { IsWithin (areas_of areas.now) dimm at (length bytes.now) }
    ensures fits { result ≡ has_space (2 * length bytes.now) keeping.old }
    ensures kept { keeping.new ≡ with_call (write_into (areas_of areas.now) call dimm at bytes.now) keeping.old }
{
    match keeping {
        Some(kept) => {
            let old = bytes_at(areas, dimm, at as usize, bytes.len());
            kept.keep_write(call, dimm, at, old, bytes)
        }
        None => true,
    }
}

/// Keeps a `say` that begins, where calls are kept and it can be, and says whether it can be made.
pub fn keep_say(keeping: &mut Option<KeptCalls>, call: u64, said: usize, text: &[u8]) -> bool
    ensures fits { result ≡ has_space (length text.now) keeping.old }
    ensures kept { keeping.new ≡ with_call (kept_say call said text.now) keeping.old }
{
    match keeping {
        Some(kept) => kept.keep_say(call, said, text),
        None => true,
    }
}
