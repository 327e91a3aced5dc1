//! A rig in memory.

ghost use Rattle.std.specs.Prelude.{◌≡◌, ◌≤◌, ◌<◌, ◌+◌, ◌*◌, ◌++◌, ◌↔◌, ◌⊎◌, length, true, false, is_some, Some, None};
ghost use Rattle.std.specs.Prelude.{IsTrue, IsErr, IfOk, IfSome, OnOk, OnErr, Contains, vec_capacity};
ghost use Rattle.std.specs.FinMap.{get, insert};
ghost use Rattle.std.specs.Option.{option_copied};
ghost use Rattle.std.specs.Result.{is_err};
ghost use Rattle.rig_trait.specs.Areas.{IsWithin, size_in, written};
ghost use Rattle.rig_trait.specs.Crashed.{crashed, first_torn, moment_of, IsLeft};
ghost use Rattle.rig_trait.specs.Counts.{read_counted, fault_counted, say_fault_counted};
ghost use Rattle.rig_trait.specs.Faults.{one_more};
ghost use Rattle.rig_trait.specs.Frames.{IsTold, Reads, WritesTo, SaysOnly, FailsAt, GivesBytes, WritesBytes};
ghost use Rattle.rig_trait.specs.Frames.{WriteLeaves, SayLeaves};
ghost use Rattle.rig_trait.specs.Kept.{nothing_kept, has_space, with_call, write_into, kept_say, kept_calls, kept_from};
ghost use Rattle.rig_trait.specs.Memory.{new_memory};
ghost use Rattle.rig_trait.specs.Records.{Says};
ghost use Rattle.rig_trait.specs.Shows.{ShowsFirst};
ghost use Rattle.rig_trait.specs.Undone.{LeftNow, LeftSince, counts_now_lem, earlier_lem, only_now_lem, now_is_lem};
ghost use Rattle.rig_trait.specs.Undone.{has_record_lem};

use crate::counts::Counts;
use crate::kept_calls::{KeptCalls, keep_say, keep_write};
use crate::stored_areas::{bytes_at, put_into};
use crate::{Failed, Kept, Rig, Shown};
use std::alloc::{AllocError, Global};
use std::collections::BTreeMap;
use std::marker::Model;

/// A rig in memory, which always tells its areas and what was said, and its crash records from `keep_calls` on, for the
/// moments since then. It fails at the calls that are listed, at a `say` past its room, and at a write or a `say` past
/// the numbers of `keep_calls`, and nowhere else.
#[derive(Drop)]
pub struct MemoryRig {
    alloc: Global,
    areas: BTreeMap<u32, Vec<u8>>,
    said: Vec<u8>,
    room: u64,
    listed: Vec<u64>,
    calls: u64,
    counts: Counts,
    keeping: Option<KeptCalls>,
}

impl Model for MemoryRig {
    ghost use Rattle.rig_trait.specs.Memory.{Memory, memory_code};

    ghost Value = { Memory };

    ghost coded = { memory_code };

    ghost use Rattle.rig_trait.specs.InMemory.{memory_in, IsSound};

    ghost view = { memory_in };

    ghost invariant = { IsSound };
}

impl MemoryRig {
    /// A rig without areas, in which `room` bytes can be said. It takes the memory of these bytes at once.
    pub fn new(alloc: Global, room: u64) -> Result<MemoryRig, AllocError>
        ensures { IfOk result (λ rig. rig ≡ new_memory room) }
    {
        Ok(MemoryRig {
            alloc,
            areas: BTreeMap::new(alloc),
            said: Vec::with_capacity(alloc, room as usize)?,
            room,
            listed: Vec::new(alloc),
            calls: 0,
            counts: Counts::new(),
            keeping: None,
        })
    }

    /// Places an area, in place of one that the handle has already. No calls are being kept.
    pub fn add(&mut self, dimm: u32, bytes: Vec<u8>) -> Result<(), AllocError>
        requires { self.old.keeping ≡ None }
        ensures ok { OnOk result (self.new ≡ record self.old { areas = insert self.old.areas dimm bytes.items }) }
        ensures err { OnErr result (self.new ≡ self.old) }
    {
        self.areas.insert(dimm, bytes)?;
        Ok(())
    }

    /// Lists the calls of `size`, `read`, `write` and `say` that fail, by their numbers from 0 since the rig was made,
    /// in place of those listed before. A listed write leaves its old bytes.
    pub fn fail_at(&mut self, calls: Vec<u64>)
        ensures { self.new ≡ record self.old { listed = calls.items } }
    {
        self.listed = calls;
    }

    /// The bytes of an area, and `None` where the handle has none.
    pub fn area(&self, dimm: u32) -> Option<&[u8]>
        ensures { option_copied result ≡ get self.now.areas dimm }
    {
        match self.areas.get(&dimm) {
            Some(bytes) => Some(bytes.as_slice()),
            None => None,
        }
    }

    /// The bytes said.
    pub fn said(&self) -> &[u8]
        ensures { result.now ≡ self.now.said }
    {
        &self.said
    }
}

impl MemoryRig {
    /// From here on each write and each `say` is kept, and crash records are told. It takes at once the memory for so
    /// many calls and bytes, where a write counts twice its length and a `say` its length. One that would exceed either
    /// number fails, changes nothing and is not kept. What was kept before is let go. After an `Err` nothing is kept.
    pub fn keep_calls(&mut self, calls: u64, bytes: u64) -> Result<(), AllocError>
        ensures ok { OnOk result (self.new ≡ record self.old { keeping = Some (nothing_kept calls bytes) }) }
        ensures err { OnErr result (self.new ≡ record self.old { keeping = None }) }
    {
        self.keeping = None;
        self.keeping = Some(KeptCalls::new(self.alloc, calls, bytes)?);
        Ok(())
    }

    /// How many calls of `size`, `read`, `write` and `say` there were since the rig was made.
    pub fn calls(&self) -> u64
        ensures { result ≡ self.now.calls }
    {
        self.calls
    }

    /// The call with a number, from 0 since the rig was made, and `None` where it is no kept write and no kept `say`.
    pub fn kept(&self, call: u64) -> Option<Kept<'_>>
        ensures { ShowsFirst (kept_from call (kept_calls self.now.keeping)) result }
    {
        match &self.keeping {
            Some(keeping) => keeping.kept(call),
            None => None,
        }
    }

    /// The rig as it stands where a kept write was stopped with the bytes `torn` in its range, or a kept `say` with
    /// `torn` said: it has the same room, nothing listed, nothing kept, and all its counts at 0. `None` where the call
    /// isn't a kept write or `say`, or `torn` hasn't the length of what was to be written, or isn't a front of what was
    /// to be said.
    pub fn crash(
        &self,
        alloc: Global,
        call: u64,
        torn: &[u8],
    ) -> Result<Option<MemoryRig>, AllocError>
        ensures crashed { IfOk result (λ given. given ≡ crashed self.now call torn.now) }
        // A stop since the call began might have left these areas and these bytes said, with the call as its torn
        // write, where it is a write.
        ensures left { IfOk result (λ given. IfSome given (IsLeft ⟦<MemoryRig as Shown>⟧ self.now
            (moment_of call (kept_calls self.now.keeping))
            (first_torn (kept_from call (kept_calls self.now.keeping))))) }
    {
        let Some(keeping) = &self.keeping else {
            return Ok(None);
        };
        let mut areas = self.areas.clone()?;
        let mut said = Vec::from_slice(alloc, &self.said)?;
        if !keeping.crash(call, &mut areas, &mut said, torn)? {
            return Ok(None);
        }
        Ok(Some(MemoryRig {
            alloc,
            areas,
            said: with_room(alloc, self.room, &said)?,
            room: self.room,
            listed: Vec::new(alloc),
            calls: 0,
            counts: Counts::new(),
            keeping: None,
        }))
    }
}

/// Bytes, and room for as many as a rig may say in all.
fn with_room(alloc: Global, room: u64, bytes: &[u8]) -> Result<Vec<u8>, AllocError>
    ensures items { IfOk result (λ v. v.items ≡ bytes.now) }
    ensures room { IfOk result (λ v. room ≤ vec_capacity v) }
{
    let mut said = Vec::with_capacity(alloc, room as usize)?;
    said.extend_from_slice(bytes)?;
    Ok(said)
}

/// Counts a call, and says whether it is listed.
fn is_listed(listed: &[u64], calls: &mut u64) -> bool
    ensures listed { IsTrue result ↔ Contains listed.now calls.old }
    ensures counted { calls.new ≡ one_more calls.old }
{
    let call = *calls;
    *calls = call.saturating_add(1);
    listed.contains(&call)
}

/// Whether so many bytes, and more of them, would exceed a room.
fn is_past(room: u64, said: usize, more: usize) -> bool
    ensures { IsTrue result ↔ (room < said + more) }
{
    match said.checked_add(more) {
        Some(all) => room < all as u64,
        None => true,
    }
}

impl Shown for MemoryRig {
    ghost tells = { λ _. true };

    ghost tells_records = { λ rig. is_some rig.keeping };

    ghost areas = { λ rig. rig.areas };

    ghost said = { λ rig. rig.said };

    ghost may_leave = { LeftNow };

    ghost moment = { λ rig. length (kept_calls rig.keeping) };

    ghost left_since = { LeftSince };

    ghost faults = { λ rig. rig.counts.faults };

    ghost say_faults = { λ rig. rig.counts.say_faults };

    ghost failed_dimm = { λ rig. rig.counts.failed_dimm };

    ghost reads = { λ rig. rig.counts.reads };

    ghost counts_now = { counts_now_lem };

    ghost earlier = { earlier_lem };

    ghost only_now = { only_now_lem };

    ghost now_is = { now_is_lem };

    ghost has_record = { has_record_lem };
}

impl Rig for MemoryRig {
    fn size(&mut self, dimm: u32) -> Result<Option<u64>, Failed>
        // It fails at the listed calls alone, and changes its counts alone.
        ensures listed { IsErr result ↔ Contains self.old.listed self.old.calls }
        ensures ok { OnOk result (self.new
            ≡ record self.old { calls = one_more self.old.calls; counts = read_counted self.old.counts }) }
        ensures err { OnErr result (self.new
            ≡ record self.old {
              calls = one_more self.old.calls;
              counts = fault_counted dimm (read_counted self.old.counts);
            }) }

        ensures size { IsTold ⟦<MemoryRig as Shown>⟧ self.old
            → IfOk result (λ size. size ≡ size_in self.old.areas dimm) }
        ensures reads_only { Reads ⟦<MemoryRig as Shown>⟧ self.old self.new }
        ensures cause { FailsAt dimm ⟦<MemoryRig as Shown>⟧ self.old self.new (is_err result) }
        ensures reads { self.new.counts.reads ≡ one_more self.old.counts.reads }
    {
        self.counts.count_read();
        if is_listed(&self.listed, &mut self.calls) {
            self.counts.count_fault(dimm);
            return Err(Failed);
        }
        Ok(self.area(dimm).map(|bytes| bytes.len() as u64))
    }

    fn read(&mut self, dimm: u32, at: u64, into: &mut [u8]) -> Result<(), Failed>
        requires { IsTold ⟦<MemoryRig as Shown>⟧ self.old → IsWithin self.old.areas dimm at (length into.old) }
        ensures listed { IsErr result ↔ Contains self.old.listed self.old.calls }
        ensures ok { OnOk result (self.new
            ≡ record self.old { calls = one_more self.old.calls; counts = read_counted self.old.counts }) }
        ensures err { OnErr result (self.new
            ≡ record self.old {
              calls = one_more self.old.calls;
              counts = fault_counted dimm (read_counted self.old.counts);
            }) }

        ensures bytes { GivesBytes ⟦<MemoryRig as Shown>⟧ self.old dimm at (length into.old) into.new result }
        ensures reads_only { Reads ⟦<MemoryRig as Shown>⟧ self.old self.new }
        ensures cause { FailsAt dimm ⟦<MemoryRig as Shown>⟧ self.old self.new (is_err result) }
        ensures reads { self.new.counts.reads ≡ one_more self.old.counts.reads }
    {
        self.counts.count_read();
        if is_listed(&self.listed, &mut self.calls) {
            self.counts.count_fault(dimm);
            return Err(Failed);
        }
        into.copy_from_slice(bytes_at(&self.areas, dimm, at as usize, into.len()));
        Ok(())
    }

    fn write(&mut self, dimm: u32, at: u64, bytes: &[u8]) -> Result<(), Failed>
        requires { IsTold ⟦<MemoryRig as Shown>⟧ self.old → IsWithin self.old.areas dimm at (length bytes.now) }
        // It fails at the listed calls and past what can be kept alone, and leaves all bytes then.
        ensures listed_or_full { IsErr result ↔ (Contains self.old.listed self.old.calls
            ⊎ (has_space (2 * length bytes.now) self.old.keeping ≡ false)) }
        ensures ok { OnOk result (self.new
            ≡ record self.old {
              areas = written self.old.areas dimm at bytes.now;
              calls = one_more self.old.calls;
              keeping = with_call (write_into self.old.areas self.old.calls dimm at bytes.now) self.old.keeping;
            }) }
        ensures err { OnErr result (self.new
            ≡ record self.old {
              calls = one_more self.old.calls;
              counts = fault_counted dimm self.old.counts;
              keeping = with_call (write_into self.old.areas self.old.calls dimm at bytes.now) self.old.keeping;
            }) }

        ensures written { WritesBytes ⟦<MemoryRig as Shown>⟧ self.old self.new dimm at bytes.now result }
        ensures writes_only { WritesTo dimm ⟦<MemoryRig as Shown>⟧ self.old self.new }
        ensures stops { WriteLeaves ⟦<MemoryRig as Shown>⟧ self.old self.new dimm at bytes.now result }
        ensures cause { FailsAt dimm ⟦<MemoryRig as Shown>⟧ self.old self.new (is_err result) }
        ensures reads { self.new.counts.reads ≡ self.old.counts.reads }
    {
        let call = self.calls;
        let listed = is_listed(&self.listed, &mut self.calls);
        let fits = keep_write(&mut self.keeping, &self.areas, call, dimm, at, bytes);
        if listed || !fits {
            // The old bytes stay.
            self.counts.count_fault(dimm);
            return Err(Failed);
        }
        put_into(&mut self.areas, dimm, at as usize, bytes);
        Ok(())
    }

    fn say(&mut self, bytes: &[u8]) -> Result<(), Failed>
        // It fails at the listed calls, past the room and past what can be kept alone, and says nothing then.
        ensures listed_or_full { IsErr result ↔ (Contains self.old.listed self.old.calls
            ⊎ (self.old.room < length self.old.said + length bytes.now)
            ⊎ (has_space (length bytes.now) self.old.keeping ≡ false)) }
        ensures ok { OnOk result (self.new
            ≡ record self.old {
              said = self.old.said ++ bytes.now;
              calls = one_more self.old.calls;
              keeping = with_call (kept_say self.old.calls (length self.old.said) bytes.now) self.old.keeping;
            }) }
        ensures err { OnErr result (self.new
            ≡ record self.old {
              calls = one_more self.old.calls;
              counts = say_fault_counted self.old.counts;
              keeping = with_call (kept_say self.old.calls (length self.old.said) bytes.now) self.old.keeping;
            }) }

        ensures said { IsTold ⟦<MemoryRig as Shown>⟧ self.old → Says self.old.said self.new.said bytes.now result }
        ensures says_only { SaysOnly ⟦<MemoryRig as Shown>⟧ self.old self.new (is_err result) }
        ensures stops { SayLeaves ⟦<MemoryRig as Shown>⟧ self.old self.new bytes.now }
    {
        let call = self.calls;
        let listed = is_listed(&self.listed, &mut self.calls);
        let fits = keep_say(&mut self.keeping, call, self.said.len(), bytes);
        if listed || !fits || is_past(self.room, self.said.len(), bytes.len()) {
            self.counts.count_say_fault();
            return Err(Failed);
        }
        match self.said.extend_from_slice(bytes) {
            Ok(()) => Ok(()),
            // The memory of the room was taken when the rig was made.
            Err(_) => unreachable!(),
        }
    }

    fn faults(&self) -> u64 {
        self.counts.faults
    }

    fn say_faults(&self) -> u64 {
        self.counts.say_faults
    }

    fn failed_dimm(&self) -> u32 {
        self.counts.failed_dimm
    }

    fn reads(&self) -> u64 {
        self.counts.reads
    }
}
