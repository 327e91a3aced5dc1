//! A media in memory.

ghost use Rattle.std.specs.Prelude.{◌≡◌, ◌≤◌, ◌+◌, ◌*◌, ◌%◌, ◌↔◌, ◌⊎◌, length, true, false, is_some, Some, None};
ghost use Rattle.std.specs.Prelude.{IsTrue, IsErr, IfOk, IfSome, OnOk, OnErr, Contains};
ghost use Rattle.std.specs.Result.{is_err};
ghost use Rattle.byte_ranges.specs.Ranges.{patched};
ghost use Rattle.rig_trait.specs.Faults.{one_more};
ghost use Rattle.btt_arena.specs.Crashed.{crashed, IsLeft};
ghost use Rattle.btt_arena.specs.Frames.{IsTold, Reads, GoesOn, Fails, GivesBytes, WritesBytes, WriteLeaves};
ghost use Rattle.btt_arena.specs.Kept.{nothing_kept, has_space, with_write, write_over, kept_writes};
ghost use Rattle.btt_arena.specs.Memory.{new_memory};
ghost use Rattle.btt_arena.specs.Undone.{LeftNow, LeftSince, counts_now_lem, earlier_lem, only_now_lem, now_is_lem};
ghost use Rattle.btt_arena.specs.Undone.{has_record_lem};

use crate::kept_writes::{KeptWrites, keep_write, part};
use crate::{Media, MediaState};
use byte_ranges::put;
use rig_trait::Failed;
use std::alloc::{AllocError, Global};
use std::marker::Model;

/// A media in memory, which always tells its bytes, and its crash records from `keep_calls` on, for the moments since
/// then. It fails at the calls that are listed, and at a write past the numbers of `keep_calls`, and nowhere else.
#[derive(Drop)]
pub struct MemoryMedia {
    alloc: Global,
    bytes: Vec<u8>,
    listed: Vec<u64>,
    calls: u64,
    faults: u64,
    keeping: Option<KeptWrites>,
}

impl Model for MemoryMedia {
    ghost use Rattle.btt_arena.specs.Memory.{Memory, memory_code};

    ghost Value = { Memory };

    ghost coded = { memory_code };

    ghost use Rattle.btt_arena.specs.InMemory.{memory_in, IsSound};

    ghost view = { memory_in };

    ghost invariant = { IsSound };
}

impl MemoryMedia {
    /// The media of these bytes.
    pub fn new(alloc: Global, bytes: Vec<u8>) -> MemoryMedia
        ensures { result ≡ new_memory bytes.items }
    {
        MemoryMedia {
            alloc,
            bytes,
            listed: Vec::new(alloc),
            calls: 0,
            faults: 0,
            keeping: None,
        }
    }

    /// Lists the calls of `size`, `read` and `write` that fail, by their numbers from 0 since the media was made, in
    /// place of those listed before. A listed write leaves its old bytes.
    pub fn fail_at(&mut self, calls: Vec<u64>)
        ensures { self.new ≡ record self.old { listed = calls.items } }
    {
        self.listed = calls;
    }

    /// Its bytes.
    pub fn bytes(&self) -> &[u8]
        ensures { result.now ≡ self.now.bytes }
    {
        &self.bytes
    }

    /// How many calls of `size`, `read` and `write` there were since the media was made.
    pub fn calls(&self) -> u64
        ensures { result ≡ self.now.calls }
    {
        self.calls
    }

    /// From here on each write is kept, and crash records are told. It takes at once the memory for so many writes and
    /// bytes, where a write counts twice its length. One that would exceed either number fails, changes nothing and is
    /// not kept. What was kept before is let go. After an `Err` nothing is kept.
    pub fn keep_calls(&mut self, calls: u64, bytes: u64) -> Result<(), AllocError>
        ensures ok { OnOk result (self.new ≡ record self.old { keeping = Some (nothing_kept calls bytes) }) }
        ensures err { OnErr result (self.new ≡ record self.old { keeping = None }) }
    {
        self.keeping = None;
        self.keeping = Some(KeptWrites::new(self.alloc, calls, bytes)?);
        Ok(())
    }

    /// The media as it stands where a kept write was stopped, with the new bytes in the words of its range that `taken`
    /// says, and the old ones in the others. Nothing is listed or kept there, and no call has failed. `None` where the
    /// call isn't a kept write, or `taken` hasn't one entry for each of its words.
    pub fn crash(
        &self,
        alloc: Global,
        call: u64,
        taken: &[bool],
    ) -> Result<Option<MemoryMedia>, AllocError>
        ensures crashed { IfOk result (λ given. given ≡ crashed self.now call taken.now) }
        // A stop since keeping began might have left these bytes.
        ensures left { IfOk result (λ given. IfSome given
            (λ media. IsLeft ⟦<MemoryMedia as MediaState>⟧ self.now 0 media)) }
    {
        let Some(keeping) = &self.keeping else {
            return Ok(None);
        };
        let mut bytes = Vec::from_slice(alloc, &self.bytes)?;
        if !keeping.crash(alloc, call, &mut bytes, taken)? {
            return Ok(None);
        }
        Ok(Some(MemoryMedia::new(alloc, bytes)))
    }
}

/// Counts a call, and says whether it is listed.
fn is_listed(listed: &[u64], calls: &mut u64) -> bool
    ensures listed { IsTrue result ↔ Contains listed.now calls.old }
    ensures counted { calls.new ≡ one_more calls.old }
{
    let call = *calls;
    *calls = call.saturating_add(1);
    listed.contains(&call)
}

impl MediaState for MemoryMedia {
    ghost tells = { λ _. true };

    ghost tells_records = { λ media. is_some media.keeping };

    ghost bytes = { λ media. media.bytes };

    ghost may_leave = { LeftNow };

    ghost moment = { λ media. length (kept_writes media.keeping) };

    ghost left_since = { LeftSince };

    ghost faults = { λ media. media.faults };

    ghost counts_now = { counts_now_lem };

    ghost earlier = { earlier_lem };

    ghost only_now = { only_now_lem };

    ghost now_is = { now_is_lem };

    ghost has_record = { has_record_lem };
}

impl Media for MemoryMedia {
    fn size(&mut self) -> Result<u64, Failed>
        // It fails at the listed calls alone, and changes its counts alone.
        ensures listed { IsErr result ↔ Contains self.old.listed self.old.calls }
        ensures ok { OnOk result (self.new ≡ record self.old { calls = one_more self.old.calls }) }
        ensures err { OnErr result (self.new
            ≡ record self.old { calls = one_more self.old.calls; faults = one_more self.old.faults }) }

        ensures size { IsTold ⟦<MemoryMedia as MediaState>⟧ self.old
            → IfOk result (λ size. size ≡ length self.old.bytes) }
        ensures reads_only { Reads ⟦<MemoryMedia as MediaState>⟧ self.old self.new }
        ensures cause { Fails ⟦<MemoryMedia as MediaState>⟧ self.old self.new (is_err result) }
    {
        if is_listed(&self.listed, &mut self.calls) {
            self.faults = self.faults.saturating_add(1);
            return Err(Failed);
        }
        Ok(self.bytes.len() as u64)
    }

    fn read(&mut self, at: u64, into: &mut [u8]) -> Result<(), Failed>
        requires { IsTold ⟦<MemoryMedia as MediaState>⟧ self.old → at + length into.old ≤ length self.old.bytes }
        ensures listed { IsErr result ↔ Contains self.old.listed self.old.calls }
        ensures ok { OnOk result (self.new ≡ record self.old { calls = one_more self.old.calls }) }
        ensures err { OnErr result (self.new
            ≡ record self.old { calls = one_more self.old.calls; faults = one_more self.old.faults }) }

        ensures bytes { GivesBytes ⟦<MemoryMedia as MediaState>⟧ self.old at (length into.old) into.new result }
        ensures reads_only { Reads ⟦<MemoryMedia as MediaState>⟧ self.old self.new }
        ensures cause { Fails ⟦<MemoryMedia as MediaState>⟧ self.old self.new (is_err result) }
    {
        if is_listed(&self.listed, &mut self.calls) {
            self.faults = self.faults.saturating_add(1);
            return Err(Failed);
        }
        into.copy_from_slice(part(&self.bytes, at as usize, into.len()));
        Ok(())
    }

    fn write(&mut self, at: u64, bytes: &[u8]) -> Result<(), Failed>
        requires inside { IsTold ⟦<MemoryMedia as MediaState>⟧ self.old
            → at + length bytes.now ≤ length self.old.bytes }
        requires at_word { at % 4 ≡ 0 }
        requires words { length bytes.now % 4 ≡ 0 }
        // It fails at the listed calls and past what can be kept alone, and leaves all bytes then.
        ensures listed_or_full { IsErr result ↔ (Contains self.old.listed self.old.calls
            ⊎ (has_space (2 * length bytes.now) self.old.keeping ≡ false)) }
        ensures ok { OnOk result (self.new
            ≡ record self.old {
              bytes = patched self.old.bytes at bytes.now;
              calls = one_more self.old.calls;
              keeping = with_write (write_over self.old.bytes self.old.calls at bytes.now) self.old.keeping;
            }) }
        ensures err { OnErr result (self.new
            ≡ record self.old {
              calls = one_more self.old.calls;
              faults = one_more self.old.faults;
              keeping = with_write (write_over self.old.bytes self.old.calls at bytes.now) self.old.keeping;
            }) }

        ensures written { WritesBytes ⟦<MemoryMedia as MediaState>⟧ self.old self.new at bytes.now result }
        ensures goes_on { GoesOn ⟦<MemoryMedia as MediaState>⟧ self.old self.new }
        ensures stops { WriteLeaves ⟦<MemoryMedia as MediaState>⟧ self.old self.new at bytes.now result }
        ensures cause { Fails ⟦<MemoryMedia as MediaState>⟧ self.old self.new (is_err result) }
    {
        let call = self.calls;
        let listed = is_listed(&self.listed, &mut self.calls);
        let fits = keep_write(&mut self.keeping, &self.bytes, call, at, bytes);
        if listed || !fits {
            // The old bytes stay.
            self.faults = self.faults.saturating_add(1);
            return Err(Failed);
        }
        put(&mut self.bytes, at as usize, bytes);
        Ok(())
    }

    fn faults(&self) -> u64 {
        self.faults
    }
}
