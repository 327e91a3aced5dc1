//! A source in memory.

ghost use Rattle.std.specs.Prelude.{◌≡◌, ◌≤◌, ◌<◌, [], ◌↔◌, min, length, take, drop, true, IsTrue, IsErr, IfOk, OnErr};
ghost use Rattle.std.specs.Prelude.{Contains};
ghost use Rattle.std.specs.Result.{is_err};
ghost use Rattle.rig_trait.specs.Faults.{counted, one_more};
ghost use Rattle.rig_trait.specs.MemorySource.{new_input};

use crate::{Failed, Source};
use std::marker::Model;

/// A source in memory, which always tells the bytes left. It fails at the reads that are listed, and nowhere else. It
/// takes no memory.
#[derive(Drop)]
pub struct MemorySource {
    bytes: Vec<u8>,
    /// How many of the bytes were read.
    at: usize,
    listed: Vec<u64>,
    calls: u64,
    faults: u64,
}

impl Model for MemorySource {
    ghost use Rattle.std.specs.Prelude.{◌≤◌, vec_len};
    ghost use Rattle.rig_trait.specs.MemorySource.{Input, input_code};

    ghost Value = { Input };

    ghost coded = { input_code };

    ghost use Rattle.rig_trait.specs.InSource.{input_in};

    ghost view = { input_in };

    ghost invariant = { λ source. source.at ≤ vec_len source.bytes };
}

impl MemorySource {
    /// A source of these bytes, of whose reads those fail that `fail_at` lists, by their numbers from 0. A read that
    /// fails takes no bytes.
    pub fn new(bytes: Vec<u8>, fail_at: Vec<u64>) -> MemorySource
        ensures { result ≡ new_input bytes.items fail_at.items }
    {
        MemorySource {
            bytes,
            at: 0,
            listed: fail_at,
            calls: 0,
            faults: 0,
        }
    }

    /// Counts a read, and says whether it is listed.
    fn is_listed(&mut self) -> bool
        ensures listed { IsTrue result ↔ Contains self.old.listed self.old.calls }
        ensures counted { self.new ≡ record self.old { calls = one_more self.old.calls } }
    {
        let call = self.calls;
        self.calls = call.saturating_add(1);
        self.listed.contains(&call)
    }
}

/// Puts as many of the bytes as fit to the front of a place, and gives their number.
fn put_front(into: &mut [u8], bytes: &[u8]) -> usize
    ensures count { result ≡ min (length into.old) (length bytes.now) }
    ensures bytes { take result into.new ≡ take result bytes.now }
{
    let count = into.len().min(bytes.len());
    into[..count].copy_from_slice(&bytes[..count]);
    count
}

impl Source for MemorySource {
    ghost tells = { λ _. true };

    ghost left = { λ source. source.left };

    ghost faults = { λ source. source.faults };

    fn read(&mut self, into: &mut [u8]) -> Result<usize, Failed>
        // It fails at the listed reads alone, and gives as many bytes as fit.
        ensures listed { IsErr result ↔ Contains self.old.listed self.old.calls }
        ensures count { IfOk result (λ n. n ≡ min (length into.old) (length self.old.left)) }
        ensures ok { IfOk result (λ n. self.new
            ≡ record self.old { left = drop n self.old.left; calls = one_more self.old.calls }) }
        ensures err { OnErr result (self.new
            ≡ record self.old { calls = one_more self.old.calls; faults = one_more self.old.faults }) }

        ensures bytes { IsTrue true → IfOk result (λ n. take n into.new ≡ take n self.old.left) }
        ensures left { IsTrue true → IfOk result (λ n. self.new.left ≡ drop n self.old.left) }
        ensures end { IsTrue true → 0 < length into.old → IfOk result (λ n. (n ≡ 0) ↔ (self.old.left ≡ [])) }
        ensures kept { IsTrue true → OnErr result (self.new.left ≡ self.old.left) }
        ensures fits { IfOk result (λ n. n ≤ length into.old) }
        ensures tells { true ≡ true }
        ensures cause { self.new.faults ≡ counted (is_err result) self.old.faults }
    {
        if self.is_listed() {
            self.faults = self.faults.saturating_add(1);
            return Err(Failed);
        }
        let count = put_front(into, &self.bytes[self.at..]);
        self.at += count;
        Ok(count)
    }

    fn faults(&self) -> u64 {
        self.faults
    }
}
