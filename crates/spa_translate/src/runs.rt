//! The runs of module addresses behind a range of addresses.

ghost use Rattle.std.specs.Prelude.{◌≡◌, ◌≢◌, ℕ, ◌+◌, ◌-◌, ◌*◌, ◌^◌, ◌++◌, ◌≤◌, ◌<◌, All, Contains, IfOk, MatchOption};
ghost use Rattle.std.specs.Prelude.{OnOk, length, map};
ghost use Rattle.view_types.specs.Intervals.{end_of};
ghost use Rattle.spa_translate.specs.declared.strand.Strand.{Strand};
ghost use Rattle.spa_translate.specs.Woven.{Woven, address_of};
ghost use Rattle.spa_translate.specs.Pairs.{period_of};
ghost use Rattle.spa_translate.specs.Runs.{AreRuns, AreUpTo, IsPutAt, run_of};

use crate::strand::Strand;
use crate::weave::{Weave, byte_at, offset_at};
use std::alloc::{AllocError, Global};
use view_types::{Extent, List, Run};

impl Weave {
    /// The maximal runs of module addresses behind a range of addresses that is not empty and lies in
    /// the region's range,
    /// by position and then by address.
    pub fn module_runs(&self, alloc: Global, spa: u64, length: u64) -> Result<List<Run>, AllocError>
        requires some { 0 < length }
        requires from { self.now.spa ≤ spa }
        requires end { spa + length ≤ self.now.spa + self.now.len }
        ensures { IfOk result (AreRuns self.now spa length) }
    {
        let mut runs = List::new(alloc);
        for strand in &self.strands {
            let extents = self.extents_in(alloc, strand, spa, length)?;
            put_runs(&mut runs, strand, &extents)?;
        }
        Ok(runs)
    }

    /// The extents of a part's bytes that lie in the range. Of the periods that the range meets only the first
    /// and the last
    /// can have bytes outside.
    fn extents_in(
        &self,
        alloc: Global,
        strand: &Strand,
        spa: u64,
        length: u64,
    ) -> Result<Vec<Extent>, AllocError>
        requires member { Contains self.now.strands strand.now }
        requires some { 0 < length }
        requires from { self.now.spa ≤ spa }
        requires end { spa + length ≤ self.now.spa + self.now.len }
        ensures extents { IfOk result
            (λ extents. AreUpTo self.now spa length strand.now strand.now.size extents.items) }
        ensures ends { strand.now.base + strand.now.size ≤ 2 ^ 63 }
    {
        let line_size = u64::from(self.line_size);
        let period = self.places.len() as u64 * line_size;
        let offset = spa - self.spa;
        let first = offset / period;
        let last = (offset + (length - 1)) / period;
        let mut extents = Vec::new(alloc);
        self.put_period(strand, first, spa, length, &mut extents)?;
        if first >= last {
            return Ok(extents);
        }
        put_periods(&mut extents, self.lines as u64 * line_size, first, last)?;
        self.put_period(strand, last, spa, length, &mut extents)?;
        Ok(extents)
    }

    /// Puts what lies in the range of the lines that a part has in period k.
    fn put_period(
        &self,
        strand: &Strand,
        k: u64,
        spa: u64,
        bytes: u64,
        extents: &mut Vec<Extent>,
    ) -> Result<(), AllocError>
        requires member { Contains self.now.strands strand.now }
        requires range { spa + bytes ≤ 2 ^ 63 }
        requires period { (k + 1) * (length self.now.strands * period_of strand.now) ≤ self.now.len }
        requires before { AreUpTo self.now spa bytes strand.now (k * period_of strand.now) extents.old.items }
        ensures { OnOk result
            (AreUpTo self.now spa bytes strand.now ((k + 1) * period_of strand.now) extents.new.items) }
    {
        let line_size = u64::from(self.line_size);
        let lines = self.lines as u64;
        let period = self.places.len() as u64 * line_size;
        for (j, line) in strand.lines.as_slice().iter().enumerate() {
            let d = byte_at(k, lines, j as u64, line_size, 0);
            let offset = offset_at(strand.offset, u64::from(*line), line_size, k, period, 0);
            put_cut(extents, d, line_size, self.spa + offset, spa, bytes)?;
        }
        Ok(())
    }
}

/// Puts those of the `width` bytes from byte `d` on that lie in the range. They lie at `address` and behind it.
fn put_cut(
    extents: &mut Vec<Extent>,
    d: u64,
    width: u64,
    address: u64,
    spa: u64,
    length: u64,
) -> Result<(), AllocError>
    requires bytes { d + width ≤ 2 ^ 63 }
    requires line { address + width ≤ 2 ^ 63 }
    requires range { spa + length ≤ 2 ^ 63 }
    ensures { (woven : Woven) (a : Strand) → AreUpTo woven spa length a d extents.old.items
        → ((r : ℕ) → r < width → address_of woven a (d + r) ≡ address + r)
        → OnOk result (AreUpTo woven spa length a (d + width) extents.new.items) }
{
    let from = address.max(spa);
    let to = (address + width).min(spa + length);
    if from < to {
        put(extents, d + (from - address), to - from)
    } else {
        Ok(())
    }
}

/// Puts the bytes of the periods between two, each of so many bytes.
fn put_periods(
    extents: &mut Vec<Extent>,
    part: u64,
    first: u64,
    last: u64,
) -> Result<(), AllocError>
    requires order { first < last }
    requires fits { last * part ≤ 2 ^ 63 }
    ensures { OnOk result
        (IsPutAt extents.old.items ((first + 1) * part) ((last - (first + 1)) * part) extents.new.items) }
{
    let from = (first + 1) * part;
    put(extents, from, last * part - from)
}

/// Puts the `len` bytes from `start` on, behind all others.
fn put(extents: &mut Vec<Extent>, start: u64, len: u64) -> Result<(), AllocError>
    requires { start + len ≤ 2 ^ 63 }
    ensures { OnOk result (IsPutAt extents.old.items start len extents.new.items) }
{
    if len == 0 {
        return Ok(());
    }
    let last = match extents.pop() {
        Some(last) => last,
        None => return Ok(extents.push(Extent { start, len })?),
    };
    match joined(last, start, len) {
        Some(extent) => Ok(extents.push(extent)?),
        None => {
            extents.push(last)?;
            Ok(extents.push(Extent { start, len })?)
        }
    }
}

/// An extent with `len` bytes more, if they start where it ends.
fn joined(last: Extent, start: u64, len: u64) -> Option<Extent>
    requires { start + len ≤ 2 ^ 63 }
    ensures { MatchOption result
        (end_of last ≢ start)
        (λ extent. (end_of last ≡ start) × (extent ≡ record { start = last.start; len = last.len + len })) }
{
    if last.start.checked_add(last.len) == Some(start) {
        Some(Extent {
            start: last.start,
            len: last.len + len,
        })
    } else {
        None
    }
}

/// Puts the runs of a part's extents.
fn put_runs(runs: &mut List<Run>, strand: &Strand, extents: &[Extent]) -> Result<(), AllocError>
    requires { All (λ e. strand.now.base + e.start ≤ 2 ^ 63) extents.now }
    ensures { OnOk result (runs.new ≡ runs.old ++ map (run_of strand.now) extents.now) }
{
    for extent in extents {
        runs.push(Run {
            dimm: strand.handle,
            dpa: strand.base + extent.start,
            length: extent.len,
        })?;
    }
    Ok(())
}
