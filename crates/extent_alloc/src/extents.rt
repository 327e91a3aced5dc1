//! The free extents of a whole.

ghost use Rattle.std.specs.Prelude.{◌≡◌, ◌+◌, ◌<◌, ◌≤◌, [], ◌∷◌, length, slice_get, IfSome, IfNone, IfOk, OnOk};
ghost use Rattle.view_types.specs.Intervals.{AllFree, NoneFree, AreMaximal, IsFirstFit, NoneFits};
ghost use Rattle.view_types.specs.Intervals.{is_free, without_range, with_range, greatest_aligned};
ghost use Rattle.extent_alloc.specs.Chains.{extents_of};
ghost use Rattle.extent_alloc.specs.Free.{is_outside, kept};

use crate::chain::Chain;
use crate::cuts::{cut_at, put, replace};
use crate::fits::{aligned_len, fit_in};
use crate::gaps::{put_front, put_gap};
use crate::iter::Iter;
use crate::steps::Steps;
use std::alloc::{AllocError, Global};
use std::marker::{Brand, Model};
use std::sync::ledger::{Blank, Ledger};
use view_types::Extent;

/// The free extents of a whole: the maximal intervals of its free offsets, in ascending order. Contracts see them as
/// this list, with the length of the whole and the number of spare nodes, each of which is room for one extent more.
#[derive(Drop)]
pub struct Extents {
    chain: Chain,
    whole: u64,
}

impl Model for Extents {
    ghost use Rattle.extent_alloc.specs.Free.{FreeSpace};

    ghost Value = { FreeSpace };

    ghost use Rattle.extent_alloc.specs.Shown.{free_space, IsFreeList};

    ghost view = { free_space };

    ghost invariant = { IsFreeList };
}

impl Extents {
    /// A whole of `len` bytes, all of it free: one extent from 0, or none where `len` is 0.
    pub fn whole(alloc: Global, len: u64) -> Result<Extents, AllocError>
        ensures { IfOk result (λ free. free ≡
            record { extents = kept (record { start = 0; len = len }) []; whole = len; spare = 0 }) }
    {
        let mut chain = Chain::new(alloc);
        put_front(&mut chain, Extent { start: 0, len })?;
        Ok(Extents { chain, whole: len })
    }

    /// The offsets of a whole of `whole` bytes that are in none of some ranges. These may stand in any order, overlap,
    /// be empty, and end past the whole or past 2^64. They are sorted, and then walked once, from the last one on.
    pub fn outside(
        alloc: Global,
        whole: u64,
        mut ranges: Vec<Extent>,
    ) -> Result<Extents, AllocError>
        ensures extents { IfOk result (λ free. AreMaximal whole (is_outside whole ranges.items) free.extents) }
        ensures whole { IfOk result (λ free. free.whole ≡ whole) }
        ensures spare { IfOk result (λ free. free.spare ≡ 0) }
    {
        ranges.sort_unstable_by_key(|range| range.start.saturating_add(range.len));
        let mut chain = Chain::new(alloc);
        let mut end = whole;
        while let Some(range) = ranges.pop() {
            end = put_gap(&mut chain, range, end)?;
        }
        put_front(&mut chain, Extent { start: 0, len: end })?;
        Ok(Extents { chain, whole })
    }

    /// Makes room for `n` more extents, so that as many calls of `carve` and `release` have what they need. The
    /// extents stay as they are, also where memory is refused; some of the room may be there then.
    pub fn reserve(&mut self, n: usize) -> Result<(), AllocError>
        ensures spare { OnOk result (n ≤ self.new.spare) }
        ensures grows { self.old.spare ≤ self.new.spare }
        ensures extents { self.new.extents ≡ self.old.extents }
        ensures whole { self.new.whole ≡ self.old.whole }
    {
        make_room::<Brand>(&mut self.chain, n, Blank::new(1))
    }

    /// How many extents more there is room for.
    pub fn spare(&self) -> usize
        ensures { result ≡ self.now.spare }
    {
        spare_of::<Brand>(&self.chain, Blank::new(1))
    }

    /// The number of free extents.
    pub fn count(&self) -> usize
        ensures count { result ≡ length self.now.extents }
        ensures maximal { AreMaximal self.now.whole (is_free self.now.extents) self.now.extents }
    {
        self.chain.len()
    }

    /// The free extents by ascending start. All of them together take a time that is linear in their number.
    pub fn iter(&self) -> Iter<'_>
        ensures { result ≡ self.now.extents }
    {
        self.chain.iter()
    }

    /// The `i`-th free extent by ascending start, counted from 0, in a time that is linear in `i`. `None` exactly
    /// where there are not so many.
    pub fn get(&self, i: usize) -> Option<Extent>
        ensures { result ≡ slice_get self.now.extents i }
    {
        self.iter().nth(i)
    }

    /// The least multiple of `align` from which `len` offsets are free. `None` exactly where they are free from none.
    pub fn first_fit(&self, len: u64, align: u64) -> Option<u64>
        requires some { 0 < len }
        requires align { 0 < align }
        ensures found { IfSome result (IsFirstFit (is_free self.now.extents) len align) }
        ensures none { IfNone result (NoneFits (is_free self.now.extents) len align) }
    {
        for extent in self.chain.iter() {
            if let Some(start) = fit_in(extent, len, align) {
                return Some(start);
            }
        }
        None
    }

    /// The greatest length of a free extent when its start is rounded up and its end rounded down to a multiple of
    /// `align`, or 0.
    pub fn largest(&self, align: u64) -> u64
        requires { 0 < align }
        ensures { result ≡ greatest_aligned align self.now.extents }
    {
        let mut largest = 0;
        for extent in self.chain.iter() {
            largest = aligned_len(extent, align).max(largest);
        }
        largest
    }

    /// Takes a free range out of the free space. It walks to the range's place from the first extent on.
    pub fn carve<L: Ledger>(&mut self, start: u64, len: u64, steps: &mut Steps<L>)
        requires some { 0 < len }
        requires free { AllFree (is_free self.old.extents) start len }
        requires spare { 0 < self.old.spare }
        ensures carved { AreMaximal self.old.whole (without_range (is_free self.old.extents) start len)
            self.new.extents }
        ensures whole { self.new.whole ≡ self.old.whole }
        ensures spare { self.old.spare ≤ self.new.spare + 1 }
        ensures steps { steps.new ≤ steps.old + length self.old.extents + 8 }
    {
        let cut = cut_at(&self.chain, self.whole, start, steps);
        let found = cut.after.unwrap();
        let end = start + len;
        let left = Extent {
            start: found.extent.start,
            len: start - found.extent.start,
        };
        let right = Extent {
            start: end,
            len: found.extent.end() - end,
        };
        replace(&mut self.chain, found.at, left, right, steps);
    }

    /// Gives a range that is not free back to the free space, and joins it with the extents that it touches. It walks
    /// to the range's place from the first extent on.
    pub fn release<L: Ledger>(&mut self, start: u64, len: u64, steps: &mut Steps<L>)
        requires some { 0 < len }
        requires inside { start + len ≤ self.old.whole }
        requires taken { NoneFree (is_free self.old.extents) start len }
        requires spare { 0 < self.old.spare }
        ensures released { AreMaximal self.old.whole (with_range (is_free self.old.extents) start len)
            self.new.extents }
        ensures whole { self.new.whole ≡ self.old.whole }
        ensures spare { self.old.spare ≤ self.new.spare + 1 }
        ensures steps { steps.new ≤ steps.old + length self.old.extents + 8 }
    {
        let cut = cut_at(&self.chain, self.whole, start, steps);
        let range = Extent { start, len };
        put(&mut self.chain, self.whole, cut, range, steps);
    }

    /// The same extents, whole and room, in memory of its own.
    pub fn take_copy(&self, alloc: Global) -> Result<Extents, AllocError>
        ensures { IfOk result (λ copy. copy ≡ self.now) }
    {
        Ok(Extents {
            chain: copy_of::<Brand>(alloc, &self.chain, Blank::new(1))?,
            whole: self.whole,
        })
    }
}

/// Makes spare nodes until there are `n`, with a counter of steps that nobody asks for.
fn make_room<L: Ledger>(chain: &mut Chain, n: usize, blank: Blank) -> Result<(), AllocError>
    requires name { blank.name ≡ L.name }
    requires parts { blank.parts ≡ L.parts }
    requires some { 0 < blank.parts }
    ensures spare { OnOk result (n ≤ chain.new.spare) }
    ensures grows { chain.old.spare ≤ chain.new.spare }
    ensures links { chain.new.links ≡ chain.old.links }
{
    let mut steps = Steps::<L>::new(blank);
    for _ in chain.spare(&mut steps)..n {
        chain.grow(&mut steps)?;
    }
    Ok(())
}

/// The number of spare nodes, with a counter of steps that nobody asks for.
fn spare_of<L: Ledger>(chain: &Chain, blank: Blank) -> usize
    requires name { blank.name ≡ L.name }
    requires parts { blank.parts ≡ L.parts }
    requires some { 0 < blank.parts }
    ensures { result ≡ chain.now.spare }
{
    chain.spare(&mut Steps::<L>::new(blank))
}

/// The same chain in memory of its own, with a counter of steps that nobody asks for.
fn copy_of<L: Ledger>(alloc: Global, chain: &Chain, blank: Blank) -> Result<Chain, AllocError>
    requires name { blank.name ≡ L.name }
    requires parts { blank.parts ≡ L.parts }
    requires some { 0 < blank.parts }
    ensures { IfOk result (λ copy. copy ≡ chain.now) }
{
    chain.take_copy(alloc, &mut Steps::<L>::new(blank))
}
