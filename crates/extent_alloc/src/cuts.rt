//! Where an offset stands among the extents of a chain, and what is put there.

ghost use Rattle.std.specs.Prelude.{◌≡◌, ◌+◌, ◌<◌, ◌≤◌, ◌^◌, ◌∷◌, List, length, slice_get};
ghost use Rattle.std.specs.Option.{ForSome, option_map};
ghost use Rattle.view_types.specs.declared.extents.Extent.{Extent};
ghost use Rattle.view_types.specs.Intervals.{Ascend, end_of};
ghost use Rattle.extent_alloc.specs.declared.pool.Link.{Link};
ghost use Rattle.extent_alloc.specs.Chain.{Links};
ghost use Rattle.extent_alloc.specs.Chains.{around, extents_of, times, unwind};
ghost use Rattle.extent_alloc.specs.Cuts.{IsCutAt, ending_at, starting_at, joined_in};
ghost use Rattle.extent_alloc.specs.Free.{kept};

use crate::chain::Chain;
use crate::pool::Link;
use crate::steps::Steps;
use std::sync::ledger::Ledger;
use view_types::Extent;

/// A place between two extents of a chain, or at one of its ends.
#[derive(Clone, Copy)]
pub(crate) struct Cut {
    pub before: Option<Link>,
    pub after: Option<Link>,
}

/// The place before the first extent that ends past an offset: at most one step for each extent.
pub(crate) fn cut_at<L: Ledger>(chain: &Chain, whole: u64, offset: u64, steps: &mut Steps<L>) -> Cut
    requires { Ascend 0 whole (extents_of chain.now.links) }
    ensures cut { IsCutAt chain.now.links offset result }
    ensures steps { steps.new ≤ steps.old + length chain.now.links }
{
    let mut before = None;
    let mut next = chain.first();
    while let Some(at) = next {
        let node = chain.node(at, steps);
        let link = Link {
            at,
            extent: node.extent,
        };
        if offset < node.extent.end() {
            return Cut {
                before,
                after: Some(link),
            };
        }
        before = Some(link);
        next = node.after;
    }
    Cut {
        before,
        after: None,
    }
}

/// Puts what is left of an extent into its place: at most eight steps.
pub(crate) fn replace<L: Ledger>(
    chain: &mut Chain,
    at: usize,
    left: Extent,
    right: Extent,
    steps: &mut Steps<L>,
)
    requires in_use { 0 < times at chain.old.links }
    requires spare { 0 < chain.old.spare }
    ensures extents { (done rest : List Link) (e : Extent) → chain.old.links ≡ around done at e rest
        → extents_of chain.new.links ≡ unwind (extents_of done) (kept left (kept right (extents_of rest))) }
    ensures spare { chain.old.spare ≤ chain.new.spare + 1 }
    ensures steps { steps.new ≤ steps.old + 8 }
{
    match (left.len, right.len) {
        (0, 0) => chain.remove(at, steps),
        (0, _) => chain.set_extent(at, right, steps),
        (_, 0) => chain.set_extent(at, left, steps),
        (_, _) => {
            chain.set_extent(at, left, steps);
            chain.insert_after(Some(at), right, steps);
        }
    }
}

/// The link, if its extent ends at an offset.
fn ending_at(link: Option<Link>, offset: u64) -> Option<Link>
    requires { ForSome link (λ l. end_of l.extent < 2 ^ 64) }
    ensures { result ≡ ending_at link offset }
{
    match link {
        Some(link) if link.extent.end() == offset => Some(link),
        _ => None,
    }
}

/// The link, if its extent starts at an offset.
fn starting_at(link: Option<Link>, offset: u64) -> Option<Link>
    ensures { result ≡ starting_at link offset }
{
    match link {
        Some(link) if link.extent.start == offset => Some(link),
        _ => None,
    }
}

/// The index of the link's node.
fn index_of(link: Option<Link>) -> Option<usize>
    ensures { result ≡ option_map (λ l. l.at) link }
{
    link.map(|link| link.at)
}

/// Puts an extent into a place, joined with the extents that it touches: at most eight steps.
pub(crate) fn put<L: Ledger>(
    chain: &mut Chain,
    whole: u64,
    cut: Cut,
    extent: Extent,
    steps: &mut Steps<L>,
)
    requires ascend { Ascend 0 whole (extents_of chain.old.links) }
    requires inside { end_of extent ≤ whole }
    requires cut { IsCutAt chain.old.links extent.start cut }
    requires spare { 0 < chain.old.spare }
    ensures extents { (done rest : List Link) → chain.old.links ≡ unwind done rest → cut.before ≡ slice_get done 0
        → cut.after ≡ slice_get rest 0
        → extents_of chain.new.links ≡ joined_in (extents_of done) extent (extents_of rest) }
    ensures spare { chain.old.spare ≤ chain.new.spare + 1 }
    ensures steps { steps.new ≤ steps.old + 8 }
{
    let before = ending_at(cut.before, extent.start);
    let after = starting_at(cut.after, extent.end());
    match (before, after) {
        (Some(before), Some(after)) => {
            let joined = before.extent.joined(&extent).joined(&after.extent);
            chain.set_extent(before.at, joined, steps);
            chain.remove(after.at, steps);
        }
        (Some(before), None) => chain.set_extent(before.at, before.extent.joined(&extent), steps),
        (None, Some(after)) => chain.set_extent(after.at, extent.joined(&after.extent), steps),
        (None, None) => chain.insert_after(index_of(cut.before), extent, steps),
    }
}
