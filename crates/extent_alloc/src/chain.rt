//! A doubly linked list of extents, over a pool of nodes.

ghost use Rattle.std.specs.Prelude.{◌≡◌, ◌+◌, ◌<◌, ◌≤◌, [], ◌∷◌, List, length, slice_get, Some};
ghost use Rattle.std.specs.Prelude.{MatchOption, IfSome, IfOk, OnErr, OnOk};
ghost use Rattle.std.specs.Option.{ForSome};
ghost use Rattle.view_types.specs.declared.extents.Extent.{Extent};
ghost use Rattle.extent_alloc.specs.declared.pool.Link.{Link};
ghost use Rattle.extent_alloc.specs.Chain.{Links};
ghost use Rattle.extent_alloc.specs.Chains.{around, first_at, times, unwind, extents_of};
ghost use Rattle.extent_alloc.specs.Changes.{ChangesAt, after_as, before_as};

use crate::iter::Iter;
use crate::pool::{Node, Pool};
use crate::steps::Steps;
use std::alloc::{AllocError, Global};
use std::marker::Model;
use std::sync::ledger::Ledger;
use view_types::Extent;

/// Extents in order, each in a node that leads to the one before and the one after it.
#[derive(Drop)]
pub(crate) struct Chain {
    pool: Pool,
    first: Option<usize>,
    len: usize,
}

impl Model for Chain {
    ghost use Rattle.extent_alloc.specs.Chain.{Links};

    ghost Value = { Links };

    ghost use Rattle.extent_alloc.specs.Linked.{links_of, IsDoublyLinked};

    ghost view = { links_of };

    ghost invariant = { IsDoublyLinked };
}

impl Chain {
    /// A chain without extents and spare nodes. It takes no memory.
    pub(crate) fn new(alloc: Global) -> Chain
        ensures { result ≡ record { links = []; spare = 0 } }
    {
        Chain {
            pool: Pool::new(alloc),
            first: None,
            len: 0,
        }
    }

    /// The number of extents.
    pub(crate) fn len(&self) -> usize
        ensures { result ≡ length self.now.links }
    {
        self.len
    }

    /// The number of spare nodes, in one step.
    pub(crate) fn spare<L: Ledger>(&self, steps: &mut Steps<L>) -> usize
        ensures spare { result ≡ self.now.spare }
        ensures step { steps.new ≡ steps.old + 1 }
    {
        self.pool.spare_len(steps)
    }

    /// The index of the first extent's node.
    pub(crate) fn first(&self) -> Option<usize>
        ensures { result ≡ first_at self.now.links }
    {
        self.first
    }

    /// The extents in order. Each is read in one step, on a counter of its own.
    pub(crate) fn iter(&self) -> Iter<'_>
        ensures { result ≡ extents_of self.now.links }
    {
        Iter {
            pool: &self.pool,
            next: self.first,
            left: self.len,
        }
    }

    /// The node of an extent, in one step.
    pub(crate) fn node<L: Ledger>(&self, at: usize, steps: &mut Steps<L>) -> Node
        requires { 0 < times at self.now.links }
        ensures node { (done rest : List Link) (e : Extent) → self.now.links ≡ around done at e rest
            → result ≡ record { extent = e; before = first_at done; after = first_at rest } }
        ensures step { steps.new ≡ steps.old + 1 }
    {
        self.pool.node(at, steps)
    }

    /// Puts another extent into a node, in two steps.
    pub(crate) fn set_extent<L: Ledger>(&mut self, at: usize, extent: Extent, steps: &mut Steps<L>)
        requires { 0 < times at self.old.links }
        ensures links { (done rest : List Link) (e : Extent) → self.old.links ≡ around done at e rest
            → self.new.links ≡ around done at extent rest }
        ensures spare { self.new.spare ≡ self.old.spare }
        ensures steps { steps.new ≤ steps.old + 2 }
    {
        let node = self.pool.node(at, steps);
        self.pool.set_node(at, Node { extent, ..node }, steps);
    }

    /// Puts an extent after that of a node, or before all, into a spare node: at most six steps.
    pub(crate) fn insert_after<L: Ledger>(
        &mut self,
        before: Option<usize>,
        extent: Extent,
        steps: &mut Steps<L>,
    )
        requires spare { 0 < self.old.spare }
        requires before { ForSome before (λ at. 0 < times at self.old.links) }
        ensures extents { (done rest : List Link) → self.old.links ≡ unwind done rest → before ≡ first_at done
            → extents_of self.new.links ≡ unwind (extents_of done) (extent ∷ extents_of rest) }
        ensures spare { self.new.spare + 1 ≡ self.old.spare }
        ensures steps { steps.new ≤ steps.old + 6 }
    {
        let at = self.pool.take_node(steps);
        let after = replace_after(&mut self.pool, &mut self.first, before, Some(at), steps);
        self.pool.set_node(
            at,
            Node {
                extent,
                before,
                after,
            },
            steps,
        );
        replace_before(&mut self.pool, after, Some(at), steps);
        self.len += 1;
    }

    /// Takes an extent out, whose node is spare then: at most six steps.
    pub(crate) fn remove<L: Ledger>(&mut self, at: usize, steps: &mut Steps<L>)
        requires { 0 < times at self.old.links }
        ensures links { (done rest : List Link) (e : Extent) → self.old.links ≡ around done at e rest
            → self.new.links ≡ unwind done rest }
        ensures spare { self.new.spare ≡ self.old.spare + 1 }
        ensures steps { steps.new ≤ steps.old + 6 }
    {
        let Node {
            extent: _,
            before,
            after,
        } = self.pool.node(at, steps);
        let _ = replace_after(&mut self.pool, &mut self.first, before, after, steps);
        replace_before(&mut self.pool, after, before, steps);
        self.pool.give_node(at, steps);
        self.len -= 1;
    }

    /// Makes one more spare node, in one step.
    pub(crate) fn grow<L: Ledger>(&mut self, steps: &mut Steps<L>) -> Result<(), AllocError>
        ensures links { self.new.links ≡ self.old.links }
        ensures ok { OnOk result (self.new.spare ≡ self.old.spare + 1) }
        ensures err { OnErr result (self.new.spare ≡ self.old.spare) }
        ensures step { steps.new ≡ steps.old + 1 }
    {
        self.pool.add_node(steps)?;
        Ok(())
    }

    /// The same extents and as many spare nodes, in memory of its own and in one step.
    pub(crate) fn take_copy<L: Ledger>(
        &self,
        alloc: Global,
        steps: &mut Steps<L>,
    ) -> Result<Chain, AllocError>
        ensures copy { IfOk result (λ chain. chain ≡ self.now) }
        ensures step { steps.new ≡ steps.old + 1 }
    {
        Ok(Chain {
            pool: self.pool.take_copy(alloc, steps)?,
            first: self.first,
            len: self.len,
        })
    }
}

/// Makes `to` the node after one, or the first one, and gives the one that was: at most two steps.
fn replace_after<L: Ledger>(
    pool: &mut Pool,
    first: &mut Option<usize>,
    before: Option<usize>,
    to: Option<usize>,
    steps: &mut Steps<L>,
) -> Option<usize>
    requires { ForSome before (λ at. (at < length pool.old.nodes) × (times at pool.old.idle ≡ 0)) }
    ensures nodes { ChangesAt before (after_as to) pool.old.nodes pool.new.nodes }
    ensures idle { pool.new.idle ≡ pool.old.idle }
    ensures first { MatchOption before (first.new ≡ to) (λ at. first.new ≡ first.old) }
    ensures replaced { MatchOption before (result ≡ first.old)
        (λ at. IfSome (slice_get pool.old.nodes at) (λ node. result ≡ node.after)) }
    ensures steps { steps.new ≤ steps.old + 2 }
{
    match before {
        None => {
            let was = *first;
            *first = to;
            was
        }
        Some(at) => {
            let node = pool.node(at, steps);
            pool.set_node(at, Node { after: to, ..node }, steps);
            node.after
        }
    }
}

/// Makes `to` the node before one, if there is one: at most two steps.
fn replace_before<L: Ledger>(
    pool: &mut Pool,
    after: Option<usize>,
    to: Option<usize>,
    steps: &mut Steps<L>,
)
    requires { ForSome after (λ at. (at < length pool.old.nodes) × (times at pool.old.idle ≡ 0)) }
    ensures nodes { ChangesAt after (before_as to) pool.old.nodes pool.new.nodes }
    ensures idle { pool.new.idle ≡ pool.old.idle }
    ensures steps { steps.new ≤ steps.old + 2 }
{
    if let Some(at) = after {
        let node = pool.node(at, steps);
        pool.set_node(at, Node { before: to, ..node }, steps);
    }
}
