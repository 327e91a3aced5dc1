//! A pool of nodes in one vector. Those that are spare are chained through it. Each call on a pool counts one step.

ghost use Rattle.std.specs.Prelude.{◌≡◌, ◌≢◌, ℕ, ◌+◌, ◌<◌, ◌^◌, [], drop, length, slice_get, slice_set};
ghost use Rattle.std.specs.Prelude.{Some, IfOk, OnErr, OnOk};
ghost use Rattle.extent_alloc.specs.Chains.{first_at, times};

use crate::steps::Steps;
use std::alloc::{AllocError, Global};
use std::marker::Model;
use std::sync::ledger::Ledger;
use view_types::Extent;

/// A free extent, and the nodes of the extents before and after it. Of a spare node only `after` counts: it is the
/// next spare one.
#[derive(Clone, Copy)]
pub(crate) struct Node {
    pub extent: Extent,
    pub before: Option<usize>,
    pub after: Option<usize>,
}

/// A node's index, and its extent.
#[derive(Clone, Copy)]
pub(crate) struct Link {
    pub at: usize,
    pub extent: Extent,
}

/// Nodes by index, and the chain of those that are spare.
#[derive(Drop)]
pub(crate) struct Pool {
    nodes: Vec<Node>,
    spare: Option<usize>,
    spare_len: usize,
}

impl Model for Pool {
    ghost use Rattle.extent_alloc.specs.Pool.{Nodes};

    ghost Value = { Nodes };

    ghost use Rattle.extent_alloc.specs.Pooled.{nodes_of, IsChained};

    ghost view = { nodes_of };

    ghost invariant = { IsChained };
}

impl Pool {
    /// A pool without nodes. It takes no memory.
    pub(crate) fn new(alloc: Global) -> Pool
        ensures { result ≡ record { nodes = []; idle = [] } }
    {
        Pool {
            nodes: Vec::new(alloc),
            spare: None,
            spare_len: 0,
        }
    }

    /// The number of spare nodes: one step.
    pub(crate) fn spare_len<L: Ledger>(&self, steps: &mut Steps<L>) -> usize
        ensures len { result ≡ length self.now.idle }
        ensures step { steps.new ≡ steps.old + 1 }
    {
        steps.tick();
        self.spare_len
    }

    /// Reads a node whole, if there is one at the index: one step.
    pub(crate) fn get<L: Ledger>(&self, at: usize, steps: &mut Steps<L>) -> Option<Node>
        ensures node { result ≡ slice_get self.now.nodes at }
        ensures step { steps.new ≡ steps.old + 1 }
    {
        steps.tick();
        self.nodes.get(at).copied()
    }

    /// Reads a node whole: one step.
    pub(crate) fn node<L: Ledger>(&self, at: usize, steps: &mut Steps<L>) -> Node
        requires { at < length self.now.nodes }
        ensures node { slice_get self.now.nodes at ≡ Some result }
        ensures step { steps.new ≡ steps.old + 1 }
    {
        steps.tick();
        self.nodes[at]
    }

    /// Writes a node that is not spare whole: one step.
    pub(crate) fn set_node<L: Ledger>(&mut self, at: usize, node: Node, steps: &mut Steps<L>)
        requires within { at < length self.old.nodes }
        requires in_use { times at self.old.idle ≡ 0 }
        ensures nodes { self.new.nodes ≡ slice_set self.old.nodes at node }
        ensures idle { self.new.idle ≡ self.old.idle }
        ensures step { steps.new ≡ steps.old + 1 }
    {
        steps.tick();
        self.nodes[at] = node;
    }

    /// Takes the first spare node out of its chain: one step.
    pub(crate) fn take_node<L: Ledger>(&mut self, steps: &mut Steps<L>) -> usize
        requires { 0 < length self.old.idle }
        ensures within { result < length self.old.nodes }
        ensures few { length self.old.nodes < 2 ^ 63 }
        ensures taken { first_at self.old.idle ≡ Some result }
        ensures rest { self.new.idle ≡ drop 1 self.old.idle }
        ensures nodes { self.new.nodes ≡ self.old.nodes }
        ensures step { steps.new ≡ steps.old + 1 }
    {
        steps.tick();
        let at = self.spare.unwrap();
        self.spare = self.nodes[at].after;
        self.spare_len -= 1;
        at
    }

    /// Puts a node that is not spare before the spare ones: one step.
    pub(crate) fn give_node<L: Ledger>(&mut self, at: usize, steps: &mut Steps<L>)
        requires within { at < length self.old.nodes }
        requires in_use { times at self.old.idle ≡ 0 }
        requires room { length self.old.idle < length self.old.nodes }
        ensures given { first_at self.new.idle ≡ Some at }
        ensures rest { drop 1 self.new.idle ≡ self.old.idle }
        ensures len { length self.new.nodes ≡ length self.old.nodes }
        ensures others { (k : ℕ) → k ≢ at → slice_get self.new.nodes k ≡ slice_get self.old.nodes k }
        ensures step { steps.new ≡ steps.old + 1 }
    {
        steps.tick();
        let spare = self.spare;
        let node = &mut self.nodes[at];
        node.after = spare;
        self.spare = Some(at);
        self.spare_len += 1;
    }

    /// Makes one more spare node: one step.
    pub(crate) fn add_node<L: Ledger>(&mut self, steps: &mut Steps<L>) -> Result<(), AllocError>
        ensures fresh { OnOk result (times (length self.old.nodes) self.old.idle ≡ 0) }
        ensures given { OnOk result (first_at self.new.idle ≡ Some (length self.old.nodes)) }
        ensures rest { OnOk result (drop 1 self.new.idle ≡ self.old.idle) }
        ensures len { OnOk result (length self.new.nodes ≡ length self.old.nodes + 1) }
        ensures others { OnOk result ((k : ℕ) → k < length self.old.nodes
            → slice_get self.new.nodes k ≡ slice_get self.old.nodes k) }
        ensures err { OnErr result (self.new ≡ self.old) }
        ensures step { steps.new ≡ steps.old + 1 }
    {
        steps.tick();
        let at = self.nodes.len();
        let extent = Extent { start: 0, len: 0 };
        self.nodes.push(Node {
            extent,
            before: None,
            after: self.spare,
        })?;
        self.spare = Some(at);
        self.spare_len += 1;
        Ok(())
    }

    /// The same nodes and the same chain, in memory of its own: one step.
    pub(crate) fn take_copy<L: Ledger>(
        &self,
        alloc: Global,
        steps: &mut Steps<L>,
    ) -> Result<Pool, AllocError>
        ensures copy { IfOk result (λ pool. pool ≡ self.now) }
        ensures step { steps.new ≡ steps.old + 1 }
    {
        steps.tick();
        Ok(Pool {
            nodes: Vec::from_slice(alloc, &self.nodes)?,
            spare: self.spare,
            spare_len: self.spare_len,
        })
    }
}
