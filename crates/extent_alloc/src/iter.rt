//! The free extents, one after another.

ghost use Rattle.std.specs.Prelude.{◌≡◌, ◌<◌, slice_get};
ghost use Rattle.std.specs.Iterator.{YieldsFirst, item_count};

use crate::pool::{Node, Pool};
use crate::steps::Steps;
use std::marker::{Brand, Model};
use std::sync::ledger::{Blank, Ledger};
use view_types::Extent;

/// The free extents by ascending start, seen as the list of those that are left.
#[derive(Drop)]
pub struct Iter<'a> {
    pub(crate) pool: &'a Pool,
    pub(crate) next: Option<usize>,
    pub(crate) left: usize,
}

impl<'a> Model for Iter<'a> {
    ghost use Rattle.std.specs.Prelude.{List};
    ghost use Rattle.view_types.specs.declared.extents.Extent.{Extent};

    ghost Value = { List Extent };

    ghost use Rattle.extent_alloc.specs.Chains.{links_from, extents_of};

    ghost view = { λ iter. extents_of (links_from iter.pool.now.nodes iter.left iter.next) };
}

impl<'a> Iterator for Iter<'a> {
    type Item = Extent;

    ghost next_gives = { YieldsFirst (λ rest. rest) };

    ghost remaining = { item_count (λ rest. rest) };

    fn next(&mut self) -> Option<Extent> {
        if self.left == 0 {
            return None;
        }
        let node = read::<Brand>(self.pool, self.next?, Blank::new(1))?;
        self.left -= 1;
        self.next = node.after;
        Some(node.extent)
    }
}

/// Reads a node, if there is one at the index, with a counter of steps that nobody asks for.
fn read<L: Ledger>(pool: &Pool, at: usize, blank: Blank) -> Option<Node>
    requires name { blank.name ≡ L.name }
    requires parts { blank.parts ≡ L.parts }
    requires some { 0 < blank.parts }
    ensures { result ≡ slice_get pool.now.nodes at }
{
    pool.get(at, &mut Steps::<L>::new(blank))
}
