//! Extents that are put before those of a chain.

ghost use Rattle.std.specs.Prelude.{◌≡◌, ◌+◌, ◌<◌, ◌^◌, ℕ, List, [], ◌∷◌, ◌++◌, IfOk, OnOk};
ghost use Rattle.view_types.specs.declared.extents.Extent.{Extent};
ghost use Rattle.extent_alloc.specs.Chains.{extents_of};
ghost use Rattle.extent_alloc.specs.Free.{kept};
ghost use Rattle.extent_alloc.specs.Gaps.{AreFoundFrom};

use crate::chain::Chain;
use crate::steps::Steps;
use std::alloc::AllocError;
use std::marker::Brand;
use std::sync::ledger::{Blank, Ledger};
use view_types::Extent;

/// Puts an extent before those of a chain, unless it is empty.
pub(crate) fn put_front(chain: &mut Chain, extent: Extent) -> Result<(), AllocError>
    ensures extents { OnOk result (extents_of chain.new.links ≡ kept extent (extents_of chain.old.links)) }
    ensures spare { OnOk result (chain.new.spare ≡ chain.old.spare) }
{
    if extent.len == 0 {
        return Ok(());
    }
    put_first::<Brand>(chain, extent, Blank::new(1))
}

/// Puts an extent before those of a chain, with a counter of steps that nobody asks for.
fn put_first<L: Ledger>(chain: &mut Chain, extent: Extent, blank: Blank) -> Result<(), AllocError>
    requires name { blank.name ≡ L.name }
    requires parts { blank.parts ≡ L.parts }
    requires some { 0 < blank.parts }
    ensures extents { OnOk result (extents_of chain.new.links ≡ extent ∷ extents_of chain.old.links) }
    ensures spare { OnOk result (chain.new.spare ≡ chain.old.spare) }
{
    let mut steps = Steps::<L>::new(blank);
    chain.grow(&mut steps)?;
    chain.insert_after(None, extent, &mut steps);
    Ok(())
}

/// Puts the offsets between the last range that is left and `end` before those of a chain. Gives the end of those that
/// the other ranges may have.
pub(crate) fn put_gap(chain: &mut Chain, range: Extent, end: u64) -> Result<u64, AllocError>
    ensures found { (whole : ℕ) (ranges left : List Extent) → whole < 2 ^ 64
        → AreFoundFrom end whole ranges (left ++ range ∷ []) (extents_of chain.old.links)
        → IfOk result (λ start. AreFoundFrom start whole ranges left (extents_of chain.new.links)) }
    ensures spare { OnOk result (chain.new.spare ≡ chain.old.spare) }
{
    if range.len == 0 {
        return Ok(end);
    }
    let start = range.start.saturating_add(range.len);
    let len = end.saturating_sub(start);
    put_front(chain, Extent { start, len })?;
    Ok(range.start.min(end))
}
