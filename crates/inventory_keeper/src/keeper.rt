//! A keeper, as a trait, and what each of its calls promises.

ghost use Rattle.std.specs.Prelude.{◌≡◌, ℕ, Bool, IfOk, IsTrue, OnErr, OnOk, true};
ghost use Rattle.std.specs.Prelude as lists;
ghost use Rattle.inventory_keeper.specs.Faults.{counted, has_failed};
ghost use Rattle.inventory_keeper.specs.Rows.{AllStand, AreRows, swapped};
ghost use Rattle.inventory_keeper.specs.Tags.{AreTags, has_tag, tagged, untagged};

use crate::rows::{BadRow, Tag};
use std::alloc::Global;
use view_types::List;

/// Why a call of a keeper is not done. Both lists are as before it then.
#[derive(Clone, Copy, Debug, PartialEq, Eq)]
pub enum KeepFault {
    /// It failed, and was counted.
    Failed,
    /// Memory was refused.
    Memory,
}

/// What is kept of a platform: bad rows, and tags. The rows ascend; none is empty, none ends behind 2^63, and no two
/// overlap or touch. The tags ascend by the bytes of their uuids, one for each.
///
/// A keeper that tells its lists says so by `tells`; what its calls promise of the lists holds there, and all else
/// holds of every keeper. Each call fails exactly where it raises the count of faults, by one.
pub trait Keeper {
    ghost use Rattle.inventory_keeper.specs.declared.rows.BadRow.{BadRow};
    ghost use Rattle.inventory_keeper.specs.declared.rows.Tag.{Tag};

    /// Whether it tells its lists.
    ghost tells: { Self → Bool };

    /// The bad rows.
    ghost bad: { Self → lists.List BadRow };

    /// The tags.
    ghost tags: { Self → lists.List Tag };

    /// How many calls failed.
    ghost faults: { Self → ℕ };

    /// All bad rows.
    fn bad_rows(&mut self, alloc: Global) -> Result<List<BadRow>, KeepFault>
        ensures rows { IsTrue (tells self.old) → IfOk result (λ rows. rows ≡ bad self.old) }
        ensures form { IfOk result AreRows }
        ensures bad { IsTrue (tells self.old) → bad self.new ≡ bad self.old }
        ensures tags { IsTrue (tells self.old) → tags self.new ≡ tags self.old }
        ensures tells { tells self.new ≡ tells self.old }
        ensures cause { faults self.new ≡ counted (has_failed result) (faults self.old) };

    /// Takes some of the rows away, and puts others, all at once.
    fn swap_bad(&mut self, alloc: Global, taken: &[BadRow], put: &[BadRow]) -> Result<(), KeepFault>
        requires stand { IsTrue (tells self.old) → AllStand (bad self.old) taken.now }
        requires form { IsTrue (tells self.old) → AreRows (swapped taken.now put.now (bad self.old)) }
        ensures swapped { IsTrue (tells self.old)
            → OnOk result (bad self.new ≡ swapped taken.now put.now (bad self.old)) }
        ensures kept { IsTrue (tells self.old) → OnErr result (bad self.new ≡ bad self.old) }
        ensures tags { IsTrue (tells self.old) → tags self.new ≡ tags self.old }
        ensures tells { tells self.new ≡ tells self.old }
        ensures cause { faults self.new ≡ counted (has_failed result) (faults self.old) };

    /// All tags.
    fn tags(&mut self, alloc: Global) -> Result<List<Tag>, KeepFault>
        ensures found { IsTrue (tells self.old) → IfOk result (λ found. found ≡ tags self.old) }
        ensures form { IfOk result AreTags }
        ensures bad { IsTrue (tells self.old) → bad self.new ≡ bad self.old }
        ensures tags { IsTrue (tells self.old) → tags self.new ≡ tags self.old }
        ensures tells { tells self.new ≡ tells self.old }
        ensures cause { faults self.new ≡ counted (has_failed result) (faults self.old) };

    /// Makes a text the one tag of a uuid.
    fn set_tag(&mut self, alloc: Global, uuid: &[u8; 16], text: &[u8; 64]) -> Result<(), KeepFault>
        ensures set { IsTrue (tells self.old) → OnOk result (tags self.new
            ≡ tagged (record { uuid = uuid.now; text = text.now }) (tags self.old)) }
        ensures kept { IsTrue (tells self.old) → OnErr result (tags self.new ≡ tags self.old) }
        ensures bad { IsTrue (tells self.old) → bad self.new ≡ bad self.old }
        ensures tells { tells self.new ≡ tells self.old }
        ensures cause { faults self.new ≡ counted (has_failed result) (faults self.old) };

    /// Takes the tag of a uuid away.
    fn drop_tag(&mut self, alloc: Global, uuid: &[u8; 16]) -> Result<(), KeepFault>
        requires has { IsTrue (tells self.old) → has_tag uuid.now (tags self.old) ≡ true }
        ensures dropped { IsTrue (tells self.old) → OnOk result (tags self.new ≡ untagged uuid.now (tags self.old)) }
        ensures kept { IsTrue (tells self.old) → OnErr result (tags self.new ≡ tags self.old) }
        ensures bad { IsTrue (tells self.old) → bad self.new ≡ bad self.old }
        ensures tells { tells self.new ≡ tells self.old }
        ensures cause { faults self.new ≡ counted (has_failed result) (faults self.old) };

    /// How many calls failed. A count that has reached its last value stays there.
    fn faults(&self) -> u64
        ensures { result ≡ faults self.now };
}
