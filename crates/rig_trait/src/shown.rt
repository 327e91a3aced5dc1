//! What contracts see of a rig.

ghost use Rattle.std.specs.Prelude.{◌≡◌, ◌≤◌, ℕ, Bool, List, IsTrue};
ghost use Rattle.rig_trait.specs.Areas.{Areas};
ghost use Rattle.rig_trait.specs.Records.{CrashRecord};

/// What contracts see of a rig: its areas, what was said, what a stop leaves, and its counts.
///
/// A rig that tells its areas and what was said says so by `tells`; what the calls of a rig promise of content holds
/// there, and all else holds of every rig.
///
/// A stop at any moment leaves a crash record: all areas, what was said, and the write that was torn, if there is one.
/// A rig that tells its records says so by `tells_records`; one that doesn't has none.
pub trait Shown {
    /// Whether it tells its areas and the bytes said.
    ghost tells: { Self → Bool };

    /// Whether it tells its crash records.
    ghost tells_records: { Self → Bool };

    /// The bytes of each area, by the handle of its module.
    ghost areas: { Self → Areas };

    /// The bytes said.
    ghost said: { Self → List ℕ };

    /// The records that a stop now may leave.
    ghost may_leave: { Self → CrashRecord → Type 0 };

    /// The moment that the one clock of all modules and of the output shows.
    ghost moment: { Self → ℕ };

    /// The records that a stop at any moment from a given one on might have left.
    ghost left_since: { Self → ℕ → CrashRecord → Type 0 };

    /// How often `size`, `read` and `write` failed.
    ghost faults: { Self → ℕ };

    /// How often `say` failed.
    ghost say_faults: { Self → ℕ };

    /// The handle of the last call of `size`, `read` or `write` that failed, and 0 before there is one.
    ghost failed_dimm: { Self → ℕ };

    /// How often `size` and `read` were called.
    ghost reads: { Self → ℕ };

    /// A stop now is one since any moment that has come.
    ghost counts_now: { (r : Self) (t : ℕ) (c : CrashRecord) → t ≤ moment r → may_leave r c → left_since r t c };

    /// A stop since a later moment is one since an earlier moment.
    ghost earlier: { (r : Self) (t u : ℕ) (c : CrashRecord) → t ≤ u → left_since r u c → left_since r t c };

    /// A stop since this moment is one now.
    ghost only_now: { (r : Self) (c : CrashRecord) → left_since r (moment r) c → may_leave r c };

    /// A stop now leaves the areas and the bytes said as they stand.
    ghost now_is: { (r : Self) (c : CrashRecord) → may_leave r c → (c.areas ≡ areas r) × (c.said ≡ said r) };

    /// Where records are told, a stop now leaves one.
    ghost has_record: { (r : Self) → IsTrue (tells_records r) → (c : CrashRecord) × may_leave r c };
}
