//! What contracts see of a media.

ghost use Rattle.std.specs.Prelude.{◌≡◌, ◌≤◌, ℕ, Bool, List, IsTrue};
ghost use Rattle.btt_arena.specs.Records.{CrashRecord};

/// What contracts see of a media: its bytes, what a stop leaves, and how often it failed.
///
/// A media that tells its bytes says so by `tells`; what its calls promise of content holds there, and all else holds
/// of every media. One that tells what a stop leaves says so by `tells_records`; one that doesn't has no records.
pub trait MediaState {
    /// Whether it tells its bytes.
    ghost tells: { Self → Bool };

    /// Whether it tells its crash records.
    ghost tells_records: { Self → Bool };

    /// Its bytes.
    ghost bytes: { Self → List ℕ };

    /// The records that a stop now may leave.
    ghost may_leave: { Self → CrashRecord → Type 0 };

    /// The moment that its clock shows.
    ghost moment: { Self → ℕ };

    /// The records that a stop at any moment from a given one on might have left.
    ghost left_since: { Self → ℕ → CrashRecord → Type 0 };

    /// How often a call failed.
    ghost faults: { Self → ℕ };

    /// A stop now is one since any moment that has come.
    ghost counts_now: { (m : Self) (t : ℕ) (c : CrashRecord) → t ≤ moment m → may_leave m c → left_since m t c };

    /// A stop since a later moment is one since an earlier moment.
    ghost earlier: { (m : Self) (t u : ℕ) (c : CrashRecord) → t ≤ u → left_since m u c → left_since m t c };

    /// A stop since this moment is one now.
    ghost only_now: { (m : Self) (c : CrashRecord) → left_since m (moment m) c → may_leave m c };

    /// A stop now leaves the bytes as they stand.
    ghost now_is: { (m : Self) (c : CrashRecord) → may_leave m c → c.bytes ≡ bytes m };

    /// Where records are told, a stop now leaves one.
    ghost has_record: { (m : Self) → IsTrue (tells_records m) → (c : CrashRecord) × may_leave m c };
}
