//! What bytes are read from, as a trait, and what each of its calls promises.

ghost use Rattle.std.specs.Prelude.{◌≡◌, ◌≤◌, ◌<◌, ℕ, Bool, List, [], ◌↔◌, length, take, drop, IsTrue, IfOk, OnErr};
ghost use Rattle.std.specs.Result.{is_err};
ghost use Rattle.rig_trait.specs.Faults.{counted};

use crate::Failed;

/// Bytes that are read from the front, each once, as those of the standard input.
///
/// A source that tells the bytes that it has left says so by `tells`; what its calls promise of content holds there,
/// and all else holds of every source. After a read that failed it may be read again.
pub trait Source {
    /// Whether it tells the bytes left.
    ghost tells: { Self → Bool };

    /// The bytes left.
    ghost left: { Self → List ℕ };

    /// How often `read` failed.
    ghost faults: { Self → ℕ };

    /// Reads some of the bytes left to the front of `into`, and gives their number. For a place that isn't empty, that
    /// is 0 exactly where the input ends. What the rest of the place holds then, and all of it at an `Err`, is left
    /// open.
    fn read(&mut self, into: &mut [u8]) -> Result<usize, Failed>
        ensures bytes { IsTrue (tells self.old) → IfOk result (λ n. take n into.new ≡ take n (left self.old)) }
        ensures left { IsTrue (tells self.old) → IfOk result (λ n. left self.new ≡ drop n (left self.old)) }
        ensures end { IsTrue (tells self.old) → 0 < length into.old
            → IfOk result (λ n. (n ≡ 0) ↔ (left self.old ≡ [])) }
        ensures kept { IsTrue (tells self.old) → OnErr result (left self.new ≡ left self.old) }
        ensures fits { IfOk result (λ n. n ≤ length into.old) }
        ensures tells { tells self.new ≡ tells self.old }
        ensures cause { faults self.new ≡ counted (is_err result) (faults self.old) };

    /// How often `read` failed. A count that has reached its last value stays there.
    fn faults(&self) -> u64
        ensures { result ≡ faults self.now };
}
