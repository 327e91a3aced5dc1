//! Laws of intervals.

ghost use Rattle.std.specs.Prelude.{◌≡◌, ℕ, ◌%◌, ◌≤◌, ◌<◌, Bool, false, List, Some, slice_get};
ghost use Rattle.view_types.specs.declared.extents.Extent.{Extent};
ghost use Rattle.view_types.specs.Intervals.{AllFree, AreMaximal, IsMaximal, NoneFits, greatest_aligned};

/// A set of offsets has one list of maximal intervals.
pub fn one_list()
    ensures { (whole : ℕ) (free : ℕ → Bool) (es fs : List Extent) → AreMaximal whole free es
        → AreMaximal whole free fs → es ≡ fs }
{}

/// A set of offsets of a whole has such a list.
pub fn some_list()
    ensures { (whole : ℕ) (free : ℕ → Bool) → ((o : ℕ) → whole ≤ o → free o ≡ false)
        → (es : List Extent) × AreMaximal whole free es }
{}

/// Each extent of the list is a maximal interval: its offsets are free, and those next to it are not.
pub fn each_maximal()
    ensures { (whole : ℕ) (free : ℕ → Bool) (es : List Extent) (k : ℕ) (e : Extent) → AreMaximal whole free es
        → slice_get es k ≡ Some e → IsMaximal free e }
{}

/// A length that is a multiple of the alignment fits exactly where it is at most the greatest aligned length.
pub fn greatest_fits()
    ensures fits { (whole : ℕ) (free : ℕ → Bool) (es : List Extent) (len align : ℕ) → AreMaximal whole free es → 0 < len
        → 0 < align
        → len ≤ greatest_aligned align es → (at : ℕ) × (at % align ≡ 0) × AllFree free at len }
    ensures none { (whole : ℕ) (free : ℕ → Bool) (es : List Extent) (len align : ℕ) → AreMaximal whole free es → 0 < len
        → 0 < align
        → len % align ≡ 0 → greatest_aligned align es < len → NoneFits free len align }
{}
