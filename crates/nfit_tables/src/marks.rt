//! The indices that a walk over structures has seen.

ghost use Rattle.std.specs.Prelude.{◌≡◌, ◌<◌, ◌^◌, ℕ, true, false, [], ◌∷◌, List, IfOk, IsTrue, slice_index_or};
ghost use Rattle.std.specs.Prelude.{slice_set, vec_len};
ghost use Rattle.std.specs.List.{list_any};

use std::alloc::{AllocError, Global};
use std::mem;

/// How many indices there are.
const INDICES: usize = 65_536;

/// Which indices were seen, of each type that has them.
#[derive(Drop)]
pub(crate) struct IndexMarks {
    ranges: Vec<bool>,
    interleaves: Vec<bool>,
    controls: Vec<bool>,
    ghost ranges_len: { vec_len ranges ≡ 65536 },
    ghost interleaves_len: { vec_len interleaves ≡ 65536 },
    ghost controls_len: { vec_len controls ≡ 65536 },
}

impl IndexMarks {
    ghost use Rattle.nfit_tables.specs.Proper.{is_same_name};
    ghost use Rattle.nfit_tables.specs.Marks.{is_indexed, Knows};

    /// No index was seen.
    pub(crate) fn new(alloc: Global) -> Result<IndexMarks, AllocError>
        ensures { IfOk result (λ seen. Knows seen []) }
    {
        let ranges = vec![in alloc; false; INDICES]?;
        let interleaves = vec![in alloc; false; INDICES]?;
        let controls = vec![in alloc; false; INDICES]?;
        Ok(IndexMarks {
            ranges,
            interleaves,
            controls,
        })
    }

    /// Whether an earlier structure of the type had the index. It is seen from then on.
    pub(crate) fn add(&mut self, kind: u16, index: u16) -> bool
        requires { IsTrue (is_indexed kind) }
        ensures { (earlier : List (ℕ × ℕ)) → Knows self.old earlier
            → (result ≡ list_any (is_same_name (kind, index)) earlier) × Knows self.new ((kind, index) ∷ earlier) }
    {
        match kind {
            0 => mark(&mut self.ranges, index),
            2 => mark(&mut self.interleaves, index),
            _ => mark(&mut self.controls, index),
        }
    }
}

/// Whether an index was marked. It is from then on.
fn mark(marks: &mut Vec<bool>, index: u16) -> bool
    requires { vec_len marks.old ≡ 65536 }
    ensures before { result ≡ slice_index_or marks.old.items index false }
    ensures after { marks.new.items ≡ slice_set marks.old.items index true }
{
    mem::replace(&mut marks[usize::from(index)], true)
}
