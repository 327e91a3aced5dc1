//! What a range of addresses tells of its runs.

ghost use Rattle.std.specs.Prelude.{◌≡◌, ℕ, List};
ghost use Rattle.view_types.specs.declared.translation.Run.{Run};
ghost use Rattle.spa_translate.specs.Runs.{AreRuns};
ghost use Rattle.spa_translate.specs.Woven.{Woven};

/// A range of addresses has one list of runs behind it.
pub fn one_list_of_runs()
    ensures { (woven : Woven) (spa len : ℕ) (runs others : List Run) → AreRuns woven spa len runs
        → AreRuns woven spa len others → runs ≡ others }
{}
