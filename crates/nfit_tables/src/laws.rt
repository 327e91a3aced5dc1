//! Laws of tables.

ghost use Rattle.std.specs.Prelude.{◌≡◌};
ghost use Rattle.nfit_tables.specs.declared.pieces.Nfit.{Nfit};
ghost use Rattle.nfit_tables.specs.Proper.{IsProper};
ghost use Rattle.nfit_tables.specs.Spelling.{text};

/// Two proper tables with the same bytes are the same.
pub fn one_table()
    ensures { (m n : Nfit) → IsProper m → IsProper n → text m ≡ text n → m ≡ n }
{}
