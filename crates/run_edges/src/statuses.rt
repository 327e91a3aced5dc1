//! The statuses of runs.

ghost use Rattle.std.specs.Prelude.{◌≡◌};
ghost use Rattle.run_edges.specs.Statuses.{code_of};

/// How a run ended.
#[derive(Clone, Copy, Debug, PartialEq, Eq)]
pub enum Status {
    /// All was done, and no reply was a refusal.
    Ok,
    /// All was done, and a reply was a refusal.
    Refused,
    /// The words are no form.
    Words,
    /// The bytes of the NFIT's source are none.
    Nfit,
    /// The rig failed at an area.
    Area,
    /// A source failed, or has too many bytes.
    Source,
    /// Memory was refused.
    Memory,
    /// The output failed.
    Say,
}

impl Status {
    /// Its number, with which the program ends.
    pub fn code(self) -> u8
        ensures { result ≡ code_of self }
    {
        match self {
            Status::Ok => 0,
            Status::Refused => 1,
            Status::Words => 2,
            Status::Nfit => 3,
            Status::Area => 4,
            Status::Source => 5,
            Status::Memory => 6,
            Status::Say => 7,
        }
    }
}
