//! The counts that every rig keeps.

ghost use Rattle.std.specs.Prelude.{◌≡◌};
ghost use Rattle.rig_trait.specs.Counts.{no_counts, read_counted, fault_counted, say_fault_counted};

/// How often the calls of a rig failed, and how often it was read. A count that has reached its last value stays
/// there.
#[derive(Clone, Copy)]
pub struct Counts {
    pub faults: u64,
    pub say_faults: u64,
    pub failed_dimm: u32,
    pub reads: u64,
}

impl Counts {
    /// No call has failed, and no area was read.
    pub fn new() -> Counts
        ensures { result ≡ no_counts }
    {
        Counts {
            faults: 0,
            say_faults: 0,
            failed_dimm: 0,
            reads: 0,
        }
    }

    /// Counts a call of `size` or `read`.
    pub fn count_read(&mut self)
        ensures { self.new ≡ read_counted self.old }
    {
        self.reads = self.reads.saturating_add(1);
    }

    /// Counts a call that failed at a module.
    pub fn count_fault(&mut self, dimm: u32)
        ensures { self.new ≡ fault_counted dimm self.old }
    {
        self.faults = self.faults.saturating_add(1);
        self.failed_dimm = dimm;
    }

    /// Counts a `say` that failed.
    pub fn count_say_fault(&mut self)
        ensures { self.new ≡ say_fault_counted self.old }
    {
        self.say_faults = self.say_faults.saturating_add(1);
    }
}
