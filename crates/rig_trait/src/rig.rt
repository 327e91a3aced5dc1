//! The trait, and what each of its calls promises.

ghost use Rattle.std.specs.Prelude.{◌≡◌, length, IfOk};
ghost use Rattle.std.specs.Result.{is_err};
ghost use Rattle.rig_trait.specs.Areas.{IsWithin, size_in};
ghost use Rattle.rig_trait.specs.Faults.{one_more};
ghost use Rattle.rig_trait.specs.Frames.{IsTold, Reads, WritesTo, SaysOnly, FailsAt, GivesBytes, WritesBytes};
ghost use Rattle.rig_trait.specs.Frames.{WriteLeaves, SayLeaves};
ghost use Rattle.rig_trait.specs.Records.{Says};

use crate::Shown;

/// A call failed, and the rig counted it.
#[derive(Clone, Copy, Debug, PartialEq, Eq)]
pub struct Failed;

/// The label storage areas of all modules, and the standard output.
///
/// An area belongs to the module with the device handle `dimm` (ACPI 6.2, section 5.2.25.3). Offsets and sizes are in
/// bytes. A call that fails is counted once, and one that answers `Ok` never.
pub trait Rig: Shown {
    /// The size of an area, and `None` where the handle has none.
    fn size(&mut self, dimm: u32) -> Result<Option<u64>, Failed>
        ensures size { IsTold Self.Shown self.old → IfOk result (λ size. size ≡ size_in (Self.areas self.old) dimm) }
        ensures reads_only { Reads Self.Shown self.old self.new }
        ensures cause { FailsAt dimm Self.Shown self.old self.new (is_err result) }
        ensures reads { Self.reads self.new ≡ one_more (Self.reads self.old) };

    /// The bytes of an area from the offset `at` on, as many as `into` has.
    fn read(&mut self, dimm: u32, at: u64, into: &mut [u8]) -> Result<(), Failed>
        requires { IsTold Self.Shown self.old → IsWithin (Self.areas self.old) dimm at (length into.old) }
        ensures bytes { GivesBytes Self.Shown self.old dimm at (length into.old) into.new result }
        ensures reads_only { Reads Self.Shown self.old self.new }
        ensures cause { FailsAt dimm Self.Shown self.old self.new (is_err result) }
        ensures reads { Self.reads self.new ≡ one_more (Self.reads self.old) };

    /// Puts bytes into an area, from the offset `at` on. At `Ok` they stand there and are durable. A write that fails,
    /// or within which all stops, leaves any bytes in its range. All other bytes of all areas stay as they were.
    fn write(&mut self, dimm: u32, at: u64, bytes: &[u8]) -> Result<(), Failed>
        requires { IsTold Self.Shown self.old → IsWithin (Self.areas self.old) dimm at (length bytes.now) }
        ensures written { WritesBytes Self.Shown self.old self.new dimm at bytes.now result }
        ensures writes_only { WritesTo dimm Self.Shown self.old self.new }
        ensures stops { WriteLeaves Self.Shown self.old self.new dimm at bytes.now result }
        ensures cause { FailsAt dimm Self.Shown self.old self.new (is_err result) }
        ensures reads { Self.reads self.new ≡ Self.reads self.old };

    /// Says bytes: all of them, or a front of them where it fails.
    fn say(&mut self, bytes: &[u8]) -> Result<(), Failed>
        ensures said { IsTold Self.Shown self.old → Says (Self.said self.old) (Self.said self.new) bytes.now result }
        ensures says_only { SaysOnly Self.Shown self.old self.new (is_err result) }
        ensures stops { SayLeaves Self.Shown self.old self.new bytes.now };

    /// How often `size`, `read` and `write` failed.
    fn faults(&self) -> u64
        ensures { result ≡ Self.faults self.now };

    /// How often `say` failed.
    fn say_faults(&self) -> u64
        ensures { result ≡ Self.say_faults self.now };

    /// The handle of the last call of `size`, `read` or `write` that failed, and 0 before there is one.
    fn failed_dimm(&self) -> u32
        ensures { result ≡ Self.failed_dimm self.now };

    /// How often `size` and `read` were called. A count that has reached its last value stays there.
    fn reads(&self) -> u64
        ensures { result ≡ Self.reads self.now };
}
