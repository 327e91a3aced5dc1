//! The trait, and what each of its calls promises.

ghost use Rattle.std.specs.Prelude.{◌≡◌, ◌≤◌, ◌+◌, ◌%◌, length, IfOk};
ghost use Rattle.std.specs.Result.{is_err};
ghost use Rattle.btt_arena.specs.Frames.{IsTold, Reads, GoesOn, Fails, GivesBytes, WritesBytes, WriteLeaves};

use crate::MediaState;
use rig_trait::Failed;

/// The bytes of a namespace, as many as never change. Offsets and sizes are in bytes. A call that fails is counted
/// once, and one that answers `Ok` never.
pub trait Media: MediaState {
    /// How many bytes it has.
    fn size(&mut self) -> Result<u64, Failed>
        ensures size { IsTold Self.MediaState self.old → IfOk result (λ size. size ≡ length (Self.bytes self.old)) }
        ensures reads_only { Reads Self.MediaState self.old self.new }
        ensures cause { Fails Self.MediaState self.old self.new (is_err result) };

    /// The bytes from the offset `at` on, as many as `into` has.
    fn read(&mut self, at: u64, into: &mut [u8]) -> Result<(), Failed>
        requires { IsTold Self.MediaState self.old → at + length into.old ≤ length (Self.bytes self.old) }
        ensures bytes { GivesBytes Self.MediaState self.old at (length into.old) into.new result }
        ensures reads_only { Reads Self.MediaState self.old self.new }
        ensures cause { Fails Self.MediaState self.old self.new (is_err result) };

    /// Puts bytes from the offset `at` on; both are multiples of 4. At `Ok` they stand there and are durable. A write
    /// that fails, or within which all stops, leaves each aligned word of four bytes in its range old or new. All other
    /// bytes stay as they were.
    fn write(&mut self, at: u64, bytes: &[u8]) -> Result<(), Failed>
        requires inside { IsTold Self.MediaState self.old → at + length bytes.now ≤ length (Self.bytes self.old) }
        requires at_word { at % 4 ≡ 0 }
        requires words { length bytes.now % 4 ≡ 0 }
        ensures written { WritesBytes Self.MediaState self.old self.new at bytes.now result }
        ensures goes_on { GoesOn Self.MediaState self.old self.new }
        ensures stops { WriteLeaves Self.MediaState self.old self.new at bytes.now result }
        ensures cause { Fails Self.MediaState self.old self.new (is_err result) };

    /// How often a call failed. A count that has reached its last value stays there.
    fn faults(&self) -> u64
        ensures { result ≡ Self.faults self.now };
}
