//! Intervals of offsets, as free space is listed.

ghost use Rattle.std.specs.Prelude.{◌≡◌, ◌+◌, ◌<◌, ◌^◌};

/// An interval of offsets: the `len` offsets from `start` on. Both count bytes.
#[derive(Clone, Copy, Debug, PartialEq, Eq)]
pub struct Extent {
    pub start: u64,
    pub len: u64,
}

impl Extent {
    /// The offset right behind the extent.
    pub fn end(&self) -> u64
        requires { self.now.start + self.now.len < 2 ^ 64 }
        ensures { result ≡ self.now.start + self.now.len }
    {
        self.start + self.len
    }

    /// The extent with the offsets of another one that begins where it ends.
    pub fn joined(&self, next: &Extent) -> Extent
        requires touching { next.now.start ≡ self.now.start + self.now.len }
        requires fits { self.now.len + next.now.len < 2 ^ 64 }
        ensures { result ≡ record { start = self.now.start; len = self.now.len + next.now.len } }
    {
        Extent {
            start: self.start,
            len: self.len + next.len,
        }
    }
}
