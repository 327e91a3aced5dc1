//! A source over any reader of the standard library.

ghost use Rattle.std.specs.Prelude.{◌≡◌, [], false};

use crate::{Failed, Source};
use std::io::Read;
use std::marker::Model;

/// The bytes that a reader gives, as those of the standard input, which is `rt.stdin()`. What a reader gives is
/// outside of what is proved, so it tells no bytes. It takes no memory.
///
/// A read fails where the reader's does. The next one asks the reader again.
#[derive(Drop)]
pub struct StdSource<T> {
    from: T,
    faults: u64,
}

impl<T> Model for StdSource<T> {
    ghost use Rattle.std.specs.Prelude.{ℕ};

    ghost Value = { ℕ };

    ghost view = { λ source. source.faults };
}

impl<T> StdSource<T> {
    /// The source over a reader, none of whose reads has failed.
    pub fn new(from: T) -> StdSource<T>
        ensures { result ≡ 0 }
    {
        StdSource { from, faults: 0 }
    }
}

impl<T: Read + Drop> Source for StdSource<T> {
    ghost tells = { λ _. false };

    ghost left = { λ _. [] };

    ghost faults = { λ source. source };

    fn read(&mut self, into: &mut [u8]) -> Result<usize, Failed> {
        match self.from.read(into) {
            Ok(count) => Ok(count),
            // One that a signal interrupted is a fault too: nothing bounds how often that comes.
            Err(_) => {
                self.faults = self.faults.saturating_add(1);
                Err(Failed)
            }
        }
    }

    fn faults(&self) -> u64 {
        self.faults
    }
}
