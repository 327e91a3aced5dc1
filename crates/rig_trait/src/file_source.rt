//! A source over one file.

ghost use Rattle.std.specs.Prelude.{◌≡◌, ◌≤◌, [], length, false, IfOk};

use crate::{Failed, Source};
use std::alloc::{AllocError, Global};
use std::fs::File;
use std::io::{ErrorKind, Read};
use std::marker::Model;
use std::{fs, io};

/// The bytes of a file. What files hold is outside of what is proved, so it tells no bytes. The memory of its path
/// is taken when it is made.
///
/// The first read opens the file, and later ones go on from where it stands. A read fails where the path is missing,
/// is no regular file or can't be opened: the next one tries to open it again. A read of the open file fails where the
/// system's does: the file stays open, and the next one goes on.
#[derive(Drop)]
pub struct FileSource {
    rt: HostRuntime,
    path: String,
    /// The file, once it is open.
    file: Option<File>,
    faults: u64,
}

impl Model for FileSource {
    ghost use Rattle.std.specs.Prelude.{ℕ};

    ghost Value = { ℕ };

    ghost view = { λ source. source.faults };
}

impl FileSource {
    /// The source over the file at `path`, which it doesn't look at yet. None of its reads has failed.
    pub fn new(rt: HostRuntime, alloc: Global, path: &str) -> Result<FileSource, AllocError>
        ensures { IfOk result (λ source. source ≡ 0) }
    {
        Ok(FileSource {
            rt,
            path: String::from_str(alloc, path)?,
            file: None,
            faults: 0,
        })
    }

    /// Reads from the file, which it opens where it isn't open yet.
    fn try_read(&mut self, into: &mut [u8]) -> io::Result<usize>
        ensures fits { IfOk result (λ n. n ≤ length into.old) }
        ensures faults { self.new ≡ self.old }
    {
        if self.file.is_none() {
            self.file = Some(open_regular(&self.rt, self.path.as_str())?);
        }
        match &mut self.file {
            Some(file) => file.read(into),
            None => unreachable!(),
        }
    }
}

/// Opens a regular file to be read.
fn open_regular(rt: &HostRuntime, path: &str) -> io::Result<File> {
    // Opening a pipe could wait for ever, so this looks at the path first.
    if !fs::metadata(rt, path)?.is_file() {
        return Err(ErrorKind::InvalidInput.into());
    }
    File::open(rt, path)
}

impl Source for FileSource {
    ghost tells = { λ _. false };

    ghost left = { λ _. [] };

    ghost faults = { λ source. source };

    fn read(&mut self, into: &mut [u8]) -> Result<usize, Failed> {
        match self.try_read(into) {
            Ok(count) => Ok(count),
            Err(_) => {
                self.faults = self.faults.saturating_add(1);
                Err(Failed)
            }
        }
    }

    fn faults(&self) -> u64 {
        self.faults
    }
}
