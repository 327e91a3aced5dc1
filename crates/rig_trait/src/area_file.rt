//! The open file of an area.

use std::fs::{File, Metadata, OpenOptions};
use std::io::ErrorKind;
use std::os::unix::fs::FileExt;
use std::{fs, io};

/// A file that holds the area of a module, and is open. It has the size that it had when it was opened.
#[derive(Drop)]
pub struct AreaFile {
    dimm: u32,
    size: u64,
    file: File,
}

impl AreaFile {
    /// Opens the regular file at `path`, to be read and written, or to be read alone where it can't be written.
    pub fn open(rt: &HostRuntime, path: &str, dimm: u32) -> io::Result<AreaFile> {
        // Opening a pipe could wait for ever, so this looks at the path first.
        size_at(rt, path)?;
        let file = open_file(rt, path)?;
        let size = regular_size(&file.metadata()?)?;
        Ok(AreaFile { dimm, size, file })
    }

    /// The device handle of the module.
    pub fn dimm(&self) -> u32 {
        self.dimm
    }

    /// The size of the file in bytes.
    pub fn size(&self) -> u64 {
        self.size
    }

    /// Reads bytes from an offset on, all of which the file has.
    pub fn read(&self, at: u64, into: &mut [u8]) -> io::Result<()> {
        self.check_range(at, into.len())?;
        self.file.read_exact_at(into, at)
    }

    /// Writes bytes over those from an offset on, all of which the file has, and syncs them.
    pub fn write(&self, at: u64, bytes: &[u8]) -> io::Result<()> {
        self.check_range(at, bytes.len())?;
        self.file.write_all_at(bytes, at)?;
        self.file.sync_data()
    }

    /// Fails where the file doesn't have so many bytes from an offset on.
    fn check_range(&self, at: u64, len: usize) -> io::Result<()> {
        if at > self.size || self.size - at < len as u64 {
            return Err(ErrorKind::UnexpectedEof.into());
        }
        Ok(())
    }
}

/// The size of the regular file at a path, which needn't be one that can be opened.
pub fn size_at(rt: &HostRuntime, path: &str) -> io::Result<u64> {
    regular_size(&fs::metadata(rt, path)?)
}

fn regular_size(metadata: &Metadata) -> io::Result<u64> {
    if !metadata.is_file() {
        return Err(ErrorKind::InvalidInput.into());
    }
    Ok(metadata.len())
}

fn open_file(rt: &HostRuntime, path: &str) -> io::Result<File> {
    match OpenOptions::new().read(true).write(true).open(rt, path) {
        Ok(file) => Ok(file),
        Err(_) => File::open(rt, path),
    }
}
