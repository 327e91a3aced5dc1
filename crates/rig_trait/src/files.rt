//! A rig over the files of a folder and the standard output.

ghost use Rattle.std.specs.Prelude.{◌≡◌, ◌+◌, ◌≤◌, ◌++◌, [], ◌∷◌, ◌<◌, length, take, false, IfOk, string_bytes};
ghost use Rattle.std.specs.Prelude.{string_len, string_capacity};
ghost use Rattle.std.specs.FinMap.{empty};
ghost use Rattle.rig_trait.specs.Counts.{no_counts};
ghost use Rattle.rig_trait.specs.Files.{area_file, handle_digits, HasRoom};

use crate::area_file::{AreaFile, size_at};
use crate::counts::Counts;
use crate::{Failed, Rig, Shown};
use std::alloc::{AllocError, Global};
use std::io;
use std::io::{ErrorKind, Write};
use std::marker::Model;

/// The most files of areas that are kept open: no platform has more modules.
const MOST_OPEN: usize = 64;

/// The areas as files of a folder, and the standard output: the area of the module with handle 0xHHHHHHHH is the
/// file `dimm-HHHHHHHH.lsa`, with eight lower case digits. What files hold is outside of what is proved, so it
/// tells no areas, nothing said and no crash records.
///
/// A missing file, or a missing folder, is no area. A path that is there and is no regular file fails, as does a
/// range outside of the file. The first call for a module that finds its file opens it. It stays open, so that later
/// calls go to this file with the size that it had, whatever becomes of its path. This is so for the files of 64 modules.
/// That of a further one is opened for each call. The memory for the open files and for a path is taken by `new`.
#[derive(Drop)]
pub struct FileRig {
    rt: HostRuntime,
    /// The path of the area's file that was last opened, or was to be. It has the memory of the path of any of them.
    path: String,
    folder_len: usize,
    /// The files that stay open, each of another module.
    open: Vec<AreaFile>,
    counts: Counts,
}

impl Model for FileRig {
    ghost use Rattle.rig_trait.specs.declared.counts.Counts.{Counts};
    ghost use Rattle.rig_trait.specs.Counts.{counts_code};
    ghost use Rattle.rig_trait.specs.InFiles.{IsRoomy};

    ghost Value = { Counts };

    ghost coded = { counts_code };

    ghost view = { λ rig. rig.counts };

    ghost invariant = { IsRoomy };
}

impl FileRig {
    /// The rig over the files of the folder `dir`, which needn't be there.
    pub fn new(rt: HostRuntime, alloc: Global, dir: &str) -> Result<FileRig, AllocError>
        ensures { IfOk result (λ rig. rig ≡ no_counts) }
    {
        let folder_len = dir.len();
        let mut path = String::with_capacity(alloc, folder_len + "/dimm-00000000.lsa".len())?;
        push_str(&mut path, dir);
        Ok(FileRig {
            rt,
            path,
            folder_len,
            open: Vec::with_capacity(alloc, MOST_OPEN)?,
            counts: Counts::new(),
        })
    }

    /// The file of an area: the one that is open, which is taken from those that are, or one that is opened now.
    fn take_file(&mut self, dimm: u32) -> io::Result<AreaFile>
        ensures { self.new ≡ self.old }
    {
        match self.open.iter().position(|file| file.dimm() == dimm) {
            Some(at) => Ok(self.open.swap_remove(at)),
            None => {
                set_area(&mut self.path, self.folder_len, dimm);
                AreaFile::open(&self.rt, self.path.as_str(), dimm)
            }
        }
    }

    /// Leaves a file that was taken open, or closes it where as many are open as can be.
    fn keep_file(&mut self, file: AreaFile)
        ensures { self.new ≡ self.old }
    {
        if self.open.len() < MOST_OPEN {
            self.open.push_reserved(file);
        }
    }

    fn try_size(&mut self, dimm: u32) -> io::Result<Option<u64>>
        ensures { self.new ≡ self.old }
    {
        match self.take_file(dimm) {
            Ok(file) => {
                let size = file.size();
                self.keep_file(file);
                Ok(Some(size))
            }
            Err(error) if error.kind() == ErrorKind::NotFound => Ok(None),
            // A file that can't be opened has a size too.
            Err(_) => Ok(Some(size_at(&self.rt, self.path.as_str())?)),
        }
    }

    fn try_read(&mut self, dimm: u32, at: u64, into: &mut [u8]) -> io::Result<()>
        ensures { self.new ≡ self.old }
    {
        let file = self.take_file(dimm)?;
        let read = file.read(at, into);
        self.keep_file(file);
        read
    }

    /// Writes into a file that is there, which it never makes, cuts or lengthens.
    fn try_write(&mut self, dimm: u32, at: u64, bytes: &[u8]) -> io::Result<()>
        ensures { self.new ≡ self.old }
    {
        let file = self.take_file(dimm)?;
        let written = file.write(at, bytes);
        self.keep_file(file);
        written
    }

    fn try_say(&self, bytes: &[u8]) -> io::Result<()> {
        let mut out = self.rt.stdout();
        out.write_all(bytes)?;
        out.flush()
    }
}

/// Sets a path to that of an area's file, within the memory that the path has.
fn set_area(path: &mut String, folder_len: usize, dimm: u32)
    requires { HasRoom path.old folder_len }
    ensures bytes { string_bytes path.new ≡ take folder_len (string_bytes path.old) ++ area_file dimm }
    ensures room { HasRoom path.new folder_len }
{
    path.truncate(folder_len);
    push_str(path, "/dimm-");
    push_digits(path, dimm);
    push_str(path, ".lsa");
}

/// Appends the eight hexadecimal digits of a handle, for which there is room.
fn push_digits(path: &mut String, dimm: u32)
    requires { string_len path.old + 8 ≤ string_capacity path.old }
    ensures bytes { string_bytes path.new ≡ string_bytes path.old ++ handle_digits dimm }
    ensures len { string_len path.new ≡ string_len path.old + 8 }
    ensures capacity { string_capacity path.old ≤ string_capacity path.new }
{
    for place in [7u32, 6, 5, 4, 3, 2, 1, 0] {
        let digit = (dimm >> (4 * place)) % 16;
        push(path, char::from_digit(digit, 16).unwrap());
    }
}

/// Appends text for which there is room.
fn push_str(path: &mut String, text: &str)
    requires { string_len path.old + length text.now ≤ string_capacity path.old }
    ensures bytes { string_bytes path.new ≡ string_bytes path.old ++ text.now }
    ensures len { string_len path.new ≡ string_len path.old + length text.now }
    ensures capacity { string_capacity path.old ≤ string_capacity path.new }
{
    if path.push_str(text).is_err() {
        unreachable!()
    }
}

/// Appends an ASCII character for which there is room.
fn push(path: &mut String, character: char)
    requires ascii { character < 128 }
    requires room { string_len path.old < string_capacity path.old }
    ensures bytes { string_bytes path.new ≡ string_bytes path.old ++ character ∷ [] }
    ensures len { string_len path.new ≡ string_len path.old + 1 }
    ensures capacity { string_capacity path.old ≤ string_capacity path.new }
{
    if path.push(character).is_err() {
        unreachable!()
    }
}

impl Shown for FileRig {
    ghost tells = { λ _. false };

    ghost tells_records = { λ _. false };

    ghost areas = { λ _. empty };

    ghost said = { λ _. [] };

    ghost may_leave = { λ _ _. ⊥ };

    ghost moment = { λ _. 0 };

    ghost left_since = { λ _ _ _. ⊥ };

    ghost faults = { λ rig. rig.faults };

    ghost say_faults = { λ rig. rig.say_faults };

    ghost failed_dimm = { λ rig. rig.failed_dimm };

    ghost reads = { λ rig. rig.reads };

    ghost use Rattle.std.proofs.Common.{sym, true≢false};

    ghost counts_now = { λ _ _ _ _ left. left };

    ghost earlier = { λ _ _ _ _ _ left. left };

    ghost only_now = { λ _ _ left. left };

    ghost now_is = { λ _ _ left. absurd left };

    ghost has_record = { λ _ told. absurd (true≢false (sym told)) };
}

impl Rig for FileRig {
    fn size(&mut self, dimm: u32) -> Result<Option<u64>, Failed> {
        self.counts.count_read();
        match self.try_size(dimm) {
            Ok(size) => Ok(size),
            Err(_) => {
                self.counts.count_fault(dimm);
                Err(Failed)
            }
        }
    }

    fn read(&mut self, dimm: u32, at: u64, into: &mut [u8]) -> Result<(), Failed> {
        self.counts.count_read();
        match self.try_read(dimm, at, into) {
            Ok(()) => Ok(()),
            Err(_) => {
                self.counts.count_fault(dimm);
                Err(Failed)
            }
        }
    }

    fn write(&mut self, dimm: u32, at: u64, bytes: &[u8]) -> Result<(), Failed> {
        match self.try_write(dimm, at, bytes) {
            Ok(()) => Ok(()),
            Err(_) => {
                self.counts.count_fault(dimm);
                Err(Failed)
            }
        }
    }

    fn say(&mut self, bytes: &[u8]) -> Result<(), Failed> {
        match self.try_say(bytes) {
            Ok(()) => Ok(()),
            Err(_) => {
                self.counts.count_say_fault();
                Err(Failed)
            }
        }
    }

    fn faults(&self) -> u64 {
        self.counts.faults
    }

    fn say_faults(&self) -> u64 {
        self.counts.say_faults
    }

    fn failed_dimm(&self) -> u32 {
        self.counts.failed_dimm
    }

    fn reads(&self) -> u64 {
        self.counts.reads
    }
}
