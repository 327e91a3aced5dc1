//! Rigs and sources over files, in the folder where the tests run, and sources over readers.

use crate::calls::read_whole;
use rig_trait::{Failed, FileRig, FileSource, Rig, Source, StdSource, write_two};
use std::fs::{OpenOptions, Permissions};
use std::io::{Cursor, ErrorKind, Read};
use std::os::unix::fs::PermissionsExt;
use std::test::Fail;
use std::{fs, io};

/// Bytes of an area that no two near places have alike.
fn long_area() -> [u8; 300] {
    let mut bytes = [0; 300];
    for (i, byte) in bytes.iter_mut().enumerate() {
        *byte = (i % 251) as u8;
    }
    bytes
}

/// Whether so many calls failed, the last of them at this module.
fn has_failed(rig: &FileRig, faults: u64, dimm: u32) -> bool {
    rig.faults() == faults && rig.failed_dimm() == dimm
}

/// Whether a read into a place of so many bytes, at most 300, fails.
fn read_fails(rig: &mut FileRig, dimm: u32, at: u64, len: usize) -> bool {
    let mut place = [0; 300];
    match place.get_mut(..len) {
        Some(place) => rig.read(dimm, at, place) == Err(Failed),
        None => false,
    }
}

/// What a rig over files reads, in the folder where the test runs.
#[test]
fn file_areas(rt: HostRuntime) -> Result<(), Fail> {
    let bytes = long_area();
    fs::write(&rt, "dimm-00000101.lsa", bytes.as_slice())?;
    let mut rig = FileRig::new(rt, rt.alloc(), ".")?;
    let mut whole = [0; 300];
    assert_eq!(rt; read_whole(&mut rig, 0x101, &mut whole), Ok(true));
    assert_eq!(rt; whole, bytes);
    let mut part = [0; 60];
    assert_eq!(rt; rig.read(0x101, 240, &mut part), Ok(()));
    assert_eq!(rt; part.as_slice(), &bytes[240..]);
    assert_eq!(rt; rig.read(0x101, 300, &mut []), Ok(()));
    assert!(rt; has_failed(&rig, 0, 0));

    assert!(rt; read_fails(&mut rig, 0x101, 241, 60));
    assert!(rt; read_fails(&mut rig, 0x101, 301, 0));
    assert!(rt; read_fails(&mut rig, 0x101, u64::MAX, 60));
    assert!(rt; has_failed(&rig, 3, 0x101));
    assert_eq!(rt; rig.size(0x101), Ok(Some(300)));
    assert_eq!(rt; rig.say(b"said\n"), Ok(()));
    assert_eq!(rt; (rig.reads(), rig.say_faults()), (8, 0));
    fs::remove_file(&rt, "dimm-00000101.lsa")?;
    Ok(())
}

/// A folder where an area's file would stand is a fault, and where nothing stands there is no area.
#[test]
fn file_absent(rt: HostRuntime) -> Result<(), Fail> {
    fs::create_dir(&rt, "dimm-0000abcd.lsa")?;
    let mut rig = FileRig::new(rt, rt.alloc(), ".")?;
    assert_eq!(rt; rig.size(0xabcd), Err(Failed));
    assert!(rt; read_fails(&mut rig, 0xabcd, 0, 60));
    assert!(rt; has_failed(&rig, 2, 0xabcd));
    assert_eq!(rt; rig.size(0x2), Ok(None));
    assert!(rt; has_failed(&rig, 2, 0xabcd));
    assert!(rt; read_fails(&mut rig, 0x2, 0, 0));
    assert!(rt; has_failed(&rig, 3, 0x2));
    assert_eq!(rt; (rig.reads(), rig.say_faults()), (4, 0));
    assert_eq!(rt; fs::exists(&rt, "dimm-00000002.lsa")?, false);
    fs::remove_dir(&rt, "dimm-0000abcd.lsa")?;
    Ok(())
}

/// The writes of a rig over files, and what another rig reads afterwards.
#[test]
fn file_writes(rt: HostRuntime) -> Result<(), Fail> {
    let alloc = rt.alloc();
    fs::write(
        &rt,
        "dimm-00000102.lsa",
        [1, 2, 3, 4, 5, 6, 7, 8].as_slice(),
    )?;
    let mut rig = FileRig::new(rt, alloc, ".")?;
    assert_eq!(rt; write_two(&mut rig, 0x102, 0, &[11, 12], 2, &[13]), Ok(()));
    assert_eq!(rt; rig.write(0x102, 7, &[18]), Ok(()));
    assert_eq!(rt; rig.write(0x102, 8, &[]), Ok(()));
    assert!(rt; has_failed(&rig, 0, 0));
    assert_eq!(rt; rig.write(0x102, 7, &[19, 20]), Err(Failed));
    assert_eq!(rt; rig.write(0x102, 9, &[]), Err(Failed));
    assert_eq!(rt; rig.write(0x102, u64::MAX, &[21, 22]), Err(Failed));
    assert!(rt; has_failed(&rig, 3, 0x102));
    drop(rig);

    let mut rig = FileRig::new(rt, alloc, ".")?;
    let mut whole = [0; 8];
    assert_eq!(rt; read_whole(&mut rig, 0x102, &mut whole), Ok(true));
    assert_eq!(rt; whole, [11, 12, 13, 4, 5, 6, 7, 18]);
    fs::remove_file(&rt, "dimm-00000102.lsa")?;
    Ok(())
}

/// A file that is exchanged between two writes: both go to the file that was there first, and so do later reads.
#[test]
fn file_exchanged(rt: HostRuntime) -> Result<(), Fail> {
    let alloc = rt.alloc();
    fs::write(&rt, "dimm-00000103.lsa", [1, 2, 3, 4].as_slice())?;
    let mut rig = FileRig::new(rt, alloc, ".")?;
    assert_eq!(rt; rig.write(0x103, 0, &[11]), Ok(()));
    fs::rename(&rt, "dimm-00000103.lsa", "first.lsa")?;
    assert_eq!(rt; rig.size(0x103), Ok(Some(4)));
    fs::write(&rt, "dimm-00000103.lsa", [5, 6, 7, 8, 9].as_slice())?;
    assert_eq!(rt; rig.write(0x103, 3, &[14]), Ok(()));
    let mut whole = [0; 4];
    assert_eq!(rt; read_whole(&mut rig, 0x103, &mut whole), Ok(true));
    assert_eq!(rt; whole, [11, 2, 3, 14]);
    assert_eq!(rt;
        fs::read(&rt, "first.lsa")?.as_slice(),
        [11, 2, 3, 14].as_slice()
    );
    assert_eq!(rt;
        fs::read(&rt, "dimm-00000103.lsa")?.as_slice(),
        [5, 6, 7, 8, 9].as_slice()
    );
    // Another rig goes to the file that is there now.
    let mut rig = FileRig::new(rt, alloc, ".")?;
    assert_eq!(rt; rig.size(0x103), Ok(Some(5)));
    fs::remove_file(&rt, "first.lsa")?;
    fs::remove_file(&rt, "dimm-00000103.lsa")?;
    Ok(())
}

/// An area that comes after it was asked for is found, and one that was found stays.
#[test]
fn file_comes(rt: HostRuntime) -> Result<(), Fail> {
    let mut rig = FileRig::new(rt, rt.alloc(), ".")?;
    assert_eq!(rt; rig.size(0x104), Ok(None));
    fs::write(&rt, "dimm-00000104.lsa", [1, 2].as_slice())?;
    assert_eq!(rt; rig.size(0x104), Ok(Some(2)));
    fs::remove_file(&rt, "dimm-00000104.lsa")?;
    let mut whole = [0; 2];
    assert_eq!(rt; read_whole(&mut rig, 0x104, &mut whole), Ok(true));
    assert_eq!(rt; whole, [1, 2]);
    assert!(rt; has_failed(&rig, 0, 0));
    Ok(())
}

/// A file that can be read and not written is read, and one that can't be opened has its size. A superuser may do both
/// with either.
#[test]
fn file_permissions(rt: HostRuntime) -> Result<(), Fail> {
    let path = "dimm-00000105.lsa";
    fs::write(&rt, path, [1, 2].as_slice())?;
    fs::set_permissions(&rt, path, Permissions::from_mode(0o444))?;
    let is_super = OpenOptions::new().write(true).open(&rt, path).is_ok();
    let mut rig = FileRig::new(rt, rt.alloc(), ".")?;
    let mut whole = [0; 2];
    assert_eq!(rt; read_whole(&mut rig, 0x105, &mut whole), Ok(true));
    assert_eq!(rt; whole, [1, 2]);
    assert_eq!(rt; rig.write(0x105, 0, &[11]).is_ok(), is_super);
    fs::set_permissions(&rt, path, Permissions::from_mode(0o000))?;
    let mut rig = FileRig::new(rt, rt.alloc(), ".")?;
    assert_eq!(rt; rig.size(0x105), Ok(Some(2)));
    assert_eq!(rt; rig.read(0x105, 0, &mut whole).is_ok(), is_super);
    assert_eq!(rt; rig.write(0x105, 0, &[11]).is_ok(), is_super);
    fs::remove_file(&rt, path)?;
    Ok(())
}

/// More modules than files stay open: each is read and written.
#[test]
fn file_many(rt: HostRuntime) -> Result<(), Fail> {
    let alloc = rt.alloc();
    let mut rig = FileRig::new(rt, alloc, ".")?;
    for turn in 0..2u8 {
        for dimm in 0x200..0x242u32 {
            let path = format!(in alloc; "dimm-{dimm:08x}.lsa")?;
            if turn == 0 {
                fs::write(&rt, path.as_str(), [0; 3].as_slice())?;
            }
            assert_eq!(rt;
                rig.write(dimm, u64::from(turn), &[(dimm % 256) as u8]),
                Ok(())
            );
        }
    }
    for dimm in 0x200..0x242u32 {
        let mut whole = [0; 3];
        assert_eq!(rt; read_whole(&mut rig, dimm, &mut whole), Ok(true));
        let byte = (dimm % 256) as u8;
        assert_eq!(rt; whole, [byte, byte, 0]);
        let path = format!(in alloc; "dimm-{dimm:08x}.lsa")?;
        fs::remove_file(&rt, path.as_str())?;
    }
    assert!(rt; has_failed(&rig, 0, 0));
    Ok(())
}

/// Whether a read into a place of so many bytes, at most 8, gives these bytes, or fails where `want` is `None`.
fn gives<S: Source>(source: &mut S, len: usize, want: Option<&[u8]>) -> bool {
    let mut place = [0; 8];
    if len > place.len() {
        return false;
    }
    match (source.read(&mut place[..len]), want) {
        (Ok(count), Some(want)) => &place[..count] == want,
        (Err(Failed), None) => true,
        _ => false,
    }
}

/// A reader of which the second read is interrupted, and the fourth fails.
#[derive(Drop)]
struct Unsteady {
    left: Cursor<&'static [u8]>,
    reads: u64,
}

impl Read for Unsteady {
    fn read(&mut self, into: &mut [u8]) -> io::Result<usize> {
        self.reads = self.reads.saturating_add(1);
        match self.reads {
            2 => Err(ErrorKind::Interrupted.into()),
            4 => Err(ErrorKind::Other.into()),
            _ => self.left.read(into),
        }
    }
}

/// The reads of sources over readers of "abcdef", into places of 1, 3, 3, 0, 8 and 8 bytes.
#[test]
fn reader_reads(rt: HostRuntime) {
    let mut slice = StdSource::new(b"abcdef".as_slice());
    let mut unsteady = StdSource::new(Unsteady {
        left: Cursor::new(b"abcdef".as_slice()),
        reads: 0,
    });
    for (len, slice_gives, unsteady_gives) in [
        (1, "a", Some("a")),
        (3, "bcd", None),
        (3, "ef", Some("bcd")),
        (0, "", None),
        (8, "", Some("ef")),
        (8, "", Some("")),
    ] {
        assert!(rt; gives(&mut slice, len, Some(slice_gives.as_bytes())));
        let want = unsteady_gives.map(|text| text.as_bytes());
        assert!(rt; gives(&mut unsteady, len, want), "{want:?}");
    }
    assert_eq!(rt; (slice.faults(), unsteady.faults()), (0, 2));
}

/// The next read tries to open a file again, and one that is open stays so.
#[test]
fn file_reads(rt: HostRuntime) -> Result<(), Fail> {
    let mut source = FileSource::new(rt, rt.alloc(), "read.file")?;
    assert!(rt; gives(&mut source, 3, None));
    fs::write(&rt, "read.file", "abcdefg")?;
    assert!(rt; gives(&mut source, 0, Some(b"")));
    assert!(rt; gives(&mut source, 3, Some(b"abc")));
    fs::remove_file(&rt, "read.file")?;
    assert!(rt; gives(&mut source, 3, Some(b"def")));
    assert!(rt; gives(&mut source, 3, Some(b"g")));
    assert!(rt; gives(&mut source, 3, Some(b"")));
    assert_eq!(rt; source.faults(), 1);
    Ok(())
}
