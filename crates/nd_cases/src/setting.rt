//! What the lines of a case are asked of: a rig in memory, what the sources give, and the area that was loaded last.

ghost use Rattle.std.specs.Prelude.{◌≡◌, IfOk, None};

use crate::fault::Fault;
use crate::words::{bytes, number, numbers, short_number};
use label_area::Area;
use rig_trait::{MemoryRig, MemorySource};
use std::alloc::{AllocError, Global};

/// How many bytes can be said where a case gives no other number.
const ROOM: u64 = 0x1_0000;

/// What the lines of a case are asked of.
#[derive(Drop)]
pub(crate) struct Setting {
    pub alloc: Global,
    pub rig: MemoryRig,
    /// The rig that keeps its calls, while one where a call of it was stopped stands in its place.
    pub whole: Option<MemoryRig>,
    room: u64,
    /// The handles of the areas that were put.
    handles: Vec<u32>,
    nfit: Given,
    input: Given,
    /// The seed of the runs.
    pub seed: u64,
    /// The area that was loaded last.
    pub area: Option<Area>,
}

/// What a source gives, and the numbers of the reads that fail.
#[derive(Drop)]
struct Given {
    bytes: Vec<u8>,
    failing: Vec<u64>,
}

impl Given {
    fn nothing(alloc: Global) -> Given {
        Given {
            bytes: Vec::new(alloc),
            failing: Vec::new(alloc),
        }
    }

    /// A source of its own, from the first byte on.
    fn source(&self) -> Result<MemorySource, AllocError> {
        Ok(MemorySource::new(self.bytes.clone()?, self.failing.clone()?))
    }
}

impl Setting {
    /// The setting in which each case begins.
    pub(crate) fn new(alloc: Global) -> Result<Setting, AllocError> {
        Ok(Setting {
            alloc,
            rig: MemoryRig::new(alloc, ROOM)?,
            whole: None,
            room: ROOM,
            handles: Vec::new(alloc),
            nfit: Given::nothing(alloc),
            input: Given::nothing(alloc),
            seed: 1,
            area: None,
        })
    }

    pub(crate) fn nfit(&self) -> Result<MemorySource, AllocError> {
        self.nfit.source()
    }

    pub(crate) fn input(&self) -> Result<MemorySource, AllocError> {
        self.input.source()
    }

    /// Sets what a line sets. `None` where it sets nothing.
    pub(crate) fn set(&mut self, name: &str, operands: &[&str]) -> Result<Option<String>, Fault> {
        let alloc = self.alloc;
        match name {
            "case" => {
                *self = Setting::new(alloc)?;
                let name = operands.join(alloc, " ")?;
                return Ok(Some(format!(in alloc; "case {name}")?));
            }
            "room" => self.set_room(operands)?,
            "area" => self.put_area(operands)?,
            "no-area" => self.take_area(operands)?,
            "nfit" => self.nfit.bytes = one(alloc, operands)?,
            "input" => self.input.bytes = one(alloc, operands)?,
            "fail-rig" => self.rig.fail_at(numbers(alloc, operands)?),
            "fail-nfit" => self.nfit.failing = numbers(alloc, operands)?,
            "fail-input" => self.input.failing = numbers(alloc, operands)?,
            "seed" => self.set_seed(operands)?,
            "keep" => self.keep(operands)?,
            _ => return Ok(None),
        }
        Ok(Some(String::from_str(alloc, "ok")?))
    }

    /// `room N`: a rig without areas, in which so many bytes can be said.
    fn set_room(&mut self, operands: &[&str]) -> Result<(), Fault> {
        let [room] = operands else {
            return Err(Fault::Refused);
        };
        self.room = number(room)?;
        self.handles.clear();
        self.rig = MemoryRig::new(self.alloc, self.room)?;
        self.whole = None;
        Ok(())
    }

    /// `area DIMM SIZE [AT:BYTES ...]`: an area of zeros with bytes over them, in a new rig with the other areas.
    fn put_area(&mut self, operands: &[&str]) -> Result<(), Fault> {
        let [dimm, size, parts @ ..] = operands else {
            return Err(Fault::Refused);
        };
        let dimm = short_number(dimm)?;
        let area = area_of(self.alloc, number(size)?, parts)?;
        let mut rig = self.without(dimm)?;
        rig.add(dimm, area)?;
        self.rig = rig;
        self.whole = None;
        self.handles.push(dimm)?;
        Ok(())
    }

    /// `no-area DIMM`: a new rig with the other areas as they stand.
    fn take_area(&mut self, operands: &[&str]) -> Result<(), Fault> {
        let [dimm] = operands else {
            return Err(Fault::Refused);
        };
        self.rig = self.without(short_number(dimm)?)?;
        self.whole = None;
        Ok(())
    }

    /// A rig with all areas as they stand but one, of which nothing was asked.
    fn without(&self, dimm: u32) -> Result<MemoryRig, AllocError>
        ensures { IfOk result (λ rig. rig.keeping ≡ None) }
    {
        let mut rig = MemoryRig::new(self.alloc, self.room)?;
        for handle in &self.handles {
            if *handle != dimm
                && let Some(area) = self.rig.area(*handle)
            {
                rig.add(*handle, area.to_vec(self.alloc)?)?;
            }
        }
        Ok(rig)
    }

    fn set_seed(&mut self, operands: &[&str]) -> Result<(), Fault> {
        let [seed] = operands else {
            return Err(Fault::Refused);
        };
        self.seed = number(seed)?;
        Ok(())
    }

    /// `keep CALLS BYTES`: the calls from here on are kept, so many and of so many bytes at most.
    fn keep(&mut self, operands: &[&str]) -> Result<(), Fault> {
        let [calls, bytes] = operands else {
            return Err(Fault::Refused);
        };
        self.rig.keep_calls(number(calls)?, number(bytes)?)?;
        Ok(())
    }
}

/// The bytes of the only operand.
fn one(alloc: Global, operands: &[&str]) -> Result<Vec<u8>, Fault> {
    match operands {
        [word] => bytes(alloc, word),
        _ => Err(Fault::Refused),
    }
}

/// An area of so many zeros, with the bytes of the parts over them, each at its offset. What is past the end is left
/// out.
fn area_of(alloc: Global, size: u64, parts: &[&str]) -> Result<Vec<u8>, Fault> {
    let size = usize::try_from(size).map_err(|_| Fault::Refused)?;
    let mut area = vec![in alloc; 0; size]?;
    for part in parts {
        let (at, text) = part.split_once(':').ok_or(Fault::Refused)?;
        put_part(&mut area, number(at)?, &bytes(alloc, text)?);
    }
    Ok(area)
}

fn put_part(area: &mut [u8], at: u64, part: &[u8]) {
    for (place, byte) in area.iter_mut().skip(at as usize).zip(part) {
        *place = *byte;
    }
}
