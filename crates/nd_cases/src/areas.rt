//! Calls of a label storage area.

ghost use Rattle.std.specs.Prelude.{◌≡◌, IfSome, IsSome, IsTrue};
ghost use Rattle.std.specs.FinMap.{get};
ghost use Rattle.label_area.specs.Flips.{IsSized};

use crate::fault::Fault;
use crate::setting::Setting;
use crate::words::{bytes, number, short_number, text};
use index_block::Place;
use label_area::{Area, AreaFault, InitFault};
use label_codec::{LABEL_LEN, Label, read_label, write_label};
use rig_trait::{Failed, MemoryRig};
use std::alloc::{AllocError, Global};

impl Setting {
    /// Answers a line on calls of an area. `None` where it is another one.
    pub(crate) fn call_area(
        &mut self,
        name: &str,
        operands: &[&str],
    ) -> Result<Option<String>, Fault> {
        Ok(Some(match name {
            "load" => self.load(operands)?,
            "shows" => shows(self.alloc, self.loaded()?)?,
            "label" => self.label(operands)?,
            "put" => self.put(operands)?,
            "free" => self.free(operands)?,
            "init" => self.init(operands)?,
            "vacant" => self.vacant(operands)?,
            _ => return Ok(None),
        }))
    }

    /// The area that was loaded last.
    fn loaded(&self) -> Result<&Area, Fault> {
        self.area.as_ref().ok_or(Fault::Refused)
    }

    fn load(&mut self, operands: &[&str]) -> Result<String, Fault> {
        let [dimm] = operands else {
            return Err(Fault::Refused);
        };
        match Area::load(self.alloc, &mut self.rig, short_number(dimm)?) {
            Ok(area) => {
                let shown = shows(self.alloc, &area)?;
                self.area = Some(area);
                Ok(shown)
            }
            Err(fault) => load_fault(self.alloc, fault),
        }
    }

    fn label(&self, operands: &[&str]) -> Result<String, Fault> {
        let [slot] = operands else {
            return Err(Fault::Refused);
        };
        let alloc = self.alloc;
        match self.loaded()?.label(short_number(slot)?) {
            Some(label) => Ok(format!(in alloc; "label {}", label_text(alloc, label)?)?),
            None => Ok(String::from_str(alloc, "label none")?),
        }
    }

    /// `put BYTES [SLOT]`: the label is put, in the place of that of a slot where one is given.
    fn put(&mut self, operands: &[&str]) -> Result<String, Fault> {
        let alloc = self.alloc;
        let (label, replaces) = match operands {
            [label] => (label, None),
            [label, slot] => (label, Some(short_number(slot)?)),
            _ => return Err(Fault::Refused),
        };
        let label = own_label(&bytes(alloc, label)?)?;
        let area = self.area.as_mut().ok_or(Fault::Refused)?;
        if !is_sized(&self.rig, area) || area.free_count() == 0 || !is_live(area, replaces) {
            return Err(Fault::Refused);
        }
        match area.put(&mut self.rig, &label, replaces) {
            Ok(slot) => Ok(format!(in alloc; "put {slot:x}")?),
            Err(Failed) => Ok(String::from_str(alloc, "put failed")?),
        }
    }

    /// `free SLOT ...`: the slots, which are in use, are freed.
    fn free(&mut self, operands: &[&str]) -> Result<String, Fault> {
        let alloc = self.alloc;
        let mut slots = Vec::new(alloc);
        for operand in operands {
            slots.push(short_number(operand)?)?;
        }
        let area = self.area.as_mut().ok_or(Fault::Refused)?;
        if !is_sized(&self.rig, area) || !slots.iter().all(|slot| area.is_used(*slot)) {
            return Err(Fault::Refused);
        }
        let freed = area.free(&mut self.rig, &slots).is_ok();
        Ok(String::from_str(alloc, if freed { "free ok" } else { "free failed" })?)
    }

    fn init(&mut self, operands: &[&str]) -> Result<String, Fault> {
        let [dimm] = operands else {
            return Err(Fault::Refused);
        };
        let alloc = self.alloc;
        Ok(match Area::init(&mut self.rig, short_number(dimm)?) {
            Ok(slots) => format!(in alloc; "init {slots:x}")?,
            Err(fault) => format!(in alloc; "init {}", init_fault(fault))?,
        })
    }

    /// `vacant DIMM SIZE`: what is kept of an area that was initialised, without reading it.
    fn vacant(&self, operands: &[&str]) -> Result<String, Fault> {
        let [dimm, size] = operands else {
            return Err(Fault::Refused);
        };
        match Area::vacant(self.alloc, short_number(dimm)?, number(size)?)? {
            Some(area) => shows(self.alloc, &area),
            None => Ok(String::from_str(self.alloc, "load none")?),
        }
    }
}

/// Whether the area has the same size in the rig.
fn is_sized(rig: &MemoryRig, area: &Area) -> bool
    ensures { IsTrue result → IsSized area.now rig.now.areas }
{
    match rig.area(area.dimm()) {
        Some(bytes) => bytes.len() as u64 == area.size(),
        None => false,
    }
}

/// Whether the slot of a label to replace has one.
fn is_live(area: &Area, replaces: Option<u32>) -> bool
    ensures { IsTrue result → IfSome replaces (λ slot. IsSome (get area.now.live slot)) }
{
    match replaces {
        None => true,
        Some(slot) => area.label(slot).is_some(),
    }
}

/// The label of 256 bytes, by the slot that it tells.
fn own_label(bytes: &[u8]) -> Result<Label, Fault> {
    if bytes.len() != LABEL_LEN {
        return Err(Fault::Refused);
    }
    let slot = u32::from_le_bytes([bytes[120], bytes[121], bytes[122], bytes[123]]);
    read_label(bytes, slot).ok_or(Fault::Refused)
}

/// The bytes of a label as a word.
pub(crate) fn label_text(alloc: Global, label: &Label) -> Result<String, AllocError> {
    let mut bytes = [0; LABEL_LEN];
    write_label(label, &mut bytes);
    text(alloc, &bytes)
}

/// What an area shows.
fn shows(alloc: Global, area: &Area) -> Result<String, Fault> {
    let geometry = area.geometry();
    let (size, slots, block, seq) = (area.size(), area.slots(), geometry.block, area.seq());
    let place = place_digit(area.place());
    let free = area.free_count();
    let mut used = String::new(alloc);
    for slot in 0..slots {
        used.push(if area.is_used(slot) { '1' } else { '0' })?;
    }
    let mut live = String::new(alloc);
    for slot in 0..slots {
        live.push(if area.label(slot).is_some() { '1' } else { '0' })?;
    }
    Ok(format!(in alloc;
        "load {size:x} {slots:x} {block:x} {seq:x} {place} {free:x} {used} {live}"
    )?)
}

/// The number of a place of index blocks.
pub(crate) fn place_digit(place: Place) -> u32 {
    match place {
        Place::First => 0,
        Place::Second => 1,
    }
}

fn load_fault(alloc: Global, fault: AreaFault) -> Result<String, Fault> {
    Ok(match fault {
        AreaFault::Missing => String::from_str(alloc, "load missing")?,
        AreaFault::WrongSize { size } => format!(in alloc; "load wrong-size {size:x}")?,
        AreaFault::Uninit { size } => format!(in alloc; "load uninit {size:x}")?,
        AreaFault::Foreign { size } => format!(in alloc; "load foreign {size:x}")?,
        AreaFault::Failed => String::from_str(alloc, "load failed")?,
        AreaFault::Memory => return Err(Fault::Memory),
    })
}

fn init_fault(fault: InitFault) -> &'static str {
    match fault {
        InitFault::Missing => "missing",
        InitFault::WrongSize => "wrong-size",
        InitFault::Foreign => "foreign",
        InitFault::AlreadyReady => "already-ready",
        InitFault::Failed => "failed",
    }
}
