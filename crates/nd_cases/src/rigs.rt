//! Calls of a rig in memory, and of a source in memory.

use crate::fault::Fault;
use crate::setting::Setting;
use crate::words::{bytes, number, short_number, text};
use rig_trait::{Failed, Rig, Source};
use std::alloc::Global;

impl Setting {
    /// Answers a line on calls of the rig or of a source. `None` where it is another one.
    pub(crate) fn call_rig(
        &mut self,
        name: &str,
        operands: &[&str],
    ) -> Result<Option<String>, Fault> {
        Ok(Some(match name {
            "size" => self.size(operands)?,
            "read" => self.read(operands)?,
            "write" => self.write(operands)?,
            "say" => self.say(operands)?,
            "counts" => self.counts()?,
            "source" => self.read_source(operands)?,
            _ => return Ok(None),
        }))
    }

    fn size(&mut self, operands: &[&str]) -> Result<String, Fault> {
        let [dimm] = operands else {
            return Err(Fault::Refused);
        };
        let alloc = self.alloc;
        Ok(match self.rig.size(short_number(dimm)?) {
            Ok(Some(size)) => format!(in alloc; "size {size:x}")?,
            Ok(None) => String::from_str(alloc, "size none")?,
            Err(Failed) => String::from_str(alloc, "size failed")?,
        })
    }

    fn read(&mut self, operands: &[&str]) -> Result<String, Fault> {
        let [dimm, at, len] = operands else {
            return Err(Fault::Refused);
        };
        let alloc = self.alloc;
        let (dimm, at, len) = (short_number(dimm)?, number(at)?, number(len)?);
        match self.rig.area(dimm) {
            Some(area) if at <= area.len() as u64 && len <= area.len() as u64 - at => {}
            _ => return Err(Fault::Refused),
        }
        let mut place = vec![in alloc; 0; len as usize]?;
        match self.rig.read(dimm, at, &mut place) {
            Ok(()) => Ok(format!(in alloc; "read {}", text(alloc, &place)?)?),
            Err(Failed) => Ok(String::from_str(alloc, "read failed")?),
        }
    }

    fn write(&mut self, operands: &[&str]) -> Result<String, Fault> {
        let [dimm, at, new] = operands else {
            return Err(Fault::Refused);
        };
        let alloc = self.alloc;
        let (dimm, at, new) = (short_number(dimm)?, number(at)?, bytes(alloc, new)?);
        match self.rig.area(dimm) {
            Some(area) if at <= area.len() as u64 && new.len() as u64 <= area.len() as u64 - at =>
                {}
            _ => return Err(Fault::Refused),
        }
        let written = self.rig.write(dimm, at, &new).is_ok();
        Ok(String::from_str(alloc, if written { "write ok" } else { "write failed" })?)
    }

    fn say(&mut self, operands: &[&str]) -> Result<String, Fault> {
        let [new] = operands else {
            return Err(Fault::Refused);
        };
        let alloc = self.alloc;
        let new = bytes(alloc, new)?;
        let said = self.rig.say(&new).is_ok();
        Ok(String::from_str(alloc, if said { "say ok" } else { "say failed" })?)
    }

    /// `counts`: the counts of the rig, and all that was said.
    fn counts(&self) -> Result<String, Fault> {
        let (alloc, rig) = (self.alloc, &self.rig);
        let said = text(alloc, rig.said())?;
        let (reads, faults, say_faults) = (rig.reads(), rig.faults(), rig.say_faults());
        let (failed, calls) = (rig.failed_dimm(), rig.calls());
        Ok(format!(in alloc;
            "counts {reads:x} {faults:x} {say_faults:x} {failed:x} {calls:x} {said}"
        )?)
    }

    /// `source LEN ...`: what reads into places of so many bytes give of the input, and how many failed.
    fn read_source(&self, operands: &[&str]) -> Result<String, Fault> {
        let alloc = self.alloc;
        let mut source = self.input()?;
        let mut answer = String::from_str(alloc, "source")?;
        for len in operands {
            let read = read_some(alloc, &mut source, number(len)?)?;
            answer.push_str(" ")?;
            answer.push_str(&read)?;
        }
        let faults = source.faults();
        Ok(format!(in alloc; "{answer} {faults:x}")?)
    }
}

/// The bytes that a read into a place of so many bytes gives, or `failed`.
fn read_some<S: Source>(alloc: Global, source: &mut S, len: u64) -> Result<String, Fault> {
    let mut place = vec![in alloc; 0; len as usize]?;
    match source.read(&mut place) {
        Ok(count) => Ok(text(alloc, &place[..count])?),
        Err(Failed) => Ok(String::from_str(alloc, "failed")?),
    }
}
