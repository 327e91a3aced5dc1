//! Runs of the program, and the rigs that stops within their calls leave.

use crate::fault::Fault;
use crate::setting::Setting;
use crate::words::{bytes, number, short_number, text};
use nd_top::{dir, nd_top};
use rig_trait::{Kept, MemoryRig, Rig, Source};
use std::alloc::Global;
use std::mem;

impl Setting {
    /// Answers a line on runs and stops. `None` where it is another one.
    pub(crate) fn run(&mut self, name: &str, operands: &[&str]) -> Result<Option<String>, Fault> {
        Ok(Some(match name {
            "nd" => self.run_words(operands)?,
            "dir" => self.folder(operands)?,
            "dump" => self.dump(operands)?,
            "kept" => self.kept(operands)?,
            "stop" => self.stop(operands)?,
            "back" => self.go_back()?,
            _ => return Ok(None),
        }))
    }

    /// `nd WORD ...`: a run of the program with these words.
    fn run_words(&mut self, operands: &[&str]) -> Result<String, Fault> {
        let alloc = self.alloc;
        let words = words_of(alloc, operands)?;
        let mut nfit = self.nfit()?;
        let mut input = self.input()?;
        let before = self.rig.said().len();
        let seed = u128::from(self.seed);
        let status = nd_top(alloc, &words, &mut self.rig, &mut nfit, &mut input, seed);
        let rig = &self.rig;
        let said = text(alloc, rig.said().get(before..).unwrap_or(&[]))?;
        let (reads, faults, say_faults) = (rig.reads(), rig.faults(), rig.say_faults());
        let (failed, calls) = (rig.failed_dimm(), rig.calls());
        let (nfit, input) = (nfit.faults(), input.faults());
        Ok(format!(in alloc;
            "nd {status:x} {said} {reads:x} {faults:x} {say_faults:x} {failed:x} {calls:x} {nfit:x} {input:x}"
        )?)
    }

    /// `dir WORD ...`: the folder that these words name.
    fn folder(&self, operands: &[&str]) -> Result<String, Fault> {
        let alloc = self.alloc;
        let words = words_of(alloc, operands)?;
        Ok(format!(in alloc; "dir {}", text(alloc, dir(&words).as_bytes())?)?)
    }

    /// `dump DIMM`: the bytes of an area.
    fn dump(&self, operands: &[&str]) -> Result<String, Fault> {
        let [dimm] = operands else {
            return Err(Fault::Refused);
        };
        let alloc = self.alloc;
        match self.rig.area(short_number(dimm)?) {
            Some(area) => Ok(format!(in alloc; "dump {}", text(alloc, area)?)?),
            None => Ok(String::from_str(alloc, "dump none")?),
        }
    }

    /// The rig that keeps its calls, or else the only one.
    fn keeping(&self) -> &MemoryRig {
        self.whole.as_ref().unwrap_or(&self.rig)
    }

    /// `kept CALL`: what is kept of a call.
    fn kept(&self, operands: &[&str]) -> Result<String, Fault> {
        let [call] = operands else {
            return Err(Fault::Refused);
        };
        let alloc = self.alloc;
        match self.keeping().kept(number(call)?) {
            Some(Kept::Write { dimm, at, old, new }) => {
                let (old, new) = (text(alloc, old)?, text(alloc, new)?);
                Ok(format!(in alloc; "write {dimm:x} {at:x} {old} {new}")?)
            }
            Some(Kept::Say { bytes }) => {
                let bytes = text(alloc, bytes)?;
                Ok(format!(in alloc; "say {bytes}")?)
            }
            None => Ok(String::from_str(alloc, "none")?),
        }
    }

    /// `stop CALL BYTES`: the rig where a kept call was stopped with these bytes written or said takes the place of the
    /// one that keeps it.
    fn stop(&mut self, operands: &[&str]) -> Result<String, Fault> {
        let [call, torn] = operands else {
            return Err(Fault::Refused);
        };
        let alloc = self.alloc;
        let torn = bytes(alloc, torn)?;
        match self.keeping().crash(alloc, number(call)?, &torn)? {
            Some(left) => {
                let before = mem::replace(&mut self.rig, left);
                if self.whole.is_none() {
                    self.whole = Some(before);
                }
                Ok(String::from_str(alloc, "stopped")?)
            }
            None => Ok(String::from_str(alloc, "none")?),
        }
    }

    /// `back`: the rig that keeps its calls has its place again.
    fn go_back(&mut self) -> Result<String, Fault> {
        if let Some(whole) = self.whole.take() {
            self.rig = whole;
        }
        Ok(String::from_str(self.alloc, "ok")?)
    }
}

/// The words of a command line.
fn words_of(alloc: Global, operands: &[&str]) -> Result<Vec<String>, Fault> {
    let mut words = Vec::new(alloc);
    for operand in operands {
        let word = String::from_utf8(bytes(alloc, operand)?).map_err(|_| Fault::Refused)?;
        words.push(word)?;
    }
    Ok(words)
}
