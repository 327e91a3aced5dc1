//! The formats: index blocks, labels, names, lines, checksums and NFITs.

use crate::areas::label_text;
use crate::fault::Fault;
use crate::words::{bytes, number, short_number, text};
use crate::{bitmaps, blocks};
use cmd_words::read_line;
use fletcher64::{fletcher64, fletcher64_but};
use label_codec::{LABEL_LEN, name_text, read_label};
use nfit_tables::{ReadNfit, fits, read_nfit, write_nfit};
use std::alloc::Global;

/// Answers a line on a format.
pub(crate) fn answer(alloc: Global, name: &str, operands: &[&str]) -> Result<String, Fault> {
    match name {
        "geometry" => blocks::geometry(alloc, operands),
        "current" => blocks::current_place(alloc, operands),
        "next" => blocks::next(alloc, operands),
        "block" => blocks::kind(alloc, operands),
        "make-block" => blocks::make(alloc, operands),
        "bits" => bitmaps::bits(alloc, operands),
        "use" | "unuse" => bitmaps::with_slot(alloc, name, operands),
        "decode" => decode(alloc, operands),
        "name" => print_name(alloc, operands),
        "line" => line(alloc, operands),
        "sum" => sum(alloc, operands),
        "sum-but" => sum_but(alloc, operands),
        "table" => table(alloc, operands),
        _ => Err(Fault::Refused),
    }
}

/// `decode SLOT BYTES`: the label of 256 bytes at a slot, as it is written.
fn decode(alloc: Global, operands: &[&str]) -> Result<String, Fault> {
    let [slot, label] = operands else {
        return Err(Fault::Refused);
    };
    let label = bytes(alloc, label)?;
    if label.len() != LABEL_LEN {
        return Err(Fault::Refused);
    }
    Ok(match read_label(&label, short_number(slot)?) {
        Some(label) => format!(in alloc; "decode {}", label_text(alloc, &label)?)?,
        None => String::from_str(alloc, "decode none")?,
    })
}

/// `name BYTES`: a name as it is printed.
fn print_name(alloc: Global, operands: &[&str]) -> Result<String, Fault> {
    let [start] = operands else {
        return Err(Fault::Refused);
    };
    let mut name = [0; 64];
    for (place, byte) in name.iter_mut().zip(&bytes(alloc, start)?) {
        *place = *byte;
    }
    let printed = name_text(alloc, &name)?;
    Ok(format!(in alloc; "name {}", text(alloc, &printed)?)?)
}

/// `line BYTES`: what a line of commands is.
fn line(alloc: Global, operands: &[&str]) -> Result<String, Fault> {
    let [line] = operands else {
        return Err(Fault::Refused);
    };
    let line = bytes(alloc, line)?;
    let read = read_line(&line);
    Ok(format!(in alloc; "line {read:?}")?)
}

/// `sum BYTES`: the checksum of bytes.
fn sum(alloc: Global, operands: &[&str]) -> Result<String, Fault> {
    let [summed] = operands else {
        return Err(Fault::Refused);
    };
    let summed = bytes(alloc, summed)?;
    if summed.len() % 4 != 0 {
        return Err(Fault::Refused);
    }
    Ok(format!(in alloc; "sum {:x}", fletcher64(&summed))?)
}

/// `sum-but HOLE BYTES`: the checksum of bytes with eight of them as zeros.
fn sum_but(alloc: Global, operands: &[&str]) -> Result<String, Fault> {
    let [hole, summed] = operands else {
        return Err(Fault::Refused);
    };
    let (hole, summed) = (number(hole)?, bytes(alloc, summed)?);
    let len = summed.len() as u64;
    if len % 4 != 0 || hole % 4 != 0 || len < 8 || hole > len - 8 {
        return Err(Fault::Refused);
    }
    Ok(format!(in alloc; "sum-but {:x}", fletcher64_but(&summed, hole as usize))?)
}

/// `table BYTES`: whether bytes are an NFIT, and are written as the same bytes, or their first fault.
fn table(alloc: Global, operands: &[&str]) -> Result<String, Fault> {
    let [told] = operands else {
        return Err(Fault::Refused);
    };
    let told = bytes(alloc, told)?;
    let nfit = match read_nfit(alloc, &told) {
        Ok(nfit) => nfit,
        Err(ReadNfit::Fault(fault)) => return Ok(format!(in alloc; "table {fault:?}")?),
        Err(ReadNfit::Memory) => return Err(Fault::Memory),
    };
    if !fits(&nfit) {
        return Err(Fault::Refused);
    }
    let written = write_nfit(alloc, &nfit)?;
    let same = written.as_slice() == told.as_slice();
    Ok(String::from_str(alloc, if same { "table same" } else { "table other" })?)
}
