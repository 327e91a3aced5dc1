//! Index blocks: their layout, sequence numbers and bytes.

ghost use Rattle.std.specs.Prelude.{◌≡◌, IfOk};
ghost use Rattle.index_block.specs.Geometry.{IsGeometry};
ghost use Rattle.index_block.specs.Current.{IsSeq};

use crate::areas::place_digit;
use crate::fault::Fault;
use crate::words::{bytes, number, short_number, text};
use index_block::{
    BlockKind, Geometry, Place, WINDOW_BYTES, current, next_seq, read_block, write_block,
};
use std::alloc::Global;

/// `geometry SIZE LABEL`: the size of an index block, and the number of slots.
pub(crate) fn geometry(alloc: Global, operands: &[&str]) -> Result<String, Fault> {
    let [size, label] = operands else {
        return Err(Fault::Refused);
    };
    Ok(match Geometry::of(number(size)?, short_number(label)?) {
        Some(found) => format!(in alloc; "geometry {:x} {:x}", found.block, found.slots)?,
        None => String::from_str(alloc, "geometry none")?,
    })
}

/// `current FIRST SECOND`: the current one of two blocks with these sequence numbers, of which 0 is that of none.
pub(crate) fn current_place(alloc: Global, operands: &[&str]) -> Result<String, Fault> {
    let [first, second] = operands else {
        return Err(Fault::Refused);
    };
    let (first, second) = (short_number(first)?, short_number(second)?);
    if first > 3 || second > 3 {
        return Err(Fault::Refused);
    }
    let first = if first == 0 { None } else { Some(first) };
    let second = if second == 0 { None } else { Some(second) };
    Ok(match current(first, second) {
        Some(place) => format!(in alloc; "current {}", place_digit(place))?,
        None => String::from_str(alloc, "current none")?,
    })
}

/// `next SEQ`: the sequence number that follows.
pub(crate) fn next(alloc: Global, operands: &[&str]) -> Result<String, Fault> {
    let [seq] = operands else {
        return Err(Fault::Refused);
    };
    let seq = sequence_number(seq)?;
    Ok(format!(in alloc; "next {:x}", next_seq(seq))?)
}

fn sequence_number(word: &str) -> Result<u32, Fault>
    ensures { IfOk result IsSeq }
{
    let seq = short_number(word)?;
    if seq < 1 || seq > 3 {
        return Err(Fault::Refused);
    }
    Ok(seq)
}

fn place_of(word: &str) -> Result<Place, Fault> {
    match word {
        "0" => Ok(Place::First),
        "1" => Ok(Place::Second),
        _ => Err(Fault::Refused),
    }
}

fn geometry_of(size: &str, label: &str) -> Result<Geometry, Fault>
    ensures { IfOk result IsGeometry }
{
    match Geometry::of(number(size)?, short_number(label)?) {
        Some(geometry) => Ok(geometry),
        None => Err(Fault::Refused),
    }
}

/// `block PLACE SIZE LABEL BYTES`: the kind of an index block.
pub(crate) fn kind(alloc: Global, operands: &[&str]) -> Result<String, Fault> {
    let [place, size, label, window] = operands else {
        return Err(Fault::Refused);
    };
    let place = place_of(place)?;
    let geometry = geometry_of(size, label)?;
    let window = bytes(alloc, window)?;
    if window.len() > WINDOW_BYTES || window.len() < geometry.block as usize {
        return Err(Fault::Refused);
    }
    Ok(match read_block(&window, place, &geometry) {
        BlockKind::Unsigned => String::from_str(alloc, "block unsigned")?,
        BlockKind::Foreign => String::from_str(alloc, "block foreign")?,
        BlockKind::Usable { seq } => format!(in alloc; "block usable {seq:x}")?,
    })
}

/// `make-block PLACE SEQ SIZE LABEL FREE`: an index block over bytes that are all 0xff.
pub(crate) fn make(alloc: Global, operands: &[&str]) -> Result<String, Fault> {
    let [place, seq, size, label, free] = operands else {
        return Err(Fault::Refused);
    };
    let place = place_of(place)?;
    let seq = sequence_number(seq)?;
    let geometry = geometry_of(size, label)?;
    let free = bytes(alloc, free)?;
    if free.len() > WINDOW_BYTES || 8 * free.len() < geometry.slots as usize {
        return Err(Fault::Refused);
    }
    let mut block = vec![in alloc; 0xff; geometry.block as usize]?;
    write_block(&mut block, place, seq, &geometry, &free);
    Ok(format!(in alloc; "make-block {}", text(alloc, &block)?)?)
}
