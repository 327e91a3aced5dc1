//! The listing of an area: its live labels, and how many there are.

ghost use Rattle.std.specs.Prelude.{◌≡◌, IfOk};
ghost use Rattle.report_json.specs.Listing.{label_line, last_line, loaded_listing, place_number};

use crate::buffer::ShortText;
use index_block::Place;
use label_area::Area;
use label_codec::Label;
use std::alloc::{AllocError, Global};

/// A line for each live label, in the order of their slots, and a last line.
pub fn listing(alloc: Global, area: &Area) -> Result<Vec<u8>, AllocError>
    ensures { IfOk result (λ text. text.items ≡ loaded_listing area.now) }
{
    let mut text = Vec::new(alloc);
    let mut count = 0;
    for slot in 0..area.slots() {
        if let Some(label) = area.label(slot) {
            text.extend_from_slice(label_line(label).as_bytes())?;
            count += 1;
        }
    }
    text.extend_from_slice(last_line(count, area).as_bytes())?;
    Ok(text)
}

/// The line of a live label.
fn label_line(label: &Label) -> ShortText
    ensures { result ≡ label_line label.now }
{
    let mut text = ShortText::new();
    text.push_decimal("  slot=", u64::from(label.slot));
    text.push_uuid(" uuid=", &label.uuid);
    text.push_name(" name=", &label.name);
    text.push_handle(" flags=", label.flags);
    text.push_decimal(" nlabel=", u64::from(label.nlabel));
    text.push_decimal(" position=", u64::from(label.position));
    text.push_address(" cookie=", label.cookie);
    text.push_address(" dpa=", label.dpa);
    text.push_decimal(" size=", label.raw_size);
    text.push_str("\n");
    text
}

/// The last line, which tells how many labels there are.
fn last_line(count: usize, area: &Area) -> ShortText
    ensures { result ≡ last_line count (record {
      geometry = area.now.geometry;
      place = area.now.place;
      seq = area.now.seq;
    }) }
{
    let mut text = ShortText::new();
    text.push_decimal("ok labels=", count as u64);
    text.push_decimal(" slots=", u64::from(area.slots()));
    text.push_decimal(" seq=", u64::from(area.seq()));
    text.push_decimal(" place=", number(area.place()));
    text.push_str("\n");
    text
}

/// How a place is shown.
fn number(place: Place) -> u64
    ensures { result ≡ place_number place }
{
    match place {
        Place::First => 0,
        Place::Second => 1,
    }
}
