//! The texts of replies.

ghost use Rattle.std.specs.Prelude.{◌≡◌, ◌≤◌, ◌++◌, true, codes, drop, length, IfOk, Some, None, if◌then◌else◌};
ghost use Rattle.std.specs.Fmt.{decimal};
ghost use Rattle.std.specs.List.{flat_map};
ghost use Rattle.report_json.specs.Texts.{free_end, held_end, initialised_line, module_line, spa_line};
ghost use Rattle.report_json.specs.Texts.{created_line, destroyed_line, released_line, renamed_line};
ghost use Rattle.report_json.specs.Texts.{is_one_line, reply_text};

use crate::buffer::ShortText;
use crate::lines::Line;
use crate::refusals::refusal_line;
use std::alloc::{AllocError, Global};
use view_types::Reply;

/// The text of a reply: for a list a line for each item, and then a line with their number. Each line ends with a
/// line feed.
pub fn reply_text(alloc: Global, reply: &Reply) -> Result<Vec<u8>, AllocError>
    ensures { IfOk result (λ text. text.items ≡ reply_text reply.now) }
{
    match reply {
        Reply::Namespaces(listed) => {
            let last = counted("ok namespaces=", listed.len());
            lines(alloc, listed.as_slice(), &last)
        }
        Reply::Regions(regions) => {
            let last = counted("ok regions=", regions.len());
            lines(alloc, regions.as_slice(), &last)
        }
        Reply::Free { extents, largest } => {
            let last = free_end(extents.len(), *largest);
            lines(alloc, extents.as_slice(), &last)
        }
        Reply::HeldList { held, spare } => {
            let last = held_end(held.len(), *spare);
            lines(alloc, held.as_slice(), &last)
        }
        Reply::Runs(runs) => {
            let last = counted("ok runs=", runs.len());
            lines(alloc, runs.as_slice(), &last)
        }
        Reply::Initialised { .. }
        | Reply::Created { .. }
        | Reply::Destroyed { .. }
        | Reply::Renamed { .. }
        | Reply::Released { .. }
        | Reply::Module { .. }
        | Reply::Spa { .. }
        | Reply::Refused(_) => Vec::from_slice(alloc, one_line(reply).as_bytes()),
    }
}

/// Puts the text of a reply that is no list at the front of `into`, and gives its length. It takes no memory.
pub fn short_text(reply: &Reply, into: &mut [u8]) -> usize
    requires one_line { is_one_line reply.now ≡ true }
    requires room { 512 ≤ length into.old }
    ensures text { into.new ≡ reply_text reply.now ++ drop (length (reply_text reply.now)) into.old }
    ensures long { result ≡ length (reply_text reply.now) }
    ensures fits { result ≤ 512 }
{
    let text = one_line(reply);
    let bytes = text.as_bytes();
    into[..bytes.len()].copy_from_slice(bytes);
    bytes.len()
}

/// The line of a reply that is no list.
fn one_line(reply: &Reply) -> ShortText
    requires { is_one_line reply.now ≡ true }
    ensures { result ≡ reply_text reply.now }
{
    line_of(reply).unwrap()
}

/// The line of a reply that is no list, and `None` exactly where it is one. It takes no memory.
pub fn line_of(reply: &Reply) -> Option<ShortText>
    ensures { result ≡ (if is_one_line reply.now then Some (reply_text reply.now) else None) }
{
    match reply {
        Reply::Initialised { dimm, slots } => Some(initialised_line(*dimm, *slots)),
        Reply::Created {
            uuid,
            region,
            offset,
            length,
            size,
            spare,
        } => Some(created_line(uuid, *region, *offset, *length, *size, *spare)),
        Reply::Destroyed { uuid } => Some(destroyed_line(uuid)),
        Reply::Renamed { uuid, name } => Some(renamed_line(uuid, name)),
        Reply::Released { count } => Some(released_line(*count)),
        Reply::Module { dimm, dpa } => Some(module_line(*dimm, *dpa)),
        Reply::Spa { spa } => Some(spa_line(*spa)),
        Reply::Refused(refusal) => Some(refusal_line(*refusal)),
        Reply::Namespaces(_)
        | Reply::Regions(_)
        | Reply::Free { .. }
        | Reply::HeldList { .. }
        | Reply::Runs(_) => None,
    }
}

/// The reply of an area that was initialised.
pub fn initialised_line(dimm: u32, slots: u32) -> ShortText
    ensures { result ≡ initialised_line dimm slots }
{
    let mut text = ShortText::new();
    text.push_handle("ok initialised dimm=", dimm);
    text.push_decimal(" slots=", u64::from(slots));
    text.push_str("\n");
    text
}

fn created_line(
    uuid: &[u8; 16],
    region: u16,
    offset: u64,
    length: u64,
    size: u64,
    spare: u32,
) -> ShortText
    ensures { result ≡ created_line uuid.now region offset length size spare }
{
    let mut text = ShortText::new();
    text.push_uuid("ok created uuid=", uuid);
    text.push_decimal(" region=", u64::from(region));
    text.push_decimal(" offset=", offset);
    text.push_decimal(" length=", length);
    text.push_decimal(" size=", size);
    text.push_decimal(" spare=", u64::from(spare));
    text.push_str("\n");
    text
}

fn destroyed_line(uuid: &[u8; 16]) -> ShortText
    ensures { result ≡ destroyed_line uuid.now }
{
    let mut text = ShortText::new();
    text.push_uuid("ok destroyed uuid=", uuid);
    text.push_str("\n");
    text
}

fn renamed_line(uuid: &[u8; 16], name: &[u8; 64]) -> ShortText
    ensures { result ≡ renamed_line uuid.now name.now }
{
    let mut text = ShortText::new();
    text.push_uuid("ok renamed uuid=", uuid);
    text.push_name(" name=", name);
    text.push_str("\n");
    text
}

fn released_line(count: u32) -> ShortText
    ensures { result ≡ released_line count }
{
    let mut text = ShortText::new();
    text.push_decimal("ok released=", u64::from(count));
    text.push_str("\n");
    text
}

fn module_line(dimm: u32, dpa: u64) -> ShortText
    ensures { result ≡ module_line dimm dpa }
{
    let mut text = ShortText::new();
    text.push_handle("ok dimm=", dimm);
    text.push_address(" dpa=", dpa);
    text.push_str("\n");
    text
}

fn spa_line(spa: u64) -> ShortText
    ensures { result ≡ spa_line spa }
{
    let mut text = ShortText::new();
    text.push_address("ok spa=", spa);
    text.push_str("\n");
    text
}

/// A line for each item, and a last line.
fn lines<T: Line>(alloc: Global, items: &[T], last: &ShortText) -> Result<Vec<u8>, AllocError>
    ensures { IfOk result (λ text. text.items ≡ flat_map T.line_text items.now ++ last.now) }
{
    let mut text = Vec::new(alloc);
    for item in items {
        text.extend_from_slice(item.line().as_bytes())?;
    }
    text.extend_from_slice(last.as_bytes())?;
    Ok(text)
}

/// The last line of a list that tells no more than its length.
fn counted(label: &str, count: usize) -> ShortText
    requires { length label.now ≤ 20 }
    ensures { result ≡ label.now ++ decimal count ++ codes "\n" }
{
    let mut text = ShortText::new();
    text.push_decimal(label, count as u64);
    text.push_str("\n");
    text
}

fn free_end(count: usize, largest: u64) -> ShortText
    ensures { result ≡ free_end count largest }
{
    let mut text = ShortText::new();
    text.push_decimal("ok free=", count as u64);
    text.push_decimal(" largest=", largest);
    text.push_str("\n");
    text
}

fn held_end(count: usize, spare: u32) -> ShortText
    ensures { result ≡ held_end count spare }
{
    let mut text = ShortText::new();
    text.push_decimal("ok held=", count as u64);
    text.push_decimal(" spare=", u64::from(spare));
    text.push_str("\n");
    text
}
