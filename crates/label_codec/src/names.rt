//! How names are printed.

ghost use Rattle.std.specs.Prelude.{◌≡◌, ◌++◌, IfOk, OnOk};
ghost use Rattle.std.specs.List.{flat_map};
ghost use Rattle.label_codec.specs.Names.{name_before_zero, escaped_byte, printed_byte, printed_name};

use std::alloc::{AllocError, Global};

const HEX_DIGITS: &[u8; 16] = b"0123456789ABCDEF";

/// A name as one word of visible ASCII: each byte up to the first zero byte as itself, or as `%` and two upper case
/// hexadecimal digits where it is not visible, `%` or `"`. The empty name is `-`, and the name `-` is `%2D`.
pub fn name_text(alloc: Global, name: &[u8; 64]) -> Result<Vec<u8>, AllocError>
    ensures { IfOk result (λ text. text.items ≡ printed_name name.now) }
{
    match before_zero(name) {
        [] => Vec::from_slice(alloc, b"-"),
        b"-" => Vec::from_slice(alloc, b"%2D"),
        bytes => printed(alloc, bytes),
    }
}

/// The bytes before the first zero byte.
fn before_zero(name: &[u8; 64]) -> &[u8]
    ensures { result.now ≡ name_before_zero name.now }
{
    let end = name
        .iter()
        .position(|byte| *byte == 0)
        .unwrap_or(name.len());
    &name[..end]
}

fn printed(alloc: Global, name: &[u8]) -> Result<Vec<u8>, AllocError>
    ensures { IfOk result (λ text. text.items ≡ flat_map printed_byte name.now) }
{
    let mut text = Vec::with_capacity(alloc, name.len())?;
    for byte in name {
        push_printed(&mut text, *byte)?;
    }
    Ok(text)
}

fn push_printed(text: &mut Vec<u8>, byte: u8) -> Result<(), AllocError>
    ensures { OnOk result (text.new.items ≡ text.old.items ++ printed_byte byte) }
{
    match byte {
        b'%' | b'"' => push_escaped(text, byte),
        0x21..=0x7e => Ok(text.push(byte)?),
        _ => push_escaped(text, byte),
    }
}

/// Appends `%` and two hexadecimal digits.
fn push_escaped(text: &mut Vec<u8>, byte: u8) -> Result<(), AllocError>
    ensures { OnOk result (text.new.items ≡ text.old.items ++ escaped_byte byte) }
{
    let high = HEX_DIGITS[usize::from(byte / 16)];
    let low = HEX_DIGITS[usize::from(byte % 16)];
    text.extend_from_slice(&[b'%', high, low])
}
