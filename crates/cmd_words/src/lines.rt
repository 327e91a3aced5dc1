//! The line of a command.

ghost use Rattle.std.specs.Prelude.{◌≡◌, ◌≤◌, [], length, not, take};
ghost use Rattle.std.specs.List.{position};
ghost use Rattle.cmd_words.specs.Lines.{command_in, first_fault, first_missing, is_visible_or_space, keys_fault};
ghost use Rattle.cmd_words.specs.Lines.{line_of};
ghost use Rattle.cmd_words.specs.Lines.{piece_fault};
ghost use Rattle.cmd_words.specs.Pieces.{pieces};

use crate::commands::{Command, Verb};
use crate::keys::{given, is_given, key_of};
use crate::pieces::next_piece;
use std::str;
use view_types::{Key, WordFault};

/// The most bytes of a line.
const MOST_BYTES: usize = 4096;

/// The command that a line is. `None` exactly where it is blank or a comment. It takes no memory.
pub fn read_line(bytes: &[u8]) -> Result<Option<Command>, WordFault>
    ensures { result ≡ command_in bytes.now }
{
    if bytes.len() > MOST_BYTES {
        return Err(WordFault::TooLong);
    }
    if let Some(at) = other_byte(bytes) {
        return Err(WordFault::Byte { at: at as u32 });
    }
    match str::from_utf8(bytes) {
        Ok(line) => read_pieces(line),
        Err(_) => unreachable!(),
    }
}

/// The offset of the first byte that is none of 0x20 to 0x7E.
fn other_byte(bytes: &[u8]) -> Option<usize>
    ensures { result ≡ position (λ byte. not (is_visible_or_space byte)) bytes.now }
{
    bytes.iter().position(|byte| !matches!(byte, 0x20..=0x7e))
}

/// The command that the pieces of a line are.
fn read_pieces(line: &str) -> Result<Option<Command>, WordFault>
    requires { length line.now ≤ MOST_BYTES }
    ensures { result ≡ line_of (pieces line.now) }
{
    let Some((piece, rest)) = next_piece(line) else {
        return Ok(None);
    };
    if piece.starts_with("#") {
        return Ok(None);
    }
    let verb = Verb::of(piece).ok_or(WordFault::Unknown)?;
    if let Some(fault) = keys_fault(verb, rest) {
        return Err(fault);
    }
    Ok(Some(verb.command(rest)?))
}

/// The first fault of the pieces behind a command, before its values are looked at.
fn keys_fault(verb: Verb, text: &str) -> Option<WordFault>
    requires { length (pieces text.now) ≤ MOST_BYTES }
    ensures { result ≡ keys_fault verb (pieces text.now) }
{
    if let Some(fault) = first_fault(verb.keys(), text) {
        return Some(fault);
    }
    let key = first_missing(verb.required(), text)?;
    Some(WordFault::Missing { key })
}

/// The first fault of the pieces of a text, from left to right.
fn first_fault(keys: &[Key], text: &str) -> Option<WordFault>
    requires { length (pieces text.now) ≤ MOST_BYTES }
    ensures { result ≡ first_fault keys.now [] (pieces text.now) }
{
    let mut rest = text;
    let mut earlier = 0;
    while let Some((piece, behind)) = next_piece(rest) {
        if let Some(fault) = piece_fault(keys, text, earlier, piece) {
            return Some(fault);
        }
        rest = behind;
        earlier += 1;
    }
    None
}

/// The fault of a piece of a text behind so many others.
fn piece_fault(keys: &[Key], text: &str, earlier: u32, piece: &str) -> Option<WordFault>
    requires few { earlier ≤ MOST_BYTES }
    requires there { earlier ≤ length (pieces text.now) }
    ensures { result ≡ piece_fault keys.now (take earlier (pieces text.now)) piece.now }
{
    match key_of(keys, piece) {
        None => Some(WordFault::Key { piece: earlier + 1 }),
        Some(key) if is_given(key, text, earlier as usize) => Some(WordFault::Twice { key }),
        Some(_) => None,
    }
}

/// The first of the keys to which no piece of a text gives a value.
fn first_missing(keys: &[Key], text: &str) -> Option<Key>
    ensures { result ≡ first_missing keys.now (pieces text.now) }
{
    keys.iter().copied().find(|key| given(*key, text).is_none())
}
