//! Short texts, which take no memory.

ghost use Rattle.std.specs.Prelude.{◌≡◌, ◌+◌, ◌*◌, ◌≤◌, ◌<◌, ◌^◌, [], ◌∷◌, ◌++◌, length};
ghost use Rattle.std.specs.Fmt.{decimal};
ghost use Rattle.std.specs.List.{flat_map};
ghost use Rattle.label_codec.specs.Names.{escaped_byte, name_before_zero, printed_byte, printed_name};
ghost use Rattle.report_json.specs.Numbers.{address_text, handle_text, hexadecimal, hexadecimal_digits, uuid_text};
ghost use Rattle.report_json.specs.Words.{flag_word};

use arrayvec::ArrayString;
use itoa::Buffer;
use std::marker::Model;
use uuid::Uuid;

/// The most bytes of a short text: the longest line of a reply has fewer.
pub const ROOM: usize = 512;

const HEX_DIGITS: &[u8; 16] = b"0123456789ABCDEF";

/// A text of at most 512 bytes, made of parts behind labels.
#[derive(Drop)]
pub struct ShortText {
    text: ArrayString<ROOM>,
}

impl Model for ShortText {
    ghost use Rattle.std.specs.Prelude.{ℕ, List};

    ghost Value = { List ℕ };

    ghost view = { λ text. text.text.bytes };
}

impl ShortText {
    /// The empty text.
    pub fn new() -> ShortText
        ensures { result ≡ [] }
    {
        ShortText {
            text: ArrayString::new(),
        }
    }

    /// Its bytes.
    pub fn as_bytes(&self) -> &[u8]
        ensures bytes { result.now ≡ self.now }
        ensures fits { length result.now ≤ 512 }
    {
        self.text.as_str().as_bytes()
    }

    /// Appends text for which there is room.
    pub fn push_str(&mut self, more: &str)
        requires { length self.old + length more.now ≤ 512 }
        ensures { self.new ≡ self.old ++ more.now }
    {
        self.text.push_str(more);
    }

    /// Appends another text.
    pub fn push_text(&mut self, part: &ShortText)
        requires { length self.old + length part.now ≤ 512 }
        ensures { self.new ≡ self.old ++ part.now }
    {
        self.push_str(part.text.as_str());
    }

    /// Appends a label and a number in decimal, of at most 20 digits.
    pub fn push_decimal(&mut self, label: &str, number: u64)
        requires { length self.old + length label.now + 20 ≤ 512 }
        ensures text { self.new ≡ self.old ++ label.now ++ decimal number }
        ensures long { length self.new ≤ length self.old + length label.now + 20 }
    {
        self.push_str(label);
        self.push_str(Buffer::new().format(number));
    }

    /// Appends a label and a device handle, or flags: `0x` and eight hexadecimal digits.
    pub fn push_handle(&mut self, label: &str, dimm: u32)
        requires { length self.old + length label.now + 10 ≤ 512 }
        ensures text { self.new ≡ self.old ++ label.now ++ handle_text dimm }
        ensures long { length self.new ≡ length self.old + length label.now + 10 }
    {
        self.push_str(label);
        self.push_text(&hexadecimal(u64::from(dimm), 8));
    }

    /// Appends a label and an address or a cookie: `0x` and sixteen hexadecimal digits.
    pub fn push_address(&mut self, label: &str, address: u64)
        requires { length self.old + length label.now + 18 ≤ 512 }
        ensures text { self.new ≡ self.old ++ label.now ++ address_text address }
        ensures long { length self.new ≡ length self.old + length label.now + 18 }
    {
        self.push_str(label);
        self.push_text(&hexadecimal(address, 16));
    }

    /// Appends a label and a uuid in lower case and hyphenated, its bytes as they stand: 36 characters.
    pub fn push_uuid(&mut self, label: &str, uuid: &[u8; 16])
        requires { length self.old + length label.now + 36 ≤ 512 }
        ensures text { self.new ≡ self.old ++ label.now ++ uuid_text uuid.now }
        ensures long { length self.new ≡ length self.old + length label.now + 36 }
    {
        let mut buffer = Uuid::encode_buffer();
        self.push_str(label);
        self.push_str(
            Uuid::from_bytes(*uuid)
                .hyphenated()
                .encode_lower(&mut buffer),
        );
    }

    /// Appends a label and `yes` or `no`.
    pub fn push_flag(&mut self, label: &str, flag: bool)
        requires { length self.old + length label.now + 3 ≤ 512 }
        ensures text { self.new ≡ self.old ++ label.now ++ flag_word flag }
        ensures long { length self.new ≤ length self.old + length label.now + 3 }
    {
        self.push_str(label);
        match flag {
            true => self.push_str("yes"),
            false => self.push_str("no"),
        }
    }

    /// Appends a label and a name as it is printed: of each of its bytes at most three.
    pub fn push_name(&mut self, label: &str, name: &[u8; 64])
        requires { length self.old + length label.now + 192 ≤ 512 }
        ensures text { self.new ≡ self.old ++ label.now ++ printed_name name.now }
        ensures long { length self.new ≤ length self.old + length label.now + 192 }
    {
        self.push_str(label);
        match before_zero(name) {
            [] => self.push_str("-"),
            b"-" => self.push_str("%2D"),
            bytes => self.push_printed(bytes),
        }
    }

    /// Appends each byte as it is printed.
    fn push_printed(&mut self, bytes: &[u8])
        requires { length self.old + 3 * length bytes.now ≤ 512 }
        ensures text { self.new ≡ self.old ++ flat_map printed_byte bytes.now }
        ensures long { length self.new ≤ length self.old + 3 * length bytes.now }
    {
        for byte in bytes {
            self.push_byte(*byte);
        }
    }

    /// Appends a byte as it is printed.
    fn push_byte(&mut self, byte: u8)
        requires { length self.old + 3 ≤ 512 }
        ensures text { self.new ≡ self.old ++ printed_byte byte }
        ensures long { length self.new ≤ length self.old + 3 }
    {
        match byte {
            b'%' | b'"' => self.push_escaped(byte),
            0x21..=0x7e => self.push(char::from(byte)),
            _ => self.push_escaped(byte),
        }
    }

    /// Appends `%` and two upper case hexadecimal digits.
    fn push_escaped(&mut self, byte: u8)
        requires { length self.old + 3 ≤ 512 }
        ensures text { self.new ≡ self.old ++ escaped_byte byte }
        ensures long { length self.new ≡ length self.old + 3 }
    {
        self.push('%');
        self.push(char::from(HEX_DIGITS[usize::from(byte / 16)]));
        self.push(char::from(HEX_DIGITS[usize::from(byte % 16)]));
    }

    /// Appends an ASCII character for which there is room.
    fn push(&mut self, character: char)
        requires ascii { character < 128 }
        requires room { length self.old < 512 }
        ensures { self.new ≡ self.old ++ character ∷ [] }
    {
        self.text.push(character);
    }

    /// Appends the lowest hexadecimal digits of a number.
    fn push_digits(&mut self, number: u64, count: usize)
        requires { length self.old + count ≤ 512 }
        ensures text { self.new ≡ self.old ++ hexadecimal_digits count number }
        ensures long { length self.new ≡ length self.old + count }
    {
        if count > 0 {
            self.push_digits(number / 16, count - 1);
            self.push(char::from_digit((number % 16) as u32, 16).unwrap());
        }
    }
}

/// `0x` and the lowest hexadecimal digits of a number.
fn hexadecimal(number: u64, count: usize) -> ShortText
    requires { count ≤ 16 }
    ensures text { result ≡ hexadecimal count number }
    ensures long { length result ≡ 2 + count }
{
    let mut text = ShortText::new();
    text.push_str("0x");
    text.push_digits(number, count);
    text
}

/// The bytes of a name: those before the first zero byte.
fn before_zero(name: &[u8; 64]) -> &[u8]
    ensures bytes { result.now ≡ name_before_zero name.now }
    ensures short { length result.now ≤ 64 }
{
    match name.iter().position(|byte| *byte == 0) {
        Some(end) => &name[..end],
        None => name,
    }
}
