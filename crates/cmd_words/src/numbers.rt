//! Numbers and sizes.

ghost use Rattle.std.specs.Prelude.{◌≡◌, ◌^◌, ◌≤◌};
ghost use Rattle.cmd_words.specs.Numbers.{below, number, numeral, size, unit_of};

/// A number: 1 to 20 decimal digits, or `0x` and 1 to 16 hexadecimal ones of either case. `None` exactly where the
/// text is none, or 2^64 or more.
pub fn read_number(text: &str) -> Option<u64>
    ensures { result ≡ below (2 ^ 64) (number text.now) }
{
    match text.strip_prefix("0x") {
        Some(digits) => read_numeral(digits, 16, 16),
        None => read_numeral(text, 10, 20),
    }
}

/// The number below 2^64 that 1 to `most` digits of a base write.
fn read_numeral(digits: &str, base: u32, most: usize) -> Option<u64>
    requires low { 2 ≤ base }
    requires high { base ≤ 16 }
    ensures { result ≡ below (2 ^ 64) (numeral base most digits.now) }
{
    if digits.len() > most || !digits.bytes().all(|digit| char::from(digit).is_digit(base)) {
        return None;
    }
    u64::from_str_radix(digits, base).ok()
}

/// A size: a number, or 1 to 20 decimal digits and one of K, M, G and T, for 2^10, 2^20, 2^30 and 2^40. `None` exactly
/// where the text is none, or 2^64 or more.
pub(crate) fn read_size(text: &str) -> Option<u64>
    ensures { result ≡ below (2 ^ 64) (size text.now) }
{
    match unit_of(text) {
        Some(unit) => read_numeral(&text[..text.len() - 1], 10, 20)?.checked_mul(unit),
        None => read_number(text),
    }
}

/// What the last byte of a size stands for.
fn unit_of(text: &str) -> Option<u64>
    ensures { result ≡ unit_of text.now }
{
    match text.as_bytes().last()? {
        b'K' => Some(1 << 10),
        b'M' => Some(1 << 20),
        b'G' => Some(1 << 30),
        b'T' => Some(1 << 40),
        _ => None,
    }
}
