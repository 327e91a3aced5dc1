//! Numbers and bytes as words, in hexadecimal digits.

use crate::fault::Fault;
use std::alloc::{AllocError, Global};

/// The number that a word tells.
pub(crate) fn number(word: &str) -> Result<u64, Fault> {
    if word.is_empty() || word.len() > 16 {
        return Err(Fault::Refused);
    }
    let mut number: u64 = 0;
    for byte in word.bytes() {
        let digit = char::from(byte).to_digit(16).ok_or(Fault::Refused)?;
        number = number.wrapping_mul(16) | u64::from(digit);
    }
    Ok(number)
}

/// The number below 2^32 that a word tells.
pub(crate) fn short_number(word: &str) -> Result<u32, Fault> {
    u32::try_from(number(word)?).map_err(|_| Fault::Refused)
}

/// The numbers that words tell.
pub(crate) fn numbers(alloc: Global, words: &[&str]) -> Result<Vec<u64>, Fault> {
    let mut numbers = Vec::new(alloc);
    for word in words {
        numbers.push(number(word)?)?;
    }
    Ok(numbers)
}

/// The bytes that a word tells: none where it is `-`.
pub(crate) fn bytes(alloc: Global, word: &str) -> Result<Vec<u8>, Fault> {
    if word == "-" {
        return Ok(Vec::new(alloc));
    }
    Ok(hex::decode(alloc, word)?)
}

/// Bytes as a word: `-` where there are none.
pub(crate) fn text(alloc: Global, bytes: &[u8]) -> Result<String, AllocError> {
    if bytes.is_empty() {
        return String::from_str(alloc, "-");
    }
    hex::encode(alloc, bytes)
}
