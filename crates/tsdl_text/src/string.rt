//! The characters of strings.

ghost use Rattle.std.specs.Prelude.{◌≡◌, ◌+◌, ◌<◌, ◌≤◌, ◌^◌, length, MatchOption, IfOk, IfSome};
ghost use Rattle.std.specs.Char.{digit_value};
ghost use Rattle.tsdl_text.specs.Bytes.{number};
ghost use Rattle.tsdl_text.specs.Characters.{simple_escape};
ghost use Rattle.tsdl_text.specs.Strings.{numeric_at, escape_at, character_at, string_value, digit_count};

use ctf_list::NoMemory;
use std::alloc::Global;

/// The value of a digit, letters counting from 10 on, and 36 for any other byte.
fn digit_value(byte: u8) -> u8
    ensures { result ≡ digit_value byte }
{
    match byte {
        b'0'..=b'9' => byte - b'0',
        b'A'..=b'Z' => byte - b'A' + 10,
        b'a'..=b'z' => byte - b'a' + 10,
        _ => 36,
    }
}

/// How many digits of a base are at the beginning, counting no further than `most`.
pub(crate) fn digit_count(base: u8, most: usize, text: &[u8]) -> usize
    ensures count { result ≡ digit_count base most text.now }
    ensures bound { result ≤ length text.now }
{
    let mut count = 0;
    while count < most && count < text.len() && digit_value(text[count]) < base {
        count += 1;
    }
    count
}

/// The number that digits spell in a base, where 64 bits hold it.
pub(crate) fn number(base: u64, digits: &[u8]) -> Option<u64>
    requires { 1 ≤ base }
    ensures { MatchOption result (2 ^ 64 ≤ number base digits.now)
        (λ value. value ≡ number base digits.now) }
{
    let mut value = 0u64;
    for digit in digits {
        value = value
            .checked_mul(base)?
            .checked_add(u64::from(digit_value(*digit)))?;
    }
    Some(value)
}

/// The byte of an escape by digits, of which `skipped` bytes are before the digits, and its length.
#[tactic(auto, unfolding(crate::specs::Strings::numeric_at))]
fn numeric(base: u8, most: usize, skipped: usize, text: &[u8]) -> Option<(u8, usize)>
    requires base { 1 ≤ base }
    requires few { skipped ≤ 2 }
    ensures value { result ≡ numeric_at base most skipped text.now }
    ensures some { IfSome result (λ found. (skipped < found.1) ×
        (found.1 ≤ skipped + length text.now)) }
{
    let count = digit_count(base, most, text);
    if count == 0 {
        return None;
    }
    let value = number(u64::from(base), &text[..count])?;
    let byte = u8::try_from(value).ok()?;
    Some((byte, skipped + count))
}

/// The byte that a backslash and this character stand for.
#[tactic(auto, unfolding(crate::specs::Characters::simple_escape))]
fn simple_escape(character: u8) -> Option<u8>
    ensures { result ≡ simple_escape character }
{
    match character {
        b'a' => Some(7),
        b'b' => Some(8),
        b'f' => Some(12),
        b'n' => Some(b'\n'),
        b'r' => Some(b'\r'),
        b't' => Some(b'\t'),
        b'v' => Some(11),
        b'\\' | b'\'' | b'"' | b'?' => Some(character),
        _ => None,
    }
}

/// The character that is written after a backslash, and how many bytes it takes with it.
#[tactic(auto, unfolding(crate::specs::Strings::escape_at))]
fn escaped_character(text: &[u8]) -> Option<(u8, usize)>
    ensures value { result ≡ escape_at text.now }
    ensures some { IfSome result (λ found. (0 < found.1) × (found.1 ≤ 1 + length text.now)) }
{
    match text {
        [] => None,
        [b'x', digits @ ..] => numeric(16, 2, 2, digits),
        [first, ..] => match simple_escape(*first) {
            Some(value) => Some((value, 2)),
            None => numeric(8, 3, 1, text),
        },
    }
}

/// The byte that the first character of a text stands for, and how many bytes the character takes.
/// There is none at a quote, a newline, a wrong escape and the end.
#[tactic(auto, unfolding(crate::specs::Strings::character_at))]
pub(crate) fn character(text: &[u8]) -> Option<(u8, usize)>
    ensures value { result ≡ character_at text.now }
    ensures some { IfSome result (λ found. (0 < found.1) × (found.1 ≤ length text.now)) }
{
    match text {
        [] => None,
        [b'\\', rest @ ..] => escaped_character(rest),
        [b'"' | b'\n', ..] => None,
        [byte, ..] => Some((*byte, 1)),
    }
}

/// The bytes that the slice of a string token stands for. It fails where an allocation fails.
pub(crate) fn string_value(alloc: Global, slice: &[u8]) -> Result<Vec<u8>, NoMemory>
    ensures { IfOk result (λ value. value.items ≡ string_value slice.now) }
{
    let mut value = Vec::new(alloc);
    let mut start = 1;
    while start < slice.len() {
        let Some((byte, len)) = character(&slice[start..]) else {
            return Ok(value);
        };
        value.push(byte)?;
        start += len;
    }
    Ok(value)
}
