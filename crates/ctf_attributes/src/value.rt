//! Values of settings.

ghost use Rattle.std.specs.Prelude.{◌≡◌, ◌∷◌, [], ◌^◌, ◌<ℤ◌, pos, map, is_none, option_and_then, option_copied, IfSome, IfOk};
ghost use Rattle.ctf_meaning.specs.declared.fault.ResolveFault.TheVariants as faults;
ghost use Rattle.ctf_meaning.specs.Settings as settings;
ghost use Rattle.ctf_meaning.specs.Settings.{when};
ghost use Rattle.ctf_attributes.specs.Tells.{Tells};

use crate::dots::{is_joined, join_words};
use ctf_list::{List, NoMemory};
use ctf_meaning::ResolveFault;
use std::alloc::Global;
use tsdl_tree::{Number, Value};

/// The largest magnitude of a negative number.
const LARGEST_NEGATIVE: u64 = 1 << 63;

/// The number of a constant; `None` where a `-` is before one above 2^63.
pub fn number_by(constant: Number) -> Option<i128>
    ensures value { result ≡ settings.number_by constant }
    ensures bounded { IfSome result (λ number. number <ℤ pos (2 ^ 64)) }
{
    if !constant.is_negative {
        return Some(i128::from(constant.magnitude));
    }
    if constant.magnitude > LARGEST_NEGATIVE {
        return None;
    }
    Some(-i128::from(constant.magnitude))
}

/// The number of a value; a string is none.
pub fn number(value: &Value) -> Option<i128>
    ensures { result ≡ settings.number_of value.now }
{
    match value {
        Value::Number(constant) => number_by(*constant),
        _ => None,
    }
}

/// The number of a value where it is from 0 on.
pub fn count(value: &Value) -> Option<u64>
    ensures { result ≡ settings.count_of value.now }
{
    match value {
        Value::Number(constant) if !constant.is_negative || constant.magnitude == 0 => {
            Some(constant.magnitude)
        }
        _ => None,
    }
}

/// Whether a value is this number.
pub fn is_count(value: &Value, expected: u64) -> bool
    ensures { result ≡ settings.is_count expected value.now }
{
    match count(value) {
        Some(number) => number == expected,
        None => false,
    }
}

/// Whether a value is a `-` before a constant above 2^63.
pub fn has_no_number(value: &Value) -> bool
    ensures { result ≡ settings.has_no_number value.now }
{
    match value {
        Value::Number(constant) => number_by(*constant).is_none(),
        _ => false,
    }
}

/// Whether a value reads as one of these words, with quotes or without.
pub fn says(value: &Value, words: &[&[u8]]) -> bool
    ensures { result ≡ settings.says value.now (map (λ word. word.now) words.now) }
{
    for word in words {
        if is_word(value, word) {
            return true;
        }
    }
    false
}

/// Whether a value reads as this word, with quotes or without.
fn is_word(value: &Value, word: &[u8]) -> bool
    ensures { result ≡ settings.says value.now (word.now ∷ []) }
{
    match value {
        Value::Number(_) => false,
        Value::Text(text) => text.as_slice() == word,
        Value::Name(words) => is_joined(words.as_slice(), word),
    }
}

/// The text of a value; a constant has none. It fails where an allocation fails.
pub fn text(alloc: Global, value: &Value) -> Result<Option<List<u8>>, NoMemory>
    ensures { IfOk result (λ text. text ≡ settings.text_of value.now) }
{
    match value {
        Value::Number(_) => Ok(None),
        Value::Text(bytes) => Ok(Some(List::from_slice(alloc, bytes.as_slice())?)),
        Value::Name(words) => Ok(Some(join_words(alloc, words.as_slice())?)),
    }
}

/// The text of a value that must be there and have one. It fails with `Attribute`, or where an allocation fails.
pub fn required_text(alloc: Global, value: Option<&Value>) -> Result<List<u8>, ResolveFault>
    ensures told { Tells (when
        (is_none (option_and_then settings.text_of (option_copied value.entry))) faults.Attribute)
        (λ text. option_and_then settings.text_of (option_copied value.entry) ≡ Some text) result }
{
    let value = value.ok_or(ResolveFault::Attribute)?;
    text(alloc, value)?.ok_or(ResolveFault::Attribute)
}
