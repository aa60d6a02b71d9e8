//! How texts are shown.

ghost use Rattle.std.specs.Prelude.{◌≡◌, ◌++◌, ◌∷◌, [], ◌<◌, IsTrue, IfOk, OnOk};
ghost use Rattle.ctf_class.specs.Escapes.{escaped, shown_byte, hex_digit};

use ctf_list::NoMemory;
use std::alloc::{AllocError, Global};

/// A text as it is shown: `"`, `\`, newline, tab and carriage return after a `\`, other bytes below 0x20
/// and 0x7F as `\x` and two digits, and each other byte as it is.
pub fn escaped(alloc: Global, bytes: &[u8]) -> Result<Vec<u8>, NoMemory>
    ensures { IfOk result (λ text. text.items ≡ escaped bytes.now) }
{
    let mut text = Vec::new(alloc);
    put_escaped(&mut text, bytes)?;
    Ok(text)
}

/// Appends a text as it is shown.
pub fn put_escaped(text: &mut Vec<u8>, bytes: &[u8]) -> Result<(), NoMemory>
    ensures { OnOk result (text.new.items ≡ text.old.items ++ escaped bytes.now) }
{
    let mut start = 0;
    for (place, byte) in bytes.iter().enumerate() {
        if !is_plain(*byte) {
            text.extend_from_slice(&bytes[start..place])?;
            put_escape(text, *byte)?;
            start = place + 1;
        }
    }
    text.extend_from_slice(&bytes[start..])?;
    Ok(())
}

/// Whether a byte is shown as it is.
#[tactic(auto, unfolding(crate::specs::Escapes::shown_byte))]
fn is_plain(byte: u8) -> bool
    ensures { IsTrue result → shown_byte byte ≡ byte ∷ [] }
{
    byte >= 0x20 && byte != b'"' && byte != b'\\' && byte != 0x7F
}

/// Appends one byte as it is shown.
#[tactic(auto, unfolding(crate::specs::Escapes::shown_byte))]
fn put_escape(text: &mut Vec<u8>, byte: u8) -> Result<(), AllocError>
    ensures { OnOk result (text.new.items ≡ text.old.items ++ shown_byte byte) }
{
    match byte {
        b'"' => text.extend_from_slice(b"\\\""),
        b'\\' => text.extend_from_slice(b"\\\\"),
        b'\n' => text.extend_from_slice(b"\\n"),
        b'\t' => text.extend_from_slice(b"\\t"),
        b'\r' => text.extend_from_slice(b"\\r"),
        0..=0x1F | 0x7F => {
            text.extend_from_slice(&[b'\\', b'x', hex_digit(byte / 16), hex_digit(byte % 16)])
        }
        _ => text.extend_from_slice(&[byte]),
    }
}

/// The digit of a number from 0 to 15, in lower case.
pub fn hex_digit(digit: u8) -> u8
    requires { digit < 16 }
    ensures { result ≡ hex_digit digit }
{
    if digit < 10 {
        b'0' + digit
    } else {
        b'a' - 10 + digit
    }
}
