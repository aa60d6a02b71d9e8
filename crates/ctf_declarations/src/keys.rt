//! Names as keys: no two names have one key.

ghost use Rattle.std.specs.Prelude.{◌≡◌, ◌++◌, ◌∷◌, IfOk, OnOk, flat_map};
ghost use Rattle.ctf_declarations.specs.Keys.{word_key, key_of};
ghost use Rattle.ctf_declarations.specs.Views.{name};

use crate::names::Name;
use std::alloc::{AllocError, Global};
use tsdl_tree::Word;

/// What the keys of plain names begin with.
const PLAIN: u16 = 0;

/// What the keys of `struct` names begin with.
const STRUCT: u16 = 1;

/// What the keys of `variant` names begin with.
const VARIANT: u16 = 2;

/// What the keys of `enum` names begin with.
const ENUM: u16 = 3;

/// The key of a name.
pub fn key(alloc: Global, given: Name<'_>) -> Result<Vec<u16>, AllocError>
    ensures { IfOk result (λ key. key.items ≡ key_of (name given.entry)) }
{
    match given {
        Name::Plain(words) => words_key(alloc, words),
        Name::Struct(word) => word_key(alloc, STRUCT, word),
        Name::Variant(word) => word_key(alloc, VARIANT, word),
        Name::Enum(word) => word_key(alloc, ENUM, word),
    }
}

/// The key of a plain name: its kind, and all its words.
fn words_key(alloc: Global, words: &[Word]) -> Result<Vec<u16>, AllocError>
    ensures { IfOk result (λ key. key.items ≡ 0 ∷ flat_map word_key words.now) }
{
    let mut key = Vec::new(alloc);
    key.push(PLAIN)?;
    for word in words {
        push_word(&mut key, word.as_slice())?;
    }
    Ok(key)
}

/// The key of a name of one word: its kind, and the word.
fn word_key(alloc: Global, kind: u16, word: &[u8]) -> Result<Vec<u16>, AllocError>
    ensures { IfOk result (λ key. key.items ≡ kind ∷ word_key word.now) }
{
    let mut key = Vec::new(alloc);
    key.push(kind)?;
    push_word(&mut key, word)?;
    Ok(key)
}

/// Puts a word after a key: each byte as one more than it is, and 0 at the end.
fn push_word(key: &mut Vec<u16>, word: &[u8]) -> Result<(), AllocError>
    ensures { OnOk result (key.new.items ≡ key.old.items ++ word_key word.now) }
{
    for byte in word {
        key.push(u16::from(*byte) + 1)?;
    }
    key.push(0)?;
    Ok(())
}
