//! Texts of words with dots between them.

ghost use Rattle.std.specs.Prelude.{◌≡◌, ◌∷◌, ◌++◌, option_copied, IfOk, OnOk};
ghost use Rattle.std.specs.List.{join_with_byte};
ghost use Rattle.ctf_meaning.specs.Name.{same_word};
ghost use Rattle.ctf_meaning.specs.Integers as meaning;
ghost use Rattle.ctf_attributes.specs.Dots.{dotted};

use crate::ends::after;
use ctf_list::{List, NoMemory};
use std::alloc::Global;
use tsdl_tree::Word;

/// Whether words with dots between them make a text.
pub fn is_joined(words: &[Word], text: &[u8]) -> bool
    ensures { result ≡ same_word (join_with_byte 46 words.now) text.now }
{
    match words {
        [] => text.is_empty(),
        [first, more @ ..] => match after(first.as_slice(), text) {
            Some(rest) => is_dotted(more, rest),
            None => false,
        },
    }
}

/// Whether words with a dot before each make a text.
fn is_dotted(words: &[Word], text: &[u8]) -> bool
    ensures { result ≡ same_word (dotted words.now) text.now }
{
    let (_, mut rest) = text.split_at(0);
    for word in words {
        match after_dot(word.as_slice(), rest) {
            Some(more) => rest = more,
            None => return false,
        }
    }
    rest.is_empty()
}

/// What is after a dot and a word.
fn after_dot<'a>(word: &[u8], text: &'a [u8]) -> Option<&'a [u8]>
    ensures { option_copied result ≡ meaning.after (46 ∷ word.now) text.now }
{
    match text {
        [b'.', rest @ ..] => after(word, rest),
        _ => None,
    }
}

/// Words with dots between them. It fails where an allocation fails.
pub fn join_words(alloc: Global, words: &[Word]) -> Result<List<u8>, NoMemory>
    ensures { IfOk result (λ text. text ≡ join_with_byte 46 words.now) }
{
    let [first, more @ ..] = words else {
        return Ok(List::new(alloc));
    };
    let mut text = List::from_slice(alloc, first.as_slice())?;
    put_dotted(&mut text, more)?;
    Ok(text)
}

/// Words with a dot before each, at the end of a text. It fails where an allocation fails.
fn put_dotted(text: &mut List<u8>, words: &[Word]) -> Result<(), NoMemory>
    ensures { OnOk result (text.new ≡ text.old ++ dotted words.now) }
{
    for word in words {
        text.push(b'.')?;
        text.extend_from_slice(word.as_slice())?;
    }
    Ok(())
}
