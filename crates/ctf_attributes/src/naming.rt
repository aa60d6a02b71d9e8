//! Names of settings, as lists of words.

ghost use Rattle.std.specs.Prelude.{◌≡◌};
ghost use Rattle.ctf_meaning.specs.Name.{same_words};
ghost use Rattle.ctf_meaning.specs.Settings.{one};
ghost use Rattle.ctf_meaning.specs.Blocks.{two};

use tsdl_tree::Path;

/// Whether a name is this one word.
pub fn is_word(name: &Path, word: &[u8]) -> bool
    ensures { result ≡ same_words name.now (one word.now) }
{
    match name.as_slice() {
        [only] => only.as_slice() == word,
        _ => false,
    }
}

/// Whether a name is these two words.
pub fn is_two_words(name: &Path, word: &[u8], next: &[u8]) -> bool
    ensures { result ≡ same_words name.now (two word.now next.now) }
{
    match name.as_slice() {
        [a, b] => a.as_slice() == word && b.as_slice() == next,
        _ => false,
    }
}
