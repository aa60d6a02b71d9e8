//! How a class is reached from its scope.

ghost use Rattle.std.specs.Prelude.{◌≡◌, option_and_then, option_copied};
ghost use Rattle.ctf_meaning.specs.Paths.{after_words};
ghost use Rattle.ctf_paths.specs.Names.{name_of};

use crate::name::after_word;
use tsdl_tree::Word;

/// The name of a class from its scope down.
#[derive(Clone, Copy)]
pub enum Trail<'a> {
    /// There is none: an option or an element lies on the way.
    Broken,
    /// The scope's own class.
    Scope,
    /// A member of the structure of that name.
    Member(&'a [u8], &'a Trail<'a>),
}

/// What is after the name of a class.
pub fn after_trail<'a>(trail: &Trail<'_>, path: &'a [Word]) -> Option<&'a [Word]>
    ensures { option_copied result ≡
        option_and_then (λ name. after_words name path.now) (name_of trail.now) }
{
    match trail {
        Trail::Broken => None,
        Trail::Scope => Some(path),
        Trail::Member(word, outer) => after_word(word, after_trail(outer, path)?),
    }
}
