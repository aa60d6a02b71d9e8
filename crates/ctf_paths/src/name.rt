//! The words that a path begins with.

ghost use Rattle.std.specs.Prelude.{◌≡◌, ◌∷◌, [], option_map, option_copied};
ghost use Rattle.ctf_meaning.specs.Paths as paths;
ghost use Rattle.ctf_meaning.specs.Paths.{after_words, words_of};
ghost use Rattle.ctf_paths.specs.Names.{absolute};

use ctf_class::Scope;
use tsdl_tree::Word;

/// The scopes in the order in which they are decoded (CTF 1.8.3, section 7.3.2).
const SCOPES: [Scope; 6] = [
    Scope::PacketHeader,
    Scope::PacketContext,
    Scope::EventHeader,
    Scope::StreamEventContext,
    Scope::EventContext,
    Scope::EventFields,
];

/// A path that begins with the name of a scope.
#[derive(Drop)]
pub struct Absolute<'a> {
    pub scope: Scope,
    /// What is after that name.
    pub words: &'a [Word],
}

/// The words after a first one.
pub fn after_word<'a>(word: &[u8], path: &'a [Word]) -> Option<&'a [Word]>
    ensures { option_copied result ≡ after_words (word.now ∷ []) path.now }
{
    match path {
        [first, rest @ ..] if word == first.as_slice() => Some(rest),
        _ => None,
    }
}

/// The words after two.
fn after_two<'a>(first: &[u8], second: &[u8], path: &'a [Word]) -> Option<&'a [Word]>
    ensures { option_copied result ≡ after_words (first.now ∷ second.now ∷ []) path.now }
{
    after_word(second, after_word(first, path)?)
}

/// The words after three.
fn after_three<'a>(
    first: &[u8],
    second: &[u8],
    third: &[u8],
    path: &'a [Word],
) -> Option<&'a [Word]>
    ensures { option_copied result ≡
        after_words (first.now ∷ second.now ∷ third.now ∷ []) path.now }
{
    after_word(third, after_two(first, second, path)?)
}

/// The words after the name of a scope.
fn after_scope<'a>(scope: Scope, path: &'a [Word]) -> Option<&'a [Word]>
    ensures { option_copied result ≡ after_words (words_of scope) path.now }
{
    match scope {
        Scope::PacketHeader => after_three(b"trace", b"packet", b"header", path),
        Scope::PacketContext => after_three(b"stream", b"packet", b"context", path),
        Scope::EventHeader => after_three(b"stream", b"event", b"header", path),
        Scope::StreamEventContext => after_three(b"stream", b"event", b"context", path),
        Scope::EventContext => after_two(b"event", b"context", path),
        Scope::EventFields => after_two(b"event", b"fields", path),
    }
}

/// The scope whose name a path begins with, and the words after it (CTF 1.8.3, section 7.3.2).
pub fn scope_named<'a>(path: &'a [Word]) -> Option<Absolute<'a>>
    ensures { option_map absolute result ≡ paths.scope_named path.now }
{
    for scope in SCOPES {
        if let Some(words) = after_scope(scope, path) {
            return Some(Absolute { scope, words });
        }
    }
    None
}
