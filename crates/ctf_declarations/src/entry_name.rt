//! Names of the entries that are classes of scopes.

ghost use Rattle.std.specs.Prelude.{◌≡◌};
ghost use Rattle.ctf_meaning.specs.Name.{same_words};
ghost use Rattle.ctf_meaning.specs.Blocks.{entry_name};

use ctf_attributes::{is_two_words, is_word};
use ctf_class::Scope;
use tsdl_tree::Path;

/// Whether an entry of this name is the class of the scope (CTF 1.8.3, section 7.4 and appendix C.2).
pub fn is_entry_of(name: &Path, scope: Scope) -> bool
    ensures { result ≡ same_words name.now (entry_name scope) }
{
    match scope {
        Scope::PacketHeader => is_two_words(name, b"packet", b"header"),
        Scope::PacketContext => is_two_words(name, b"packet", b"context"),
        Scope::EventHeader => is_two_words(name, b"event", b"header"),
        Scope::StreamEventContext => is_two_words(name, b"event", b"context"),
        Scope::EventContext => is_word(name, b"context"),
        Scope::EventFields => is_word(name, b"fields"),
    }
}
