//! Names with a meaning in the blocks of a trace, a stream and an event.

ghost use Rattle.std.specs.Prelude.{◌≡◌};
ghost use Rattle.ctf_meaning.specs.Name.{same_words};
ghost use Rattle.ctf_meaning.specs.Reading.{entry_of};
ghost use Rattle.ctf_meaning.specs.Blocks.{is_value_of, is_class_of};
ghost use Rattle.ctf_attributes.specs.EntryNames.{words_of};

use crate::naming::{is_two_words, is_word};
use tsdl_tree::{BlockEntry, Path};

/// A name with a meaning in a block (CTF 1.8.3, section 7.4 and appendix C.2).
#[derive(Clone, Copy)]
pub enum EntryName {
    /// `major`
    Major,
    /// `minor`
    Minor,
    /// `byte_order`
    ByteOrder,
    /// `uuid`
    Uuid,
    /// `packet.header`
    PacketHeader,
    /// `id`
    Id,
    /// `packet.context`
    PacketContext,
    /// `event.header`
    EventHeader,
    /// `event.context`
    EventContext,
    /// `name`
    Name,
    /// `stream_id`
    StreamId,
    /// `context`
    Context,
    /// `fields`
    Fields,
}

impl EntryName {
    /// Whether a name is this one.
    fn is(self, path: &Path) -> bool
        ensures { result ≡ same_words path.now (words_of self) }
    {
        match self {
            EntryName::Major => is_word(path, b"major"),
            EntryName::Minor => is_word(path, b"minor"),
            EntryName::ByteOrder => is_word(path, b"byte_order"),
            EntryName::Uuid => is_word(path, b"uuid"),
            EntryName::PacketHeader => is_two_words(path, b"packet", b"header"),
            EntryName::Id => is_word(path, b"id"),
            EntryName::PacketContext => is_two_words(path, b"packet", b"context"),
            EntryName::EventHeader => is_two_words(path, b"event", b"header"),
            EntryName::EventContext => is_two_words(path, b"event", b"context"),
            EntryName::Name => is_word(path, b"name"),
            EntryName::StreamId => is_word(path, b"stream_id"),
            EntryName::Context => is_word(path, b"context"),
            EntryName::Fields => is_word(path, b"fields"),
        }
    }

    /// Whether an entry is a value of this name.
    pub fn is_value(self, entry: &BlockEntry) -> bool
        ensures { result ≡ is_value_of (words_of self) (entry_of entry.now) }
    {
        match entry {
            BlockEntry::Setting(setting) => self.is(&setting.name),
            _ => false,
        }
    }

    /// Whether an entry is a class of this name.
    pub fn is_class(self, entry: &BlockEntry) -> bool
        ensures { result ≡ is_class_of (words_of self) (entry_of entry.now) }
    {
        match entry {
            BlockEntry::Class { name, .. } => self.is(name),
            _ => false,
        }
    }
}
