//! Where traces come from.

ghost use Rattle.std.specs.Prelude.{◌≡◌, ℕ, Bool, List, IsTrue, Some, None, MatchResult, map, string_bytes, take};
ghost use Rattle.ctf_cli.specs.Files as files;

use ctf_bits::Source;
use std::alloc::Global;
use thiserror::Error;

/// Why something of a folder was not had.
#[derive(Clone, Copy, Debug, PartialEq, Eq, Error)]
pub enum FolderFault {
    #[error("cannot read")]
    Unreadable,
    #[error("no memory")]
    NoMemory,
}

/// Folders with files in them, each named by its path.
pub trait Folders {
    /// An open file, to be read from its beginning.
    type Stream: Source + Drop;

    /// Whether the folders say what they hold.
    ghost tells: { Self → Bool };

    /// What they hold.
    ghost holds: { Self → files.Files };

    /// The names of the entries of a folder, in any order. A name that is no text makes the folder unreadable.
    fn list(&self, alloc: Global, dir: &str) -> Result<Vec<String>, FolderFault>
        ensures { IsTrue (tells self.now) → MatchResult result
            (λ names. (holds self.now).names dir.now ≡ Some (map string_bytes names.items))
            (files.IsFault ((holds self.now).names dir.now ≡ None)) };

    /// The bytes of a file, as many as `most` at the most.
    fn read(&self, alloc: Global, path: &str, most: u64) -> Result<Vec<u8>, FolderFault>
        ensures { IsTrue (tells self.now) → MatchResult result
            (λ read. (bytes : List ℕ) × ((holds self.now).bytes path.now ≡ Some bytes) ×
            (read.items ≡ take most bytes))
            (files.IsFault ((holds self.now).bytes path.now ≡ None)) };

    /// Opens a file that is not empty; `None` where the path leads to something else. Links are followed.
    fn open(&self, alloc: Global, path: &str) -> Result<Option<Self::Stream>, FolderFault>
        ensures { IsTrue (tells self.now) → MatchResult result
            (λ opened. (holds self.now).found path.now ≡
            files.found_of (files.given_by Self.Stream.tells Self.Stream.left
            Self.Stream.ending) opened)
            (files.IsFault ((holds self.now).found path.now ≡ files.closed)) };
}
