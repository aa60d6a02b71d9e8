//! Folders with made-up files.

use crate::files::bytes_of_digits;
use crate::manner::Manner;
use crate::source::RowSource;
use crate::words::add_word;
use ctf_cli::{FolderFault, Folders};
use std::alloc::Global;

/// The files of a table.
#[derive(Clone, Copy)]
pub struct MadeUp<'a> {
    pub table: &'a str,
}

/// What is at a path.
#[derive(Clone, Copy)]
enum PathEntry<'a> {
    Text(&'a str),
    /// Bytes in hexadecimal.
    Bytes(&'a str),
    /// It can't be read, opened or listed.
    Closed,
    /// It is no file.
    Other,
}

impl<'a> MadeUp<'a> {
    /// What is at a path.
    fn at(&self, path: &str) -> Option<PathEntry<'a>> {
        for line in self.table.lines() {
            let (name, entry) = line.split_once(' ').unwrap_or((line, ""));
            if name == path {
                return Some(entry_of(entry));
            }
        }
        None
    }
}

/// What the words of an entry say.
fn entry_of(words: &str) -> PathEntry<'_> {
    let (kind, content) = words.split_once(' ').unwrap_or((words, ""));
    match kind {
        "text" => PathEntry::Text(content),
        "bytes" => PathEntry::Bytes(content),
        "closed" => PathEntry::Closed,
        _ => PathEntry::Other,
    }
}

/// The bytes of an entry that has some.
fn bytes_of(alloc: Global, entry: Option<PathEntry<'_>>) -> Option<Vec<u8>> {
    match entry {
        Some(PathEntry::Text(text)) => Vec::from_slice(alloc, text.as_bytes()).ok(),
        Some(PathEntry::Bytes(digits)) => Some(bytes_of_digits(alloc, digits)),
        _ => None,
    }
}

/// Adds the name of an entry of a folder.
fn add_name(alloc: Global, names: &mut Vec<String>, line: &str, dir: &str) {
    let (path, _) = line.split_once(' ').unwrap_or((line, ""));
    if let Some((folder, name)) = path.split_once('/') {
        if folder == dir {
            add_word(alloc, names, name);
        }
    }
}

impl Folders for MadeUp<'_> {
    type Stream = RowSource;

    ghost use Rattle.std.specs.Prelude.{false};
    ghost use Rattle.ctf_cli.specs.Files.{untold};

    ghost tells = { λ _. false };

    ghost holds = { λ _. untold };

    fn list(&self, alloc: Global, dir: &str) -> Result<Vec<String>, FolderFault> {
        let mut names = Vec::new(alloc);
        for line in self.table.lines() {
            add_name(alloc, &mut names, line, dir);
        }
        if names.is_empty() || self.at(dir).is_some() {
            return Err(FolderFault::Unreadable);
        }
        Ok(names)
    }

    fn read(&self, alloc: Global, path: &str, most: u64) -> Result<Vec<u8>, FolderFault> {
        let Some(mut bytes) = bytes_of(alloc, self.at(path)) else {
            return Err(FolderFault::Unreadable);
        };
        bytes.truncate(usize::try_from(most).unwrap_or(usize::MAX));
        Ok(bytes)
    }

    fn open(&self, alloc: Global, path: &str) -> Result<Option<RowSource>, FolderFault> {
        let entry = self.at(path);
        if let Some(PathEntry::Closed) = entry {
            return Err(FolderFault::Unreadable);
        }
        match bytes_of(alloc, entry) {
            Some(bytes) if !bytes.is_empty() => Ok(Some(RowSource::new(bytes, Manner::Whole))),
            _ => Ok(None),
        }
    }
}
