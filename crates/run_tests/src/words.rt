//! The words of a row.

use crate::manner::{Manner, manner_of};
use std::alloc::Global;

/// What a word of a row is.
#[derive(Clone, Copy)]
pub enum RowWord<'a> {
    /// A word of the command line.
    Option(&'a str),
    /// A side, and how bytes are given or taken there.
    Manner(&'a str, Manner),
    /// The name of a trace, and what stands for its metadata.
    Trace(&'a str, &'a str),
    Stream(&'a str),
}

/// What a word is.
pub fn word_of(word: &str) -> RowWord<'_> {
    if word.starts_with("--") {
        return RowWord::Option(word);
    }
    match (word.split_once('='), word.split_once(':')) {
        (Some((side, manner)), _) => RowWord::Manner(side, manner_of(manner)),
        (None, Some((name, metadata))) => RowWord::Trace(name, metadata),
        (None, None) => RowWord::Stream(word),
    }
}

/// The words of a command line with options and folders, one for each trace.
pub fn command_of(alloc: Global, line: &str) -> Vec<String> {
    let mut words = Vec::new(alloc);
    add_word(alloc, &mut words, "bt-ctf");
    for word in line.split(' ') {
        match word_of(word) {
            RowWord::Option(word) | RowWord::Trace(word, _) => add_word(alloc, &mut words, word),
            _ => {}
        }
    }
    words
}

/// Adds a word, where `_` stands for a space.
pub fn add_word(alloc: Global, words: &mut Vec<String>, word: &str) {
    if let Ok(word) = word.replace(alloc, "_", " ") {
        let _ = words.push(word);
    }
}
