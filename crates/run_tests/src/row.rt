//! A row of a table, and what comes of it.

use std::alloc::Global;
use std::io::Write;

/// The words of a row, and the text of what comes of it. What is refused memory is missing there: so it is not the text
/// that is wanted.
#[derive(Drop)]
pub struct Row<'a> {
    pub alloc: Global,
    /// The words that are not taken yet, with one space between them.
    pub words: &'a str,
    text: Vec<u8>,
}

impl<'a> Row<'a> {
    /// A row of which nothing came yet.
    pub fn new(alloc: Global, words: &'a str) -> Row<'a> {
        Row {
            alloc,
            words,
            text: Vec::new(alloc),
        }
    }

    /// The next word, which is empty where none is left.
    pub fn word(&mut self) -> &'a str {
        let (word, rest) = self.words.split_once(' ').unwrap_or((self.words, ""));
        self.words = rest;
        word
    }

    /// Puts bytes.
    pub fn put(&mut self, bytes: &[u8]) {
        let _ = self.text.extend_from_slice(bytes);
    }

    /// Puts a text, and a number after it.
    pub fn put_number(&mut self, lead: &[u8], number: i128) {
        self.put(lead);
        let _ = write!(self.text, "{number}");
    }

    /// Puts a line after a mark.
    pub fn put_line(&mut self, mark: &[u8], line: &[u8]) {
        self.put(mark);
        self.put(line);
        self.put(b"\n");
    }

    /// Puts each line of a text after a mark.
    pub fn put_lines(&mut self, mark: &[u8], text: &[u8]) {
        let mut begins = true;
        for byte in text {
            if begins {
                self.put(mark);
            }
            self.put(&[*byte]);
            begins = *byte == b'\n';
        }
        if !begins {
            self.put(b"\n");
        }
    }

    /// What came of it.
    pub fn text(&self) -> &[u8] {
        &self.text
    }

    /// What came of it, by value.
    pub fn into_text(self) -> Vec<u8> {
        self.text
    }
}
