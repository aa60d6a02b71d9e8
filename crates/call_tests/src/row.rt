//! A row of a table, and what comes of it.

use ctf_list::NoMemory;
use std::alloc::Global;
use std::fmt::Display;
use std::io::Write;

/// The words of a row, and the text of what comes of it. What is refused memory is missing there: so it is not the text
/// that is wanted.
#[derive(Drop)]
pub struct Row<'a> {
    pub alloc: Global,
    /// The words that are not taken yet, with one space between them.
    pub words: &'a str,
    text: Vec<u8>,
}

impl<'a> Row<'a> {
    /// A row of which nothing came yet.
    pub fn new(alloc: Global, words: &'a str) -> Row<'a> {
        Row {
            alloc,
            words,
            text: Vec::new(alloc),
        }
    }

    /// The next word, which is empty where none is left.
    pub fn word(&mut self) -> &'a str {
        let (word, rest) = self.words.split_once(' ').unwrap_or((self.words, ""));
        self.words = rest;
        word
    }

    /// The next word as a number of 64 bits; 0 where it is none.
    pub fn long(&mut self) -> u64 {
        self.word().parse::<u64>().unwrap_or(0)
    }

    /// The next word as a number of 32 bits; 0 where it is none.
    pub fn number(&mut self) -> u32 {
        self.word().parse::<u32>().unwrap_or(0)
    }

    /// The bytes that the next word names in hexadecimal; none where it names none.
    pub fn bytes(&mut self) -> Vec<u8> {
        bytes_of_digits(self.alloc, self.word())
    }

    /// Puts bytes.
    pub fn put(&mut self, bytes: &[u8]) {
        let _ = self.text.extend_from_slice(bytes);
    }

    /// Puts a text, and a number after it.
    pub fn put_number(&mut self, lead: &[u8], number: i128) {
        self.put(lead);
        let _ = write!(self.text, "{number}");
    }

    /// Puts a number, or `none`.
    pub fn put_optional(&mut self, number: Option<i128>) {
        match number {
            Some(number) => self.put_number(b"", number),
            None => self.put(b"none"),
        }
    }

    /// Puts what is printed for something.
    pub fn put_shown<T: Display>(&mut self, what: &T) {
        let _ = write!(self.text, "{what}");
    }

    /// Puts bytes in hexadecimal, each after a space.
    pub fn put_hexadecimal(&mut self, bytes: &[u8]) {
        for byte in bytes {
            let _ = write!(self.text, " {byte:02X}");
        }
    }

    /// Puts a byte as two hexadecimal digits.
    pub fn put_digits(&mut self, byte: u8) {
        let _ = write!(self.text, "{byte:02x}");
    }

    /// Puts a text, and after it whether something is so.
    pub fn put_answer(&mut self, lead: &[u8], is_so: bool) {
        self.put(lead);
        self.put(if is_so { b"true" } else { b"false" });
    }

    /// Puts a text that a call made.
    pub fn put_made(&mut self, made: Result<Vec<u8>, NoMemory>) {
        match made {
            Ok(text) => self.put(&text),
            Err(_) => self.put(b"no memory"),
        }
    }

    /// Puts a text to which a call appended.
    pub fn put_appended(&mut self, text: &[u8], appended: Result<(), NoMemory>) {
        match appended {
            Ok(()) => self.put(text),
            Err(_) => self.put(b"no memory"),
        }
    }

    /// What came of it.
    pub fn text(&self) -> &[u8] {
        &self.text
    }

    /// What came of it, by value.
    pub fn into_text(self) -> Vec<u8> {
        self.text
    }
}

/// The bytes that hexadecimal digits name; none where they name none.
pub fn bytes_of_digits(alloc: Global, digits: &str) -> Vec<u8> {
    hex::decode(alloc, digits).unwrap_or(Vec::new(alloc))
}

/// The bytes of a text, with those that are in hexadecimal between backquotes.
pub fn unquote(alloc: Global, text: &str) -> Vec<u8> {
    let mut bytes = Row::new(alloc, "");
    let mut is_text = true;
    for part in text.split('`') {
        if is_text {
            bytes.put(part.as_bytes());
        } else {
            bytes.put(&bytes_of_digits(alloc, part));
        }
        is_text = !is_text;
    }
    bytes.into_text()
}
