//! Texts that are kept as they are printed.

ghost use Rattle.std.specs.Prelude.{◌≡◌, ℕ, ◌+◌, ◌*◌, ◌^◌, ◌++◌, ◌≤◌, length, take, drop, get_or, IfOk};
ghost use Rattle.std.specs.Int.{w64, to_le_bytes};
ghost use Rattle.std.specs.List.{flat_map};

use crate::shared_words::SharedWords;
use crate::words::words_of;
use ctf_list::NoMemory;
use std::alloc::{AllocError, Global};
use std::marker::Model;

/// How many bytes of a prepared text are written whatever its length is. A line needs so much room after the text.
pub const PREPARED_HEAD: usize = 24;

/// A text in words of eight bytes, so that it is written by whole words. The first three are in it, so that a
/// short text is written at once: no jump depends on its length. Contracts see its bytes.
#[derive(Drop)]
pub struct PreparedText {
    /// Eight bytes each, the first of them in the lowest bits, filled up with zeros.
    first: u64,
    second: u64,
    third: u64,
    /// The words after these, which copies share; the last one is filled up.
    rest: SharedWords,
    length: usize,
}

impl Model for PreparedText {
    ghost use Rattle.std.specs.Prelude.{List, ℕ, ◌+◌, ◌*◌, ◌^◌, ◌≤◌, ◌∷◌, length as length_of};
    ghost use Rattle.std.specs.Coded.{coded_list, coded_ℕ};
    ghost use Rattle.ctf_class.specs.Words.{first_bytes};

    ghost Value = { List ℕ };

    ghost coded = { coded_list coded_ℕ };

    ghost view = { λ ready.
        first_bytes (ready.first ∷ ready.second ∷ ready.third ∷ ready.rest) ready.length };

    ghost invariant = { λ ready. (ready.length ≤ 8 * (3 + length_of ready.rest))
        × (8 * length_of ready.rest ≤ ready.length) × (ready.length ≤ 2 ^ 63) };
}

impl PreparedText {
    /// A text, ready to be written.
    pub fn new(alloc: Global, text: &[u8]) -> Result<PreparedText, NoMemory>
        ensures { IfOk result (λ ready. ready ≡ text.now) }
    {
        let words = words_of(alloc, text)?;
        let rest = SharedWords::from_slice(alloc, after_head(&words))?;
        Ok(PreparedText {
            first: word_at(&words, 0),
            second: word_at(&words, 1),
            third: word_at(&words, 2),
            rest,
            length: text.len(),
        })
    }

    /// How many bytes the text has.
    pub fn len(&self) -> usize
        ensures is { result ≡ length self.now }
        ensures bounded { result ≤ 2 ^ 63 }
    {
        self.length
    }

    /// Writes the text at an index of a line that has room for it and for `PREPARED_HEAD` bytes more, and gives the
    /// index after it. What is after it in the line is unspecified.
    #[inline(always)]
    pub fn put(&self, line: &mut [u8], at: usize) -> usize
        requires { at + length self.now + PREPARED_HEAD ≤ length line.old }
        ensures end { result ≡ at + length self.now }
        ensures text { take result line.new ≡ take at line.old ++ self.now }
    {
        if self.length > PREPARED_HEAD {
            return self.put_long(line, at);
        }
        self.put_head(line, at);
        at + self.length
    }

    /// Writes a text that is longer than the words that are in it.
    #[inline(never)]
    fn put_long(&self, line: &mut [u8], at: usize) -> usize
        requires long { PREPARED_HEAD ≤ length self.now }
        requires room { at + length self.now + PREPARED_HEAD ≤ length line.old }
        ensures end { result ≡ at + length self.now }
        ensures text { take result line.new ≡ take at line.old ++ self.now }
    {
        self.put_head(line, at);
        put_each(self.rest.as_slice(), line, at + PREPARED_HEAD);
        at + self.length
    }

    /// Writes the words that are in it. All are read before the first is written, so that two go at once.
    #[inline(always)]
    fn put_head(&self, line: &mut [u8], at: usize)
        requires { at + PREPARED_HEAD ≤ length line.old }
        ensures length { length line.new ≡ length line.old }
        ensures text { (n : ℕ) → n ≤ PREPARED_HEAD → n ≤ length self.now →
            take (at + n) line.new ≡ take at line.old ++ take n self.now }
    {
        let (first, second, third) = (self.first, self.second, self.third);
        put_word(line, at, first);
        put_word(line, at + 8, second);
        put_word(line, at + 16, third);
    }
}

impl Clone for PreparedText {
    ghost is_clone = { λ ready other. other ≡ ready };

    fn clone(&self) -> Result<PreparedText, AllocError> {
        let rest = self.rest.clone()?;
        Ok(PreparedText {
            first: self.first,
            second: self.second,
            third: self.third,
            rest,
            length: self.length,
        })
    }
}

/// A word, or zeros where there are fewer words.
fn word_at(words: &[u64], i: usize) -> u64
    ensures { result ≡ get_or words.now i 0 }
{
    words.get(i).copied().unwrap_or(0)
}

/// The words after the first three.
fn after_head(words: &[u64]) -> &[u64]
    ensures { result.now ≡ drop 3 words.now }
{
    &words[words.len().min(3)..]
}

/// Writes the bytes of words.
#[inline(never)]
fn put_each(words: &[u64], line: &mut [u8], at: usize)
    requires { at + 8 * length words.now ≤ length line.old }
    ensures { take (at + 8 * length words.now) line.new ≡ take at line.old ++ flat_map
        (to_le_bytes w64) words.now }
{
    let mut to = at;
    for word in words {
        put_word(line, to, *word);
        to += 8;
    }
}

/// Writes the bytes of a word, the lowest first.
#[inline(always)]
fn put_word(line: &mut [u8], at: usize, word: u64)
    requires { at + 8 ≤ length line.old }
    ensures { take (at + 8) line.new ≡ take at line.old ++ to_le_bytes w64 word }
{
    let bytes = word.to_le_bytes();
    line[at] = bytes[0];
    line[at + 1] = bytes[1];
    line[at + 2] = bytes[2];
    line[at + 3] = bytes[3];
    line[at + 4] = bytes[4];
    line[at + 5] = bytes[5];
    line[at + 6] = bytes[6];
    line[at + 7] = bytes[7];
}
