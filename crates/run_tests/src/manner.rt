//! How bytes are given and taken.

use crate::words::{RowWord, word_of};

/// How bytes are given or taken.
#[derive(Clone, Copy)]
pub enum Manner {
    Whole,
    /// At most so many bytes at a call.
    Drip(usize),
    /// So many bytes, and then a failure.
    Fail(usize),
    /// So many bytes, then one failure, and then all.
    Once(usize),
    /// No memory at the call of this number, from 1.
    Refuse(usize),
    /// All, but what is held back cannot be passed on.
    Hold,
}

/// How streams give their bytes, and how the output and the messages are taken.
#[derive(Clone, Copy)]
pub struct Manners {
    pub input: Manner,
    pub output: Manner,
    pub messages: Manner,
}

impl Manners {
    /// Sets how bytes are given or taken on a side.
    fn set(&mut self, side: &str, manner: Manner) {
        match side {
            "in" => self.input = manner,
            "out" => self.output = manner,
            "err" => self.messages = manner,
            _ => {
                self.output = manner;
                self.messages = manner;
            }
        }
    }
}

/// The manners that the words of a line name.
pub fn manners_of(line: &str) -> Manners {
    let mut manners = Manners {
        input: Manner::Whole,
        output: Manner::Whole,
        messages: Manner::Whole,
    };
    for word in line.split(' ') {
        if let RowWord::Manner(side, manner) = word_of(word) {
            manners.set(side, manner);
        }
    }
    manners
}

/// The manner of a word `NAME:COUNT`.
pub fn manner_of(word: &str) -> Manner {
    let (name, count) = word.split_once(':').unwrap_or((word, ""));
    let count = count.parse::<usize>().unwrap_or(0);
    match name {
        "drip" => Manner::Drip(count),
        "fail" => Manner::Fail(count),
        "once" => Manner::Once(count),
        "refuse" => Manner::Refuse(count),
        _ => Manner::Whole,
    }
}
