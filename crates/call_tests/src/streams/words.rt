//! What is asked of what reads streams.

use crate::files::is_stream;
use crate::source::Manner;

/// What a reader or a merge is asked for.
#[derive(Clone, Copy)]
pub enum ReaderCall {
    /// `go_on`.
    On,
    /// `next`.
    Next,
    /// `leave`, where there is a current item, else `go_on`.
    Leave,
}

/// What is shown of an event record beside its class and its moment.
#[derive(Clone, Copy)]
pub enum RecordDetail {
    Nothing,
    /// The values of its scopes.
    Values,
    /// The text that the lines of its packet share.
    Part,
}

/// How streams give their bytes, and what is asked of what reads them.
#[derive(Clone, Copy)]
pub struct Asked {
    pub input: Manner,
    /// Nanoseconds that are added to each time.
    pub shift: i64,
    /// Whether event records are read as texts where they can be.
    pub writes: bool,
    /// The time from which on texts are needed, if it is given, in nanoseconds since the epoch.
    pub begin: Option<i64>,
    pub shown: RecordDetail,
    /// The steps of the row, and then the last one again.
    steps: [ReaderCall; 3],
    count: usize,
}

impl Asked {
    /// The step of this number, from 0.
    pub fn step(&self, number: usize) -> ReaderCall {
        self.steps[number.min(2)]
    }

    /// Adds a step.
    fn add(&mut self, step: ReaderCall) {
        for place in self.count..3 {
            self.steps[place] = step;
        }
        self.count = self.count.saturating_add(1);
    }

    /// Asks for what a word says.
    fn ask(&mut self, word: &str) {
        match word {
            "writing" => self.writes = true,
            "values" => self.shown = RecordDetail::Values,
            "part" => self.shown = RecordDetail::Part,
            "on" => self.add(ReaderCall::On),
            "next" => self.add(ReaderCall::Next),
            "leave" => self.add(ReaderCall::Leave),
            _ => self.set(word),
        }
    }

    /// Asks for texts from a time on.
    fn write_from(&mut self, begin: i64) {
        self.writes = true;
        self.begin = Some(begin);
    }

    /// Sets how bytes are given, or what is added to each time.
    fn set(&mut self, word: &str) {
        let (name, number) = word.rsplit_once([':', '=']).unwrap_or((word, ""));
        match name {
            "in=drip" => self.input = Manner::Drip(number.parse::<usize>().unwrap_or(0)),
            "in=fail" => self.input = Manner::Fail(number.parse::<usize>().unwrap_or(0)),
            "writing" => self.write_from(number.parse::<i64>().unwrap_or(0)),
            _ => self.shift = number.parse::<i64>().unwrap_or(0),
        }
    }
}

/// What words ask for.
pub fn asked_of(words: &str) -> Asked {
    let mut asked = Asked {
        input: Manner::Whole,
        shift: 0,
        writes: false,
        begin: None,
        shown: RecordDetail::Nothing,
        steps: [ReaderCall::On; 3],
        count: 0,
    };
    for word in words.split(' ') {
        if !is_stream(word) {
            asked.ask(word);
        }
    }
    asked
}
