//! The program over made-up files and over those of `data/`, and its files read piece by piece.
//!
//! The table `files` has a made-up file in each line, `PATH KIND CONTENT`: `text` and its text, `bytes` and its bytes
//! in hexadecimal (`-` for none), `closed` where it can't be read or listed, `other` where it is no file.
//!
//! - `HELD OUT ERR WORD ..` is a command line over the made-up files: how many bytes of the log are held back, after
//!   how many bytes the log and the messages fail once (`-`: never; `hold`: when what is held back is passed on), and
//!   the words, of which `''` is the empty one.
//! - `disk WORD ..` is a command line over the folders of `data/` itself.
//! - `read BEFORE PATH` reads a file there, three bytes at a time, which is opened after BEFORE other files.
//! - `switch BEFORE PATH OTHER` reads two files there in turns, which are opened after BEFORE other files.
//!
//! After a row come the lines of the log, those of the messages and the status, or the text of the file; of two files
//! how many bytes each gave, and whether they are its own.

mod made_up;
mod turns;

use crate::manner::Manner;
use crate::row::Row;
use crate::sink::RowSink;
use crate::words::add_word;
use ctf_bits::{Source, ToWrite};
use ctf_cli::{Disk, Folders, LogWriter, program};
use made_up::MadeUp;
use std::alloc::Global;
use std::fs;
use turns::read_in_turns;

/// How many bytes of the log are held back where a row does not say it.
const HELD: usize = 65_536;

/// How many reads of three bytes are made at the most.
const MOST_READS: usize = 100;

/// How many bytes of the log are held back, and how the log and the messages are taken.
#[derive(Clone, Copy)]
struct Sides {
    held: usize,
    output: Manner,
    messages: Manner,
}

/// Puts what comes of a row.
pub fn put_row(rt: &HostRuntime, row: &mut Row<'_>) {
    match row.word() {
        "disk" => put_disk(rt, row),
        "read" => put_file(rt, row),
        "switch" => put_files(rt, row),
        held => put_made_up(rt, row, held),
    }
}

/// Puts what the program does over the file system.
fn put_disk(rt: &HostRuntime, row: &mut Row<'_>) {
    let disk = Disk::new(rt);
    let sides = Sides {
        held: 64,
        output: Manner::Whole,
        messages: Manner::Whole,
    };
    put_run(row, &&disk, sides);
}

/// Puts what the program does over made-up files.
fn put_made_up(rt: &HostRuntime, row: &mut Row<'_>, held: &str) {
    let sides = Sides {
        held: held.parse::<usize>().unwrap_or(HELD),
        output: manner_of(row.word()),
        messages: manner_of(row.word()),
    };
    if let Ok(table) = fs::read_to_string(rt, "files") {
        put_run(
            row,
            &MadeUp {
                table: table.as_str(),
            },
            sides,
        );
    }
}

/// A manner that fails once after the number of bytes that a word gives, that cannot pass on what is held back, or that
/// takes all.
fn manner_of(word: &str) -> Manner {
    match word.parse::<usize>() {
        Ok(count) => Manner::Once(count),
        Err(_) => {
            if word == "hold" {
                Manner::Hold
            } else {
                Manner::Whole
            }
        }
    }
}

/// Puts what the program does over folders.
fn put_run<F: Folders>(row: &mut Row<'_>, folders: &F, sides: Sides) {
    let log = RowSink::new(row.alloc, sides.output);
    if let Ok(log) = LogWriter::new(row.alloc, sides.held, log) {
        let mut log = log;
        let mut messages = ToWrite::new(RowSink::new(row.alloc, sides.messages));
        let words = words_of(row.alloc, row.words);
        let status = program(row.alloc, &words, folders, &mut log, &mut messages);
        row.put_lines(b"out: ", log.close().bytes());
        row.put_lines(b"err: ", messages.into_inner().bytes());
        row.put_number(b"status ", status as i128);
        row.put(b"\n");
    }
}

/// The words of a command line.
fn words_of(alloc: Global, line: &str) -> Vec<String> {
    let mut words = Vec::new(alloc);
    add_word(alloc, &mut words, "bt-ctf");
    for word in line.split(' ') {
        match word {
            "" => {}
            "''" => add_word(alloc, &mut words, ""),
            word => add_word(alloc, &mut words, word),
        }
    }
    words
}

/// Puts the text of a file, which is opened after as many other files as a word says.
fn put_file(rt: &HostRuntime, row: &mut Row<'_>) {
    let disk = Disk::new(rt);
    open_others(row, &&disk);
    put_stream(row, &&disk);
}

/// Opens as many files as a word says.
fn open_others<F: Folders>(row: &mut Row<'_>, folders: &F) {
    let count = row.word().parse::<usize>().unwrap_or(0);
    for _ in 0..count {
        let _ = folders.open(row.alloc, "digits");
    }
}

/// Puts what two files give that are read in turns, and are opened after as many other files as a word says.
fn put_files(rt: &HostRuntime, row: &mut Row<'_>) {
    let disk = Disk::new(rt);
    open_others(row, &&disk);
    let (path, other) = (row.word(), row.words);
    if let Some((bytes, others)) = read_in_turns(row.alloc, &&disk, path, other) {
        put_given(rt, row, path, &bytes);
        put_given(rt, row, other, &others);
    }
}

/// Puts how many bytes a file gave, and whether they are its own.
fn put_given(rt: &HostRuntime, row: &mut Row<'_>, path: &str, bytes: &[u8]) {
    row.put_number(b"", bytes.len() as i128);
    match fs::read(rt, path) {
        Ok(own) if own.as_slice() == bytes => row.put(b" bytes, those of the file\n"),
        _ => row.put(b" bytes, others\n"),
    }
}

/// Puts the text of a stream of some folders, or that there is none.
fn put_stream<F: Folders>(row: &mut Row<'_>, folders: &F) {
    match folders.open(row.alloc, row.words) {
        Ok(Some(stream)) => {
            let mut stream = stream;
            put_text(row, &mut stream);
        }
        Ok(None) => row.put(b"no stream\n"),
        Err(_) => row.put(b"cannot be opened\n"),
    }
}

/// Puts the text that a source gives.
fn put_text<S: Source>(row: &mut Row<'_>, source: &mut S) {
    let mut text = Row::new(row.alloc, "");
    for _ in 0..MOST_READS {
        if put_piece(&mut text, source) {
            break;
        }
    }
    row.put_lines(b"text: ", text.text());
}

/// Puts the next piece of a text, and answers whether that is the end.
fn put_piece<S: Source>(text: &mut Row<'_>, source: &mut S) -> bool {
    let mut piece = [0; 3];
    match source.take(&mut piece) {
        Ok(0) => true,
        Ok(count) => {
            text.put(&piece[..count]);
            false
        }
        Err(_) => {
            text.put(b"read failed");
            true
        }
    }
}
