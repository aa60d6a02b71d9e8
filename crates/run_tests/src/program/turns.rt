//! Files that are read in turns.

use ctf_bits::Source;
use ctf_cli::Folders;
use std::alloc::Global;

/// How many bytes are read at once. So many reads are small ones, after which more is read ahead.
const PIECE: usize = 64;

/// How often each file is read at the most.
const MOST_TURNS: usize = 200;

/// What two files of some folders give whose bytes are read in turns, if they can be opened.
pub fn read_in_turns<F: Folders>(
    alloc: Global,
    folders: &F,
    path: &str,
    other: &str,
) -> Option<(Vec<u8>, Vec<u8>)> {
    let (Ok(Some(first)), Ok(Some(second))) = (
        folders.open(alloc, path),
        folders.open(alloc, other),
    ) else {
        return None;
    };
    let (mut first, mut second) = (first, second);
    let (mut bytes, mut others) = (Vec::new(alloc), Vec::new(alloc));
    for _ in 0..MOST_TURNS {
        read_piece(&mut first, &mut bytes);
        read_piece(&mut second, &mut others);
    }
    Some((bytes, others))
}

/// Adds the next bytes of a file to those that it gave; none at its end and where it can't be read.
fn read_piece<S: Source>(source: &mut S, bytes: &mut Vec<u8>) {
    let mut piece = [0; PIECE];
    if let Ok(count) = source.take(&mut piece) {
        let _ = bytes.extend_from_slice(&piece[..count]);
    }
}
