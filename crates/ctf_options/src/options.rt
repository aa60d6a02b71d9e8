//! What the words of a command line ask for.

use ctf_clock::Shift;
use ctf_list::{List, Text};
use ctf_timestamp::{Style, Trim};

/// What the words of a command line ask for.
#[derive(Drop)]
pub struct Options {
    /// The folders that hold the traces, 1 to 1,024 of them.
    pub dirs: List<Text>,
    /// Which times are printed: the beginning is not after the end.
    pub trim: Trim,
    /// How times are printed.
    pub style: Style,
    /// What is added to each time.
    pub shift: Shift,
}
