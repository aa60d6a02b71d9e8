//! The program, over any folders and any sinks: words of a command line, traces in folders, a log and messages.
#![tactic(auto)]

mod disk;
mod folders;
mod held;
mod log_writer;
mod opening;
mod printing;
mod read_ahead;
mod runtime;

pub use ctf_bits::{FromRead, Sink, SinkFault, SliceSource, Source, SourceFault, ToWrite, VecSink};
pub use ctf_class::{Class, EventClass, Kind, Member, Scope, StreamClass, TraceClass, escaped};
pub use ctf_clock::{Moment, Shift};
pub use ctf_decode::Value;
pub use ctf_list::{List, NoMemory, Text};
pub use ctf_log::{Printer, line};
pub use ctf_merge::Merge;
pub use ctf_options::{Options, Usage, options_of, stream_names};
pub use ctf_packet::StreamFault;
pub use ctf_run::{
    LoadFault, Log, MergeFault, Outcome, RunFault, Session, Step, Streams, Trace, io_line, load,
    run,
};
pub use ctf_stream::{
    CurrentItem, Event, EventText, Gap, Item, OwnedEvent, OwnedGap, OwnedItem, StreamReader,
};
pub use ctf_timestamp::{ClockStyle, Style, Trim, Verdict, Zone};
pub use disk::{Disk, DiskStream};
pub use folders::{FolderFault, Folders};
pub use log_writer::LogWriter;
pub use opening::{OpeningFault, open_traces};
pub use printing::program;
pub use runtime::start;
