//! What a session reads.

use ctf_class::TraceClass;

/// The streams of a trace, each with the name that is shown, and the class that its metadata denotes.
#[derive(Drop)]
pub struct Streams<'a, S> {
    pub class: &'a TraceClass,
    pub streams: Vec<(String, S)>,
}
