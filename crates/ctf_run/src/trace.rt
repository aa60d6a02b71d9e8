//! What a run reads.

/// A trace: what it is called, the bytes of its metadata, and its streams, each with the name of its file.
#[derive(Drop)]
pub struct Trace<S> {
    pub name: String,
    pub metadata: Vec<u8>,
    pub streams: Vec<(String, S)>,
}
