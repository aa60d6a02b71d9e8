//! A sink that takes a few bytes at a time.

ghost use Rattle.std.specs.Prelude.{◌≡◌, ◌≤◌, ◌<◌, [], true, length, max, min, IfOk};
ghost use Rattle.ctf_bits.specs.Putting.{accepted_after, failures_after, refusals_after};

use crate::sink::{Sink, SinkFault};
use std::alloc::Global;

/// Takes at most a stated count of bytes at a call, and never fails where there is memory.
#[derive(Drop)]
pub struct DripSink {
    bytes: Vec<u8>,
    piece: usize,
    refusals: u64,
    ghost some: { 1 ≤ piece },
}

impl DripSink {
    ghost use Rattle.ctf_bits.specs.DripSink.{piece_of};

    /// A sink that has taken nothing, and takes at most `piece` bytes at a call, or one where that is 0.
    pub fn new(alloc: Global, piece: usize) -> Self
        ensures accepted { ⟦<DripSink as Sink>⟧.accepted result ≡ [] }
        ensures refusals { ⟦<DripSink as Sink>⟧.refusals result ≡ 0 }
        ensures piece { piece_of result ≡ max 1 piece }
    {
        DripSink {
            bytes: Vec::new(alloc),
            piece: piece.max(1),
            refusals: 0,
        }
    }

    /// The bytes accepted.
    pub fn bytes(&self) -> &[u8]
        ensures { result.now ≡ ⟦<DripSink as Sink>⟧.accepted self.now }
    {
        &self.bytes
    }
}

impl Sink for DripSink {
    ghost use Rattle.ctf_bits.specs.DripSink.{accepted_of, refusals_of, piece_of};

    ghost tells = { λ _. true };

    ghost accepted = { λ sink. accepted_of sink };

    ghost failures = { λ _. 0 };

    ghost refusals = { λ sink. refusals_of sink };

    fn put(&mut self, bytes: &[u8]) -> Result<usize, SinkFault>
        requires { 0 < length bytes.now }
        ensures some { IfOk result (λ count. 0 < count) }
        ensures bound { IfOk result (λ count. count ≤ length bytes.now) }
        ensures appends { ⟦<DripSink as Sink>⟧.accepted self.new ≡
            accepted_after result (⟦<DripSink as Sink>⟧.accepted self.old) bytes.now }
        ensures failed { ⟦<DripSink as Sink>⟧.failures self.new ≡
            failures_after result (⟦<DripSink as Sink>⟧.failures self.old) }
        ensures refused { ⟦<DripSink as Sink>⟧.refusals self.new ≡
            refusals_after result (⟦<DripSink as Sink>⟧.refusals self.old) }

        // It takes a part where the piece is longer than its count.
        ensures part { IfOk result (λ count. count ≡ min (length bytes.now) (piece_of self.old)) }
        ensures piece { piece_of self.new ≡ piece_of self.old }
    {
        let count = bytes.len().min(self.piece);
        match self.bytes.extend_from_slice(&bytes[..count]) {
            Ok(()) => Ok(count),
            Err(_) => {
                self.refusals = self.refusals.saturating_add(1);
                Err(SinkFault::NoMemory)
            }
        }
    }
}
