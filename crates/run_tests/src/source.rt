//! Where the bytes of a row's streams come from.

ghost use Rattle.std.specs.Prelude.{[], false};
ghost use Rattle.ctf_bits.specs.declared.source.Ending.TheVariants.{Clean};

use crate::manner::Manner;
use ctf_bits::{Source, SourceFault};

/// Bytes that come as a row says it.
#[derive(Drop)]
pub struct RowSource {
    bytes: Vec<u8>,
    /// How many bytes it has given.
    given: usize,
    /// How many bytes it gives at a call, at the most.
    piece: usize,
    /// How many bytes it gives before it fails.
    room: usize,
}

impl RowSource {
    pub fn new(bytes: Vec<u8>, manner: Manner) -> RowSource {
        let (piece, room) = match manner {
            Manner::Drip(count) => (count.max(1), usize::MAX),
            Manner::Fail(count) => (usize::MAX, count.min(bytes.len())),
            _ => (usize::MAX, usize::MAX),
        };
        RowSource {
            bytes,
            given: 0,
            piece,
            room,
        }
    }

    /// How many bytes it has given.
    pub fn given(&self) -> usize {
        self.given
    }
}

impl Source for RowSource {
    ghost tells = { λ _. false };

    ghost left = { λ _. [] };

    ghost ending = { λ _. Clean };

    fn take(&mut self, buf: &mut [u8]) -> Result<usize, SourceFault> {
        if self.room == 0 {
            return Err(SourceFault::ReadFailed);
        }
        let left = self.bytes.get(self.given..).unwrap_or(&[]);
        let count = buf.len().min(left.len()).min(self.piece).min(self.room);
        buf[..count].copy_from_slice(&left[..count]);
        self.given = self.given.saturating_add(count);
        self.room -= count;
        Ok(count)
    }
}
