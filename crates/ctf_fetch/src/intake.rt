//! The bytes of a packet and the source that they come out of.

ghost use Rattle.std.specs.Prelude.{◌≡◌, ◌≤◌, length, IsTrue, IfErr};
ghost use Rattle.ctf_packet.specs.declared.fault.StreamFault.TheVariants.{NoMemory};
ghost use Rattle.ctf_fetch.specs.Filling.{Fills, Counts};
ghost use Rattle.ctf_fetch.specs.Keeping.{Keeps};

use crate::buffer::{Buffer, Filled};
use ctf_bits::Source;
use ctf_packet::StreamFault;

/// The bytes of a packet that came so far, and the source that gives those after them.
#[derive(Drop)]
pub(crate) struct Intake<'s, S: Source> {
    pub(crate) source: &'s mut S,
    pub(crate) buffer: &'s mut Buffer,
}

impl<'s, S: Source> Intake<'s, S> {
    /// The bytes that came.
    pub(crate) fn as_slice(&self) -> &[u8]
        ensures { result.now ≡ self.now.buffer.now }
    {
        self.buffer.as_slice()
    }

    /// How many bytes came.
    pub(crate) fn len(&self) -> usize
        ensures { result ≡ length self.now.buffer.now }
    {
        self.buffer.len()
    }

    /// Takes bytes of the source until there are `target`, or it ends.
    #[inline(always)]
    pub(crate) fn fill(&mut self, target: usize) -> Result<Filled, StreamFault>
        requires { length self.old.buffer.now ≤ target }
        ensures keeps { Keeps S.Source self.old self.new }
        ensures fills { IsTrue (S.tells self.old.source.now) →
            Fills (S.ending self.old.source.now) (S.left self.new.source.now) result }
        ensures counts { Counts target (length self.new.buffer.now) result }
        ensures bounded { length self.new.buffer.now ≤ target }
        ensures refused { IfErr result (λ fault. fault ≡ NoMemory) }
    {
        self.buffer.fill(self.source, target)
    }
}
