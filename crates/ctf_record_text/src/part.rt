//! The text that the lines of a packet share.

ghost use Rattle.std.specs.Prelude.{◌≡◌, [], option_map, option_copied, OnOk};
ghost use Rattle.ctf_decode.specs.Views.{val};
ghost use Rattle.ctf_format.specs.Lines.{packet_part};

use ctf_class::FrontClass;
use ctf_decode::Value;
use ctf_format::put_packet_part;
use ctf_list::NoMemory;
use std::alloc::Global;
use std::marker::Model;

/// The part that the lines of a packet's event records share, in memory that is kept from packet to packet.
/// Contracts see its text.
#[derive(Drop)]
pub struct PacketPart {
    /// After the text come unspecified bytes.
    bytes: Vec<u8>,
    end: usize,
}

impl Model for PacketPart {
    ghost use Rattle.std.specs.Prelude.{ℕ, List, take, ◌≤◌, length};

    ghost Value = { List ℕ };

    ghost view = { λ part. take part.end part.bytes.items };

    ghost invariant = { λ part. part.end ≤ length part.bytes.items };
}

impl PacketPart {
    /// A part without text. No memory is taken.
    pub fn new(alloc: Global) -> PacketPart
        ensures { result ≡ [] }
    {
        PacketPart {
            bytes: Vec::new(alloc),
            end: 0,
        }
    }

    /// Makes the text of a packet context (CTF 1.8.3, section 5.2) in place of the one before.
    ///
    /// It fails where an allocation fails, and the text is then unspecified.
    pub fn make(
        &mut self,
        class: Option<&FrontClass>,
        context: Option<&Value>,
    ) -> Result<(), NoMemory>
        ensures { OnOk result (self.new ≡
            packet_part (option_copied class.entry)
            (option_map val (option_copied context.entry))) }
    {
        self.end = 0;
        self.end = put_packet_part(class, context, &mut self.bytes, 0)?;
        Ok(())
    }

    /// The text of the part.
    pub fn as_slice(&self) -> &[u8]
        ensures { result.now ≡ self.now }
    {
        &self.bytes[..self.end]
    }
}
