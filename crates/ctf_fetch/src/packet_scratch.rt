//! What a packet leaves for the next one.

ghost use Rattle.std.specs.Prelude.{Option};
ghost use Rattle.ctf_class.specs.declared.trace.TraceClass.{TraceClass};
ghost use Rattle.ctf_decode.specs.Values.{Val};
ghost use Rattle.ctf_fetch.specs.Headers.{KnowsHeader};

use crate::known_header::KnownHeader;
use ctf_decode::Value;

/// What the packets of a stream leave for the next one: memory for the values of its header and context, in which the
/// values mean nothing, and a header that the next packets mostly have too.
#[derive(Drop)]
pub struct PacketScratch<'a> {
    pub(crate) header: Value,
    pub(crate) context: Value,
    pub(crate) known: Option<KnownHeader<'a>>,
    /// Whether the packet's header and context are long, or have many values.
    pub(crate) is_large: bool,
}

impl<'a> PacketScratch<'a> {
    /// Scratch without memory, by which no header is known. Nothing is allocated.
    pub fn new() -> PacketScratch<'a>
        ensures { (trace : TraceClass) (value : Option Val) → KnowsHeader trace result value }
    {
        PacketScratch {
            header: Value::Unsigned(0),
            context: Value::Unsigned(0),
            known: None,
            is_large: false,
        }
    }
}
