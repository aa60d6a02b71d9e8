//! Whole texts to a sink.

ghost use Rattle.std.specs.Prelude.{◌≡◌, ◌++◌, IsTrue, OnOk, OnErr};
ghost use Rattle.ctf_session.specs.Writing.{WritesPart};
ghost use Rattle.ctf_session.specs.Putting.{failures_put, refusals_put};

use ctf_bits::{Sink, SinkFault};

/// Puts all of the text, or a beginning of it at a fault. A fault is counted once, and nothing else is.
pub fn put_all<W: Sink>(sink: &mut W, text: &[u8]) -> Result<(), SinkFault>
    ensures stays { IsTrue (W.tells sink.old) → IsTrue (W.tells sink.new) }
    ensures all { IsTrue (W.tells sink.old) →
        OnOk result (W.accepted sink.new ≡ W.accepted sink.old ++ text.now) }
    ensures part { IsTrue (W.tells sink.old) →
        OnErr result (WritesPart (W.accepted sink.old) (W.accepted sink.new) text.now) }
    ensures failed { W.failures sink.new ≡ failures_put result (W.failures sink.old) }
    ensures refused { W.refusals sink.new ≡ refusals_put result (W.refusals sink.old) }
{
    let mut rest = text;
    while !rest.is_empty() {
        let count = sink.put(rest)?;
        let (_, after) = rest.split_at(count);
        rest = after;
    }
    Ok(())
}
