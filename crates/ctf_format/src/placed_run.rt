//! Runs of a record's plan in a packet.

ghost use Rattle.std.specs.Prelude.{◌≡◌, ◌+◌, ◌-◌, ◌/◌, ◌≤◌, length};
ghost use Rattle.std.specs.List.{All};
ghost use Rattle.ctf_class.specs.Records.{have_special};
ghost use Rattle.ctf_format.specs.RunNumbers.{IsPlaced};

use crate::content::Content;
use ctf_class::PlannedRun;

/// A run of a packet, and where its numbers end, in bits from the packet's first one.
#[derive(Clone, Copy)]
pub(crate) struct PlacedRun<'a> {
    pub(crate) run: &'a PlannedRun,
    pub(crate) packet: &'a Content<'a>,
    pub(crate) end: u64,
    ghost begun: { run.now.span ≤ end },
    ghost held: { All (λ n. (end - run.now.span) / 8 + n.window.place / 8 + 8 ≤
        length packet.now.bytes.now) run.now.numbers },
    ghost within: { end ≤ packet.now.end },
    ghost placed: { All IsPlaced run.now.numbers },
    ghost special: { run.now.has_special ≡ have_special run.now.numbers },
}
