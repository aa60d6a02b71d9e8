//! Bytes of a packet's header and context.

ghost use Rattle.std.specs.Prelude.{◌≡◌, ◌+◌, ◌*◌, ◌/◌, ◌≤◌, ◌<◌, min, max, length, IsTrue, IfErr, OnOk};
ghost use Rattle.ctf_packet.specs.Scopes.{longest};
ghost use Rattle.ctf_packet.specs.declared.fault.StreamFault.TheVariants.{NoMemory};
ghost use Rattle.ctf_fetch.specs.Fetching.{longest_bytes};
ghost use Rattle.ctf_fetch.specs.Openings.{TakesMore};
ghost use Rattle.ctf_fetch.specs.Keeping.{Keeps};

use crate::buffer::Filled;
use crate::intake::Intake;
use ctf_bits::Source;
use ctf_packet::{LONGEST_PACKET, StreamFault, cut_short};

/// Takes the bytes of a packet up to a bit that its header or context reaches.
#[inline(never)]
pub(crate) fn fill_front<S: Source>(
    intake: &mut Intake<'_, S>,
    bits: u128,
) -> Result<(), StreamFault>
    requires beyond { min (8 * length intake.old.buffer.now) longest < bits }
    ensures keeps { Keeps S.Source intake.old intake.new }
    ensures takes { IsTrue (S.tells intake.old.source.now) →
        TakesMore (S.ending intake.old.source.now) bits intake.new.buffer.now
        (S.left intake.new.source.now) result }
    ensures bits { OnOk result (length intake.new.buffer.now ≡ (bits + 7) / 8) }
    ensures bounded { OnOk result (bits ≤ longest) }
    ensures few { length intake.old.buffer.now ≤ longest_bytes →
        length intake.new.buffer.now ≤ longest_bytes }
{
    if bits > u128::from(LONGEST_PACKET) {
        return Err(StreamFault::ImpossibleSizes);
    }
    let bytes = (bits as usize).div_ceil(8);
    match intake.fill(bytes)? {
        Filled::Whole => Ok(()),
        Filled::Ended(ending) => Err(cut_short(ending)),
    }
}

/// Takes the bytes of a packet up to a bit that its header or context reaches at least, as far as its stream has them.
#[inline(never)]
pub(crate) fn fill_ahead<S: Source>(intake: &mut Intake<'_, S>, end: u64) -> Result<(), StreamFault>
    requires end { end ≤ longest }
    requires few { length intake.old.buffer.now ≤ longest_bytes }
    ensures keeps { Keeps S.Source intake.old intake.new }
    ensures few { length intake.new.buffer.now ≤ longest_bytes }
    ensures near { 8 * length intake.new.buffer.now ≤
        max (8 * length intake.old.buffer.now) (end + 7) }
    ensures refused { IfErr result (λ fault. fault ≡ NoMemory) }
{
    let bytes = (end as usize).div_ceil(8);
    if bytes > intake.len() {
        intake.fill(bytes)?;
    }
    Ok(())
}
