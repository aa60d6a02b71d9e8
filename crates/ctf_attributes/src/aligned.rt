//! Alignments of structures.

ghost use Rattle.std.specs.Prelude.{◌≡◌, not, unwrap_or};
ghost use Rattle.ctf_meaning.specs.declared.fault.ResolveFault.TheVariants as faults;
ghost use Rattle.ctf_meaning.specs.Settings.{when};
ghost use Rattle.ctf_meaning.specs.Integers.{is_alignment};
ghost use Rattle.ctf_meaning.specs.Own.{structure_faults};
ghost use Rattle.ctf_attributes.specs.Tells.{TellsFirst};

use ctf_class::Align;
use ctf_meaning::ResolveFault;

/// The alignment of a structure with this `align(N)`, in bits: 1 where it has none (CTF 1.8.3, sections
/// 4.1.2 and 4.2.1). It fails with `SizeOrAlignment` where N is no power of two from 1 to 2^31.
pub fn alignment(align: Option<u64>) -> Result<Align, ResolveFault>
    ensures told { TellsFirst (structure_faults align) (λ bits. bits ≡ unwrap_or align 1) result }
{
    alignment_of(align.unwrap_or(1))
}

/// The alignment of so many bits.
pub fn alignment_of(bits: u64) -> Result<Align, ResolveFault>
    ensures told { TellsFirst (when (not (is_alignment bits)) faults.SizeOrAlignment)
        (λ align. align ≡ bits) result }
{
    Align::new(bits).ok_or(ResolveFault::SizeOrAlignment)
}
