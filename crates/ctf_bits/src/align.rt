//! Places that an alignment allows.

ghost use Rattle.std.specs.Prelude.{◌≡◌, ◌^◌, ◌<◌, ◌≤◌};
ghost use Rattle.std.specs.Int.{next_multiple_of};
ghost use Rattle.ctf_bits.specs.Align.{IsLeastMultiple};

/// The least multiple of `a` that is not below `p`, both in bits: where a field of the alignment `a`
/// begins, the bits before `p` being taken (CTF 1.8.3, section 4.1.2).
pub fn up(p: u64, a: u64) -> u64
    requires place { p ≤ 2 ^ 62 }
    requires alignment { a ≤ 2 ^ 62 }
    requires some_bits { 0 < a }
    ensures least { IsLeastMultiple p a result }
    ensures value { result ≡ next_multiple_of p a }
{
    // Alignments are powers of two, and a shift is faster than a division.
    let shift = a.trailing_zeros();
    if a == 1 << shift {
        ((p + (a - 1)) >> shift) << shift
    } else {
        p.next_multiple_of(a)
    }
}
