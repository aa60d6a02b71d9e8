//! Alignments.

ghost use Rattle.std.specs.Prelude.{◌≡◌, ◌+◌, ◌*◌, ◌/◌, ◌^◌, ◌<◌, ◌≤◌, SomeIff};
ghost use Rattle.std.specs.Int.{next_multiple_of};
ghost use Rattle.ctf_bits.specs.Align.{IsLeastMultiple};
ghost use Rattle.ctf_class.specs.Alignment.{IsAlignment, IsLarger};

use std::marker::Model;

/// The exponent of the largest alignment.
const LAST_EXPONENT: u32 = 31;

/// An alignment in bits: a power of two (CTF 1.8.3, section 4.1.2) from 1 to 2^31, a bound of this program's own.
/// Contracts see the number.
#[derive(Clone, Copy)]
pub struct Align {
    bits: u32,
}

impl Model for Align {
    ghost use Rattle.std.specs.Prelude.{ℕ};
    ghost use Rattle.ctf_class.specs.Alignment.{IsAlignment};

    ghost Value = { ℕ };

    ghost view = { λ align. align.bits };

    ghost invariant = { λ align. IsAlignment align.bits };

    ghost inverse = { λ bits. record { bits = bits } };
}

impl Align {
    /// An alignment of so many bits; `None` exactly where that is no power of two from 1 to 2^31.
    pub fn new(bits: u64) -> Option<Align>
        ensures { SomeIff result (IsAlignment bits) bits }
    {
        let exponent = bits.trailing_zeros();
        if exponent > LAST_EXPONENT || bits != 1 << exponent {
            return None;
        }
        Some(Align { bits: bits as u32 })
    }

    /// One bit, on which a field begins anywhere.
    pub fn one_bit() -> Align
        ensures { result ≡ 1 }
    {
        Align { bits: 1 }
    }

    /// One byte.
    pub fn one_byte() -> Align
        ensures { result ≡ 8 }
    {
        Align { bits: 8 }
    }

    /// The number of bits.
    pub fn bits(self) -> u32
        ensures value { result ≡ self }
        ensures power { IsAlignment result }
    {
        self.bits
    }

    /// The larger one of two alignments, which is a multiple of both.
    pub fn larger(self, other: Align) -> Align
        ensures { IsLarger result self other }
    {
        if self.bits < other.bits { other } else { self }
    }

    /// Where a field begins that could begin at a place, both in bits: the least multiple of the
    /// alignment that is not below the place (CTF 1.8.3, section 4.1.2).
    #[tactic(auto, using(crate::proofs::AlignmentLemmas::rounded_up, crate::proofs::AlignmentLemmas::near_up))]
    pub fn up(self, place: u64) -> u64
        requires { place ≤ 2 ^ 62 }
        ensures value { result ≡ next_multiple_of place self }
        ensures least { IsLeastMultiple place self result }
        ensures near { result < place + self }
        ensures bounded { result ≤ place + 2 ^ 32 }
    {
        let unit = u64::from(self.bits);
        cut(place + (unit - 1), unit)
    }
}

/// The last multiple of a power of two that is not above a place.
#[tactic(auto, using(crate::proofs::AlignmentLemmas::cut_by_mask))]
fn cut(place: u64, unit: u64) -> u64
    requires { IsAlignment unit }
    ensures { result ≡ place / unit * unit }
{
    place & !(unit - 1)
}
