//! Integers at known distances.

ghost use Rattle.std.specs.Prelude.{◌≡◌, false};
ghost use Rattle.ctf_class.specs.Integers.{IsUsual};
ghost use Rattle.ctf_class.specs.Records.{have_special as are_special};

use crate::integer::{Base, Integer};
use crate::prepared_text::PreparedText;
use ctf_bits::{Order, Window};

/// An integer whose distance from the begin of its run or structure is known (CTF 1.8.3, section 4.1.5).
#[derive(Drop)]
pub struct PlannedNumber {
    pub integer: Integer,
    /// Where it is after that begin.
    pub window: Window,
    /// `false` only where it is usual: little endian and in decimal.
    pub is_special: bool,
    /// What is printed before it.
    pub ready: PreparedText,
}

/// Whether some numbers are special.
pub(crate) fn have_special(numbers: &[PlannedNumber]) -> bool
    ensures { result ≡ are_special numbers.now }
{
    numbers.iter().any(|number| number.is_special)
}

/// Whether an integer is special: `false` only where it is usual, which is little endian and in decimal.
pub(crate) fn is_special(integer: &Integer) -> bool
    ensures { result ≡ false → IsUsual integer.now }
{
    integer.base != Base::Decimal || integer.order != Order::Le
}
