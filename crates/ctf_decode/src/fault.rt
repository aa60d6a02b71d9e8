//! Why no value was decoded.

use ctf_list::NoMemory;
use thiserror::Error;

/// Why no value was decoded (F6, F8, F11).
#[derive(Clone, Copy, Debug, PartialEq, Eq, Error)]
pub enum DecodeFault {
    /// F6: a value would need the content to reach to this place, in bits from the packet's first one.
    #[error("content ends inside a field")]
    ContentEnds(u128),
    /// F8: a variant's tag names none of its options.
    #[error("no option for the tag")]
    NoOption,
    /// F11: more than 16,777,216 values.
    #[error("too many values")]
    TooManyValues,
    /// An allocation failed.
    #[error("no memory")]
    NoMemory,
}

impl From<NoMemory> for DecodeFault {
    ghost use Rattle.std.specs.Prelude.{◌≡◌};
    ghost use Rattle.ctf_decode.specs.declared.fault.DecodeFault.TheVariants as faults;

    ghost from_gives = { λ _ fault. fault ≡ faults.NoMemory };

    fn from(_refused: NoMemory) -> DecodeFault {
        DecodeFault::NoMemory
    }
}
