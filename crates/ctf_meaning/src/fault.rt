//! Why a text has no trace class.

use ctf_list::NoMemory;
use std::alloc::{AllocError, AllocFailed};
use thiserror::Error;

/// Why a metadata text has no trace class (R1 to R9).
#[derive(Clone, Copy, Debug, PartialEq, Eq, Error)]
pub enum ResolveFault {
    /// R1: a class is used that is not declared before.
    #[error("unknown type")]
    UnknownType,
    /// R2: a name is declared twice in one scope, or two members or options have one name.
    #[error("name declared twice")]
    DeclaredTwice,
    /// R3: an attribute is missing, is there twice, or is none of its values.
    #[error("attribute missing or impossible")]
    Attribute,
    /// R4: a floating-point class is in a scope.
    #[error("floating-point class")]
    FloatingPoint,
    /// R5: a size or an alignment is out of its range.
    #[error("size or alignment impossible")]
    SizeOrAlignment,
    /// R6: the field of a length or a tag is not found, or is of another class.
    #[error("length or tag not found or not fitting")]
    LengthOrTag,
    /// R7: a clock is not declared, or the integers of a stream class set several.
    #[error("clock unknown or several clocks")]
    Clock,
    /// R8: a trace block, an id or the name of a clock is there twice.
    #[error("id or block twice")]
    Twice,
    /// R9: a class is deeper than 64, or the scopes have more than 1,048,576 classes.
    #[error("nested too deep or too many classes")]
    TooDeep,
    /// An allocation failed.
    #[error("no memory")]
    NoMemory,
}

impl From<NoMemory> for ResolveFault {
    ghost use Rattle.std.specs.Prelude.{◌≡◌};
    ghost use Rattle.ctf_meaning.specs.declared.fault.ResolveFault.TheVariants as faults;

    ghost from_gives = { λ _ fault. fault ≡ faults.NoMemory };

    fn from(_refused: NoMemory) -> ResolveFault {
        ResolveFault::NoMemory
    }
}

impl From<AllocError> for ResolveFault {
    ghost use Rattle.std.specs.Prelude.{◌≡◌};
    ghost use Rattle.ctf_meaning.specs.declared.fault.ResolveFault.TheVariants as faults;

    ghost from_gives = { λ _ fault. fault ≡ faults.NoMemory };

    fn from(_refused: AllocError) -> ResolveFault {
        ResolveFault::NoMemory
    }
}

impl<T: Drop> From<AllocFailed<T>> for ResolveFault {
    ghost use Rattle.std.specs.Prelude.{◌≡◌};
    ghost use Rattle.ctf_meaning.specs.declared.fault.ResolveFault.TheVariants as faults;

    ghost from_gives = { λ _ fault. fault ≡ faults.NoMemory };

    fn from(_refused: AllocFailed<T>) -> ResolveFault {
        ResolveFault::NoMemory
    }
}
