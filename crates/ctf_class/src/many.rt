//! How many elements a field has.

ghost use Rattle.std.specs.Prelude.{IfSome};
ghost use Rattle.ctf_class.specs.Records.{IsLength};

use crate::route::Length;

/// How many elements an array has.
#[derive(Clone, Copy)]
pub enum Many {
    /// So many (CTF 1.8.3, section 4.2.3).
    Fixed(u64),
    /// As many as the field before says (CTF 1.8.3, section 4.2.4).
    Counted,
}

impl Many {
    /// Whether the field before says it.
    pub(crate) fn is_counted(self) -> bool {
        match self {
            Many::Fixed(_) => false,
            Many::Counted => true,
        }
    }
}

/// How many elements an array has that is after so many members of its structure, if its length is fixed or the member
/// before.
pub(crate) fn many_of(length: &Length, index: usize) -> Option<Many>
    ensures { IfSome result (IsLength index length.now) }
{
    match length {
        Length::Fixed(count) => Some(Many::Fixed(*count)),
        Length::Field(route) => {
            if route.leads_before(index) {
                Some(Many::Counted)
            } else {
                None
            }
        }
    }
}
