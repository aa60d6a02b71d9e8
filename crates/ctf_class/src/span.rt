//! Ranges of an enumeration's numbers.

ghost use Rattle.std.specs.Prelude.{◌≡◌, ◌↔◌, ◌≤ℤ◌, ◌<ℤ◌, IsTrue};
ghost use Rattle.ctf_class.specs.Labels as labels_of;

use crate::label_name::LabelName;

/// The numbers from `first` to `last`, both included (CTF 1.8.3, section 4.1.8). Some of them may lie
/// outside of what an enumeration's container holds.
#[derive(Clone, Copy)]
pub struct Span {
    pub first: i128,
    pub last: i128,
}

impl Span {
    /// Whether a number is one of these.
    #[inline(always)]
    pub fn covers(self, number: i128) -> bool
        ensures is { result ≡ labels_of.covers self number }
        ensures between { IsTrue result ↔ ((self.first ≤ℤ number) × (number ≤ℤ self.last)) }
    {
        self.first <= number && number <= self.last
    }

    /// Whether there are numbers, and all of them are above another one.
    #[inline(always)]
    pub(crate) fn is_above(self, number: i128) -> bool
        ensures above { IsTrue result → number <ℤ self.first }
        ensures some { IsTrue result → self.first ≤ℤ self.last }
    {
        number < self.first && self.first <= self.last
    }
}

/// A label of an enumeration, with numbers that it covers.
#[derive(Drop)]
pub struct Label {
    pub name: LabelName,
    pub span: Span,
}

/// The option that some of a tag's numbers name.
#[derive(Clone, Copy)]
pub struct Choice {
    pub span: Span,
    /// The option's place among the variant's options.
    pub option: usize,
}
