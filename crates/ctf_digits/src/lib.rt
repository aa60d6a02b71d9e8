//! Decimal digits, two, three, or up to four at a time.
#![tactic(auto)]

mod fours;
mod pairs;
mod triples;

pub use fours::few_digits;
pub use pairs::two_digits;
pub use triples::three_digits;
