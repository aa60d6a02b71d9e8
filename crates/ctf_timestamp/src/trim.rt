//! Which items are wanted, by their times.

ghost use Rattle.std.specs.Prelude.{◌≡◌};
ghost use Rattle.ctf_timestamp.specs.Trims.{verdict_of};

/// The items between two times are wanted. Both are in nanoseconds since the epoch, and both are kept.
#[derive(Clone, Copy)]
pub struct Trim {
    pub begin: Option<i64>,
    pub end: Option<i64>,
}

/// Where an item is relative to what is wanted.
#[derive(Clone, Copy)]
pub enum Verdict {
    /// Its time is below the beginning.
    Before,
    /// It is wanted: its time is between both, or it has none.
    Within,
    /// Its time is above the end.
    After,
}

impl Trim {
    /// Where an item of this time is, in nanoseconds since the epoch. An item without a time is within;
    /// a time above the end is after it, also where it is below the beginning. No memory is taken.
    pub fn judge(&self, time: Option<i64>) -> Verdict
        ensures { result ≡ verdict_of self.now time }
    {
        let Some(time) = time else {
            return Verdict::Within;
        };
        if self.end.is_some_and(|end| time > end) {
            return Verdict::After;
        }
        if self.begin.is_some_and(|begin| time < begin) {
            return Verdict::Before;
        }
        Verdict::Within
    }
}
