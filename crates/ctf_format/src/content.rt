//! Packets that texts are made of.

ghost use Rattle.std.specs.Prelude.{◌+◌, ◌*◌, ◌/◌, ◌^◌, ◌≤◌, length, IsTrue};

/// A packet's bytes, and the place in bits where its content ends. What is after the content is in no value.
#[derive(Clone, Copy)]
pub struct Content<'a> {
    pub bytes: &'a [u8],
    pub end: u64,
    ghost bounded: { end ≤ 2 ^ 62 },
    ghost held: { end ≤ 8 * length bytes.now },
}

impl Content<'_> {
    /// Whether the content goes to a bit at least, and eight bytes are there from this bit's byte on: so a number that
    /// ends there is read at once, also where it is the last one.
    #[inline(always)]
    pub fn has_window_at(&self, end: u64) -> bool
        ensures within { IsTrue result → end ≤ self.now.end }
        ensures held { IsTrue result → end / 8 + 8 ≤ length self.now.bytes.now }
    {
        end <= self.end && (end / 8) as usize + 8 <= self.bytes.len()
    }
}
