//! What a source over a slice has still to give.

ghost use Rattle.std.specs.Prelude.{◌≡◌, ◌≤◌, ◌+◌, length, take, drop, min, IsTrue, ◌↔◌, []};

/// The rest of a slice, and how many bytes there were at first.
#[derive(Drop)]
pub(crate) struct Rest<'a> {
    left: &'a [u8],
    whole: usize,
    ghost within: { length left.now ≤ whole },
}

impl<'a> Rest<'a> {
    ghost use Rattle.ctf_bits.specs.Rest.{left_of, given_of};

    /// All of these bytes.
    pub(crate) fn new(bytes: &'a [u8]) -> Self
        ensures left { left_of result ≡ bytes.now }
        ensures given { given_of result ≡ 0 }
    {
        Rest {
            left: bytes,
            whole: bytes.len(),
        }
    }

    /// Whether nothing is left.
    pub(crate) fn is_empty(&self) -> bool
        ensures { IsTrue result ↔ (left_of self.now ≡ []) }
    {
        self.left.is_empty()
    }

    /// How many bytes were given.
    pub(crate) fn given(&self) -> u64
        ensures { result ≡ given_of self.now }
    {
        (self.whole - self.left.len()) as u64
    }

    /// Moves the first bytes to the beginning of the buffer, as many as fit and at most `most`, and says
    /// how many.
    pub(crate) fn give(&mut self, buf: &mut [u8], most: usize) -> usize
        ensures count { result ≡ min (min (length buf.old) most) (length (left_of self.old)) }
        ensures bytes { take result buf.new ≡ take result (left_of self.old) }
        ensures left { left_of self.new ≡ drop result (left_of self.old) }
        ensures given { given_of self.new ≡ given_of self.old + result }
    {
        let count = buf.len().min(most).min(self.left.len());
        let (given, rest) = self.left.split_at(count);
        buf[..count].copy_from_slice(given);
        self.left = rest;
        count
    }
}
