//! Digits in octal.

ghost use Rattle.std.specs.Prelude.{◌≡◌, ◌+◌, ◌++◌, ◌≤◌, true, length, take};
ghost use Rattle.std.specs.Fmt.{digits};

/// Writes a number in octal at an index of a line that has room for it, and gives the index after it.
pub fn put_octal(number: u64, line: &mut [u8], at: usize) -> usize
    requires room { at + length (digits 8 true number) ≤ length line.old }
    ensures text { take result line.new ≡ take at line.old ++ digits 8 true number }
    ensures end { result ≡ at + length (digits 8 true number) }
{
    let front = number / 8;
    let digit = b'0' + (number % 8) as u8;
    if front == 0 {
        line[at] = digit;
        return at + 1;
    }
    let to = put_octal(front, line, at);
    line[to] = digit;
    to + 1
}
