//! Numbers that words of a command line write.

ghost use Rattle.std.specs.Prelude.{◌≡◌, ◌<◌, ◌^◌, MatchOption, None, Some, IfSome};
ghost use Rattle.std.specs.Str.Parse.{starts_with_minus};
ghost use Rattle.ctf_options.specs.Numbers as numbers;

/// What is before and after the first `mark` of a text.
pub(crate) fn halves(text: &str, mark: char) -> Option<(&str, &str)>
    requires { mark < 128 }
    ensures { MatchOption result (numbers.halves mark text.now ≡ None)
        (λ parts. numbers.halves mark text.now ≡ Some (parts.0.now, parts.1.now)) }
{
    text.split_once(mark)
}

/// Whether a minus comes first, and the text after it.
pub(crate) fn sign(text: &str) -> (bool, &str)
    ensures minus { result.0 ≡ starts_with_minus text.now }
    ensures rest { result.1.now ≡ numbers.magnitude text.now }
{
    match text.strip_prefix('-') {
        Some(rest) => (true, rest),
        None => (false, text),
    }
}

/// The number that decimal digits write. `None` where there is another byte or no digit, and where the
/// number has more than 64 bits.
pub(crate) fn number(text: &str) -> Option<u64>
    ensures { result ≡ numbers.number_in text.now }
{
    // The standard library reads a plus too.
    if text.starts_with('+') {
        return None;
    }
    text.parse().ok()
}

/// The number that so many digits write.
pub(crate) fn number_of(count: usize, text: &str) -> Option<u64>
    ensures value { result ≡ numbers.number_of count text.now }
    ensures bound { IfSome result (λ number. number < 10 ^ count) }
{
    if text.len() != count {
        return None;
    }
    number(text)
}

/// A number and its sign. `None` where it has more than 64 bits.
pub(crate) fn signed(is_negative: bool, magnitude: u128) -> Option<i64>
    requires { magnitude < 2 ^ 100 }
    ensures { result ≡ numbers.signed is_negative magnitude }
{
    let number = magnitude as i128;
    i64::try_from(if is_negative { -number } else { number }).ok()
}

/// A number of 64 bits: digits after a minus that may come first.
pub(crate) fn integer(text: &str) -> Option<i64>
    ensures { result ≡ numbers.integer_in text.now }
{
    let (is_negative, digits) = sign(text);
    signed(is_negative, u128::from(number(digits)?))
}
