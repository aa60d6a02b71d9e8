//! Texts with a beginning or an end.

ghost use Rattle.std.specs.Prelude.{◌≡◌, reverse, option_map, option_copied};
ghost use Rattle.ctf_meaning.specs.Integers as meaning;

/// What is after a beginning.
pub fn after<'a>(beginning: &[u8], text: &'a [u8]) -> Option<&'a [u8]>
    ensures { option_copied result ≡ meaning.after beginning.now text.now }
{
    text.strip_prefix(beginning)
}

/// What is before an end.
pub fn before<'a>(end: &[u8], text: &'a [u8]) -> Option<&'a [u8]>
    ensures { option_copied result ≡
        option_map reverse (meaning.after (reverse end.now) (reverse text.now)) }
{
    text.strip_suffix(end)
}
