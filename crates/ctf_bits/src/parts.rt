//! Numbers that are joined from bytes, the first and the last of them masked.

ghost use Rattle.std.specs.Prelude.{◌≡◌, ◌+◌, ◌*◌, ◌%◌, ◌^◌, ◌<◌, ◌≤◌, length};
ghost use Rattle.ctf_bits.specs.declared.number.Order.TheVariants.{Le, Be};
ghost use Rattle.ctf_bits.specs.Number.{number};

/// The little endian number of `n` bits from the bit `shift` of the first byte on.
pub(crate) fn joined_le(bytes: &[u8], shift: u32, n: u32) -> u64
    requires in_first { shift < 8 }
    requires some_bits { 1 ≤ n }
    requires in_a_word { n ≤ 64 }
    requires inside { shift + n ≤ 8 * length bytes.now }
    ensures { result ≡ number Le bytes.now shift n }
{
    let end = shift + n;
    if end <= 8 {
        return low_bits(bytes[0] >> shift, n);
    }
    let last = (end - 1) / 8;
    let mut value = u64::from(bytes[0] >> shift);
    for i in 1..last {
        value += u64::from(bytes[i as usize]) << (8 * i - shift);
    }
    value + (low_bits(bytes[last as usize], end - 8 * last) << (8 * last - shift))
}

/// The big endian number of `n` bits from the bit `shift` of the first byte on.
pub(crate) fn joined_be(bytes: &[u8], shift: u32, n: u32) -> u64
    requires in_first { shift < 8 }
    requires some_bits { 1 ≤ n }
    requires in_a_word { n ≤ 64 }
    requires inside { shift + n ≤ 8 * length bytes.now }
    ensures { result ≡ number Be bytes.now shift n }
{
    let end = shift + n;
    if end <= 8 {
        return low_bits(bytes[0] >> (8 - end), n);
    }
    let last = (end - 1) / 8;
    let mut value = low_bits(bytes[0], 8 - shift);
    for i in 1..last {
        value = (value << 8) + u64::from(bytes[i as usize]);
    }
    let left = end - 8 * last;
    (value << left) + u64::from(bytes[last as usize] >> (8 - left))
}

/// The low `n` bits of a byte.
fn low_bits(byte: u8, n: u32) -> u64
    requires { n ≤ 8 }
    ensures { result ≡ byte % 2 ^ n }
{
    u64::from(byte) & ((1 << n) - 1)
}
