//! Places of packets.

ghost use Rattle.std.specs.Prelude.{◌≤◌, ◌*◌, ◌^◌, length};

/// Where something is decoded, and where the content ends, in bits from the first of some bytes.
#[derive(Clone, Copy)]
pub struct Place<'a> {
    pub bytes: &'a [u8],
    pub start: u64,
    pub content: u64,
    ghost begins: { start ≤ content },
    ghost bounded: { content ≤ 2 ^ 62 },
    ghost held: { content ≤ 8 * length bytes.now },
}

impl<'a> Place<'a> {
    /// The place of these bytes that a word names, `START..CONTENT`.
    pub fn new(word: &str, bytes: &'a [u8]) -> Option<Place<'a>> {
        let (start, content) = word.split_once("..")?;
        let start = start.parse::<u64>().ok()?;
        let content = content.parse::<u64>().ok()?;
        if start > content || content > 1 << 62 || u128::from(content) > bytes.len() as u128 * 8 {
            return None;
        }
        Some(Place {
            bytes,
            start,
            content,
        })
    }
}
