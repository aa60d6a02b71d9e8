//! Texts in words of eight bytes.

ghost use Rattle.std.specs.Prelude.{◌≡◌, ◌+◌, ◌*◌, ◌≤◌, length, take, vec_len, IfOk};
ghost use Rattle.std.specs.Int.{w64, to_le_bytes};
ghost use Rattle.ctf_class.specs.Words.{first_bytes};

use ctf_list::NoMemory;
use std::alloc::Global;

/// The words that hold a text.
pub fn words_of(alloc: Global, text: &[u8]) -> Result<Vec<u64>, NoMemory>
    ensures bytes { IfOk result (λ words. first_bytes words.items (length text.now) ≡ text.now) }
    ensures enough { IfOk result (λ words. length text.now ≤ 8 * vec_len words) }
    ensures no_more { IfOk result (λ words. 8 * vec_len words ≤ length text.now + 7) }
{
    let mut words = Vec::new(alloc);
    for i in 0..text.len().div_ceil(8) {
        let end = text.len().min(8 * i + 8);
        words.push(word_of(&text[8 * i..end]))?;
    }
    Ok(words)
}

/// The word that begins with up to eight bytes.
fn word_of(bytes: &[u8]) -> u64
    requires { length bytes.now ≤ 8 }
    ensures { take (length bytes.now) (to_le_bytes w64 result) ≡ bytes.now }
{
    let mut word = [0; 8];
    word[..bytes.len()].copy_from_slice(bytes);
    u64::from_le_bytes(word)
}
