//! The tokens of a text.

ghost use Rattle.std.specs.Prelude.{◌≡◌, ◌<◌, ◌≤◌, length, map, IfSome, MatchResult};
ghost use Rattle.tsdl_text.specs.Bytes.{is_blank, is_word_start, is_word_byte};
ghost use Rattle.tsdl_text.specs.Constants.{is_u, is_l, is_suffix};
ghost use Rattle.tsdl_text.specs.Scanning.{unmarked_value, constant_value, block_len, line_len, comment_len, word_len, keywords_with, keyword_of, single, punctuator_at, string_len, word_kind, token_at, piece_at};
ghost use Rattle.tsdl_text.specs.Tokens.{newlines, lexeme, Lexes, TokensRefused};

use crate::fault::MetaFault;
use crate::line::LineNumber;
use crate::string::{character, digit_count, number};
use crate::token::{Symbol, Token, TokenKind};
use std::alloc::Global;

/// A piece of a text: the kind of a token, or none for a blank or a comment, and its length in bytes.
#[derive(Clone, Copy)]
pub(crate) struct Extent {
    pub kind: Option<TokenKind>,
    pub len: usize,
}

/// Whether a byte is a blank.
#[tactic(auto, unfolding(crate::specs::Bytes::is_blank))]
fn is_blank(byte: u8) -> bool
    ensures { result ≡ is_blank byte }
{
    byte == b' ' || (9 <= byte && byte <= 13)
}

/// Whether a word may begin with a byte.
#[tactic(auto, unfolding(crate::specs::Bytes::is_word_start))]
fn is_word_start(byte: u8) -> bool
    ensures { result ≡ is_word_start byte }
{
    byte.is_ascii_alphabetic() || byte == b'_'
}

/// Whether a word may go on with a byte.
#[tactic(auto, unfolding(crate::specs::Bytes::is_word_byte))]
fn is_word_byte(byte: u8) -> bool
    ensures { result ≡ is_word_byte byte }
{
    byte.is_ascii_alphanumeric() || byte == b'_'
}

/// How many bytes at the beginning may be in a word.
fn word_len(text: &[u8]) -> usize
    ensures len { result ≡ word_len text.now }
    ensures bound { result ≤ length text.now }
{
    let mut len = 0;
    while len < text.len() && is_word_byte(text[len]) {
        len += 1;
    }
    len
}

/// How many bytes there are before the next newline or the end.
fn line_len(text: &[u8]) -> usize
    ensures len { result ≡ line_len text.now }
    ensures bound { result ≤ length text.now }
{
    let mut len = 0;
    while len < text.len() && text[len] != b'\n' {
        len += 1;
    }
    len
}

/// How many bytes there are up to and with the first `*/`.
fn block_len(text: &[u8]) -> Option<usize>
    ensures len { result ≡ block_len text.now }
    ensures bound { IfSome result (λ len. len ≤ length text.now) }
{
    let mut start = 0;
    while start < text.len() {
        if text[start..].starts_with(b"*/") {
            return Some(start + 2);
        }
        start += 1;
    }
    None
}

/// How many bytes a comment has after its first `/`.
#[tactic(auto, unfolding(crate::specs::Scanning::comment_len))]
fn comment_len(text: &[u8]) -> Option<usize>
    ensures len { result ≡ comment_len text.now }
    ensures bound { IfSome result (λ len. len ≤ length text.now) }
{
    match text {
        [b'*', inside @ ..] => Some(block_len(inside)? + 1),
        [b'/', inside @ ..] => Some(1 + line_len(inside)),
        _ => None,
    }
}

/// The keywords that begin with a byte.
#[tactic(auto, unfolding(crate::specs::Scanning::keywords_with))]
fn keywords_with(first: u8) -> &'static [Symbol]
    ensures { result.now ≡ keywords_with first }
{
    match first {
        b'_' => &[Symbol::Bool, Symbol::Complex, Symbol::Imaginary],
        b'a' => &[Symbol::Align],
        b'c' => &[Symbol::Clock, Symbol::Char, Symbol::Const, Symbol::Callsite],
        b'd' => &[Symbol::Double],
        b'e' => &[Symbol::Event, Symbol::Enum, Symbol::Env],
        b'f' => &[Symbol::Float, Symbol::FloatingPoint],
        b'i' => &[Symbol::Integer, Symbol::Int],
        b'l' => &[Symbol::Long],
        b's' => &[
            Symbol::Struct,
            Symbol::Signed,
            Symbol::String,
            Symbol::Stream,
            Symbol::Short,
        ],
        b't' => &[Symbol::Typealias, Symbol::Typedef, Symbol::Trace],
        b'u' => &[Symbol::Unsigned],
        b'v' => &[Symbol::Variant, Symbol::Void],
        _ => &[],
    }
}

/// The keyword that these bytes spell.
#[tactic(auto, unfolding(crate::specs::Scanning::keyword_of))]
fn keyword(word: &[u8]) -> Option<Symbol>
    ensures { result ≡ keyword_of word.now }
{
    let [first, ..] = word else {
        return None;
    };
    keywords_with(*first)
        .iter()
        .copied()
        .find(|symbol| symbol.spelling() == word)
}

/// Whether a word is a keyword, and which, or an identifier.
#[tactic(auto, unfolding(crate::specs::Scanning::word_kind))]
fn word_kind(word: &[u8]) -> TokenKind
    ensures { result ≡ word_kind word.now }
{
    match keyword(word) {
        Some(symbol) => TokenKind::Symbol(symbol),
        None => TokenKind::Identifier,
    }
}

/// The punctuator of one byte.
#[tactic(auto, unfolding(crate::specs::Scanning::single))]
fn single(byte: u8) -> Option<Symbol>
    ensures { result ≡ single byte }
{
    match byte {
        b'{' => Some(Symbol::OpenBrace),
        b'}' => Some(Symbol::CloseBrace),
        b'[' => Some(Symbol::OpenBracket),
        b']' => Some(Symbol::CloseBracket),
        b'(' => Some(Symbol::OpenParen),
        b')' => Some(Symbol::CloseParen),
        b'<' => Some(Symbol::Less),
        b'>' => Some(Symbol::Greater),
        b';' => Some(Symbol::Semicolon),
        b':' => Some(Symbol::Colon),
        b',' => Some(Symbol::Comma),
        b'.' => Some(Symbol::Dot),
        b'=' => Some(Symbol::Equals),
        b'+' => Some(Symbol::Plus),
        b'-' => Some(Symbol::Minus),
        _ => None,
    }
}

/// The next punctuator, the longest one, and its length.
#[tactic(auto, unfolding(crate::specs::Scanning::punctuator_at))]
fn punctuator(text: &[u8]) -> Option<(Symbol, usize)>
    ensures value { result ≡ punctuator_at text.now }
    ensures bound { IfSome result (λ found. (0 < found.1) × (found.1 ≤ length text.now)) }
{
    match text {
        [b'.', b'.', b'.', ..] => Some((Symbol::Ellipsis, 3)),
        [b':', b'=', ..] => Some((Symbol::Assign, 2)),
        [byte, ..] => Some((single(*byte)?, 1)),
        [] => None,
    }
}

/// How many bytes a string has after its first quote, with its last.
fn string_len(text: &[u8]) -> Option<usize>
    ensures len { result ≡ string_len text.now }
    ensures bound { IfSome result (λ len. len ≤ length text.now) }
{
    let mut start = 0;
    while start < text.len() {
        if text[start] == b'"' {
            return Some(start + 1);
        }
        let (_, len) = character(&text[start..])?;
        start += len;
    }
    None
}

/// Whether a byte is the suffix of an unsigned constant.
#[tactic(auto, unfolding(crate::specs::Constants::is_u))]
fn is_u(byte: u8) -> bool
    ensures { result ≡ is_u byte }
{
    byte == b'u' || byte == b'U'
}

/// Whether a byte is the suffix of a long constant, or the half of it.
#[tactic(auto, unfolding(crate::specs::Constants::is_l))]
fn is_l(byte: u8) -> bool
    ensures { result ≡ is_l byte }
{
    byte == b'l' || byte == b'L'
}

/// Whether this may be after the digits of a constant.
#[tactic(auto, unfolding(crate::specs::Constants::is_suffix))]
fn is_suffix(bytes: &[u8]) -> bool
    ensures { result ≡ is_suffix bytes.now }
{
    match bytes {
        [] => true,
        [a] => is_u(*a) || is_l(*a),
        [a, b] => (is_u(*a) && is_l(*b)) || (is_l(*a) && (b == a || is_u(*b))),
        [a, b, c] => (is_u(*a) && is_l(*b) && c == b) || (is_l(*a) && b == a && is_u(*c)),
        _ => false,
    }
}

/// The value of digits of a base and a suffix.
#[tactic(auto, unfolding(crate::specs::Scanning::unmarked_value))]
fn number_of_digits(base: u8, bytes: &[u8]) -> Option<u64>
    requires { 1 ≤ base }
    ensures { result ≡ unmarked_value base bytes.now }
{
    let count = digit_count(base, bytes.len(), bytes);
    let (digits, suffix) = bytes.split_at(count);
    if digits.is_empty() || !is_suffix(suffix) {
        return None;
    }
    number(u64::from(base), digits)
}

/// The value that bytes spell as a constant.
#[tactic(auto, unfolding(crate::specs::Scanning::constant_value))]
fn constant(bytes: &[u8]) -> Option<u64>
    ensures { result ≡ constant_value bytes.now }
{
    match bytes {
        [b'0', b'x' | b'X', digits @ ..] => number_of_digits(16, digits),
        [b'0', ..] => number_of_digits(8, bytes),
        _ => number_of_digits(10, bytes),
    }
}

/// The kind of the next token, and its length.
#[tactic(auto, unfolding(crate::specs::Scanning::token_at))]
fn token(text: &[u8]) -> Option<(TokenKind, usize)>
    ensures value { result ≡ token_at text.now }
    ensures bound { IfSome result (λ found. found.1 ≤ length text.now) }
{
    let [first, rest @ ..] = text else {
        return None;
    };
    if is_word_start(*first) {
        let len = word_len(text);
        Some((word_kind(&text[..len]), len))
    } else if first.is_ascii_digit() {
        let len = word_len(text);
        let value = constant(&text[..len])?;
        Some((TokenKind::Constant(value), len))
    } else if *first == b'"' {
        Some((TokenKind::String, 1 + string_len(rest)?))
    } else {
        let (symbol, len) = punctuator(text)?;
        Some((TokenKind::Symbol(symbol), len))
    }
}

/// The piece that a text begins with: a blank, a comment or a token.
#[tactic(auto, unfolding(crate::specs::Scanning::piece_at))]
fn piece(text: &[u8]) -> Option<Extent>
    ensures value { result ≡ piece_at text.now }
    ensures bound { IfSome result (λ found. found.len ≤ length text.now) }
{
    let [first, rest @ ..] = text else {
        return None;
    };
    if is_blank(*first) {
        return Some(Extent { kind: None, len: 1 });
    }
    if *first == b'/' {
        let len = 1 + comment_len(rest)?;
        return Some(Extent { kind: None, len });
    }
    let (kind, len) = token(text)?;
    Some(Extent {
        kind: Some(kind),
        len,
    })
}

/// How many newlines there are.
fn newlines(bytes: &[u8]) -> usize
    ensures count { result ≡ newlines bytes.now }
    ensures bound { result ≤ length bytes.now }
{
    bytes.iter().filter(|byte| **byte == b'\n').count()
}

/// The tokens of a text, in their order, each with its slice of the text, where it starts and on which
/// line (CTF 1.8.3, appendix C.1). It fails with the line of the first place at which no token, blank or comment
/// begins (S1), and where an allocation fails.
pub fn tokens<'a>(alloc: Global, text: &'a [u8]) -> Result<Vec<Token<'a>>, MetaFault>
    ensures { MatchResult result (λ found. Lexes text.now (map lexeme found.items))
        (TokensRefused text.now) }
{
    let mut found = Vec::new(alloc);
    let mut start = 0;
    let mut line = 1;
    while start < text.len() {
        let rest = &text[start..];
        let Some(extent) = piece(rest) else {
            return Err(MetaFault::NoToken(LineNumber::new(line)));
        };
        let bytes = &rest[..extent.len];
        if let Some(kind) = extent.kind {
            // A slice of one: `push` by value of a struct with a reference and an invariant is a form
            // that the check does not cover.
            found.extend_from_slice(&[Token {
                kind,
                text: bytes,
                start,
                line: LineNumber::new(line),
            }])?;
        }
        start += extent.len;
        line += newlines(bytes);
    }
    Ok(found)
}
