//! The tokens of TSDL.

ghost use Rattle.std.specs.Prelude.{◌≡◌, ◌↔◌, not, List, ℕ, true, false, IsTrue, IfOk, IfSome, MatchOption};
ghost use Rattle.tsdl_text.specs.Symbols.{spelling, is_keyword, is_type_keyword, is_symbol, is_word, is_typeword, is_string, constant_of};
ghost use Rattle.tsdl_text.specs.Characters.{StandsFor};
ghost use Rattle.tsdl_text.specs.Strings.{string_value};

use crate::line::LineNumber;
use crate::string::string_value;
use ctf_list::NoMemory;
use std::alloc::Global;

/// A token that is always spelled the same: first the keywords, of which the last thirteen may be
/// in the name of a type, then the punctuators.
#[derive(Clone, Copy)]
pub enum Symbol {
    Align,
    Callsite,
    Clock,
    Enum,
    Env,
    Event,
    FloatingPoint,
    Integer,
    Stream,
    String,
    Struct,
    Trace,
    Typealias,
    Typedef,
    Variant,
    Const,
    Char,
    Double,
    Float,
    Int,
    Long,
    Short,
    Signed,
    Unsigned,
    Void,
    Bool,
    Complex,
    Imaginary,
    OpenBrace,
    CloseBrace,
    OpenBracket,
    CloseBracket,
    OpenParen,
    CloseParen,
    Less,
    Greater,
    Semicolon,
    Colon,
    Comma,
    Dot,
    Ellipsis,
    Equals,
    Assign,
    Plus,
    Minus,
}

impl Symbol {
    /// How the symbol is written.
    pub fn spelling(self) -> &'static [u8]
        ensures { result.now ≡ spelling self }
    {
        match self {
            Symbol::Align => b"align",
            Symbol::Callsite => b"callsite",
            Symbol::Clock => b"clock",
            Symbol::Enum => b"enum",
            Symbol::Env => b"env",
            Symbol::Event => b"event",
            Symbol::FloatingPoint => b"floating_point",
            Symbol::Integer => b"integer",
            Symbol::Stream => b"stream",
            Symbol::String => b"string",
            Symbol::Struct => b"struct",
            Symbol::Trace => b"trace",
            Symbol::Typealias => b"typealias",
            Symbol::Typedef => b"typedef",
            Symbol::Variant => b"variant",
            Symbol::Const => b"const",
            Symbol::Char => b"char",
            Symbol::Double => b"double",
            Symbol::Float => b"float",
            Symbol::Int => b"int",
            Symbol::Long => b"long",
            Symbol::Short => b"short",
            Symbol::Signed => b"signed",
            Symbol::Unsigned => b"unsigned",
            Symbol::Void => b"void",
            Symbol::Bool => b"_Bool",
            Symbol::Complex => b"_Complex",
            Symbol::Imaginary => b"_Imaginary",
            Symbol::OpenBrace => b"{",
            Symbol::CloseBrace => b"}",
            Symbol::OpenBracket => b"[",
            Symbol::CloseBracket => b"]",
            Symbol::OpenParen => b"(",
            Symbol::CloseParen => b")",
            Symbol::Less => b"<",
            Symbol::Greater => b">",
            Symbol::Semicolon => b";",
            Symbol::Colon => b":",
            Symbol::Comma => b",",
            Symbol::Dot => b".",
            Symbol::Ellipsis => b"...",
            Symbol::Equals => b"=",
            Symbol::Assign => b":=",
            Symbol::Plus => b"+",
            Symbol::Minus => b"-",
        }
    }

    /// Whether this is no keyword.
    fn is_punctuator(self) -> bool
        ensures { result ≡ not (is_keyword self) }
    {
        matches!(
            self,
            Symbol::OpenBrace
                | Symbol::CloseBrace
                | Symbol::OpenBracket
                | Symbol::CloseBracket
                | Symbol::OpenParen
                | Symbol::CloseParen
                | Symbol::Less
                | Symbol::Greater
                | Symbol::Semicolon
                | Symbol::Colon
                | Symbol::Comma
                | Symbol::Dot
                | Symbol::Ellipsis
                | Symbol::Equals
                | Symbol::Assign
                | Symbol::Plus
                | Symbol::Minus
        )
    }

    /// Whether this is a keyword that may be in the name of a type.
    fn is_type_keyword(self) -> bool
        ensures { result ≡ is_type_keyword self }
    {
        matches!(
            self,
            Symbol::Const
                | Symbol::Char
                | Symbol::Double
                | Symbol::Float
                | Symbol::Int
                | Symbol::Long
                | Symbol::Short
                | Symbol::Signed
                | Symbol::Unsigned
                | Symbol::Void
                | Symbol::Bool
                | Symbol::Complex
                | Symbol::Imaginary
        )
    }
}

/// What a token is.
#[derive(Clone, Copy)]
pub enum TokenKind {
    /// A name that is no keyword.
    Identifier,
    /// A number.
    Constant(u64),
    /// A text between double quotes.
    String,
    /// A keyword or a punctuator.
    Symbol(Symbol),
}

/// A token, with its slice of the text, where the slice starts in the text, in bytes, and on which line.
#[derive(Clone, Copy)]
pub struct Token<'a> {
    pub kind: TokenKind,
    pub text: &'a [u8],
    pub start: usize,
    pub line: LineNumber,
}

impl Token<'_> {
    /// Whether this is that keyword or punctuator.
    pub fn is_symbol(&self, symbol: Symbol) -> bool
        ensures { result ≡ is_symbol symbol self.now.kind }
    {
        match self.kind {
            TokenKind::Symbol(own) => own == symbol,
            TokenKind::Identifier | TokenKind::Constant(_) | TokenKind::String => false,
        }
    }

    /// Whether this is an identifier or a keyword.
    pub fn is_word(&self) -> bool
        ensures { result ≡ is_word self.now.kind }
    {
        match self.kind {
            TokenKind::Identifier => true,
            TokenKind::Symbol(symbol) => !symbol.is_punctuator(),
            TokenKind::Constant(_) | TokenKind::String => false,
        }
    }

    /// Whether this may be in the name of a type: an identifier, `const` or a keyword of C's types.
    pub fn is_typeword(&self) -> bool
        ensures { result ≡ is_typeword self.now.kind }
    {
        match self.kind {
            TokenKind::Identifier => true,
            TokenKind::Symbol(symbol) => symbol.is_type_keyword(),
            TokenKind::Constant(_) | TokenKind::String => false,
        }
    }

    /// Whether the slice of the token is these bytes.
    pub fn is(&self, word: &[u8]) -> bool
        ensures { IsTrue result ↔ (self.now.text.now ≡ word.now) }
    {
        self.text == word
    }

    /// The value of a constant, and `None` for another token.
    pub fn constant(&self) -> Option<u64>
        ensures { result ≡ constant_of self.now.kind }
    {
        match self.kind {
            TokenKind::Constant(value) => Some(value),
            TokenKind::Identifier | TokenKind::String | TokenKind::Symbol(_) => None,
        }
    }

    /// The bytes that a string stands for, quotes taken off and escapes undone, and `None` for another
    /// token. It fails where an allocation fails.
    pub fn string(&self, alloc: Global) -> Result<Option<Vec<u8>>, NoMemory>
        // What the characters between the quotes stand for.
        ensures spelled { IfOk result (λ found. IfSome found
            (λ value. (values : List ℕ) → StandsFor self.now.text.now values →
            value.items ≡ values)) }

        // What the layers above compute with, also of a slice that is no string.
        ensures string { IfOk result
            (λ found. MatchOption found (is_string self.now.kind ≡ false)
            (λ value. (is_string self.now.kind ≡ true) ×
            (value.items ≡ string_value self.now.text.now))) }
    {
        match self.kind {
            TokenKind::String => Ok(Some(string_value(alloc, self.text)?)),
            TokenKind::Identifier | TokenKind::Constant(_) | TokenKind::Symbol(_) => Ok(None),
        }
    }
}
