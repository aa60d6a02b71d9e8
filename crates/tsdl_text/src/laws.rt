//! What holds of the definitions of texts and tokens alone. Each function does nothing; what it
//! ensures is a law.

ghost use Rattle.std.specs.Prelude.{◌≡◌};
ghost use Rattle.tsdl_text.specs.declared.packet.TheConstants.{HEADER_LEN, MOST_BYTES};
ghost use Rattle.tsdl_text.specs.Laws.{OneLexing, OneLine, LexesOrNot, NeverBoth, LinesNeverFall, StringsStand, SymbolsAreCompared, OneText, OneBreak, TextOrBroken, NeverBroken};

/// A text has at most one list of tokens.
pub fn one_lexing()
    ensures { OneLexing }
{}

/// A text has at most one line of a place where no token begins.
pub fn one_line()
    ensures { OneLine }
{}

/// A text has a list of tokens or a place where no token begins.
pub fn lexes_or_not()
    ensures { LexesOrNot }
{}

/// A text never has both a list of tokens and a place where no token begins.
pub fn never_both()
    ensures { NeverBoth }
{}

/// Lines never fall from token to token of one text's list.
pub fn lines_never_fall()
    ensures { LinesNeverFall }
{}

/// What a reader makes of a string is the bytes that its characters stand for.
pub fn strings_stand()
    ensures { StringsStand }
{}

/// A token is said to be a symbol exactly where its kind is that symbol.
pub fn symbols_are_compared()
    ensures { SymbolsAreCompared }
{}

/// Bytes are metadata of at most one text.
pub fn one_text()
    ensures { OneText }
{}

/// Bytes are broken metadata in at most one way.
pub fn one_break()
    ensures { OneBreak }
{}

/// Bytes are metadata of a text or are broken.
pub fn text_or_broken()
    ensures { TextOrBroken }
{}

/// Bytes are never both metadata of a text and broken.
pub fn never_broken()
    ensures { NeverBroken }
{}

/// The limit of bytes as a number, 64 MiB: what contracts and definitions mean by its name.
pub fn most_bytes()
    ensures { MOST_BYTES ≡ 67108864 }
{}

/// The length of a packet's header as a number (CTF 1.8.3, section 7.1).
pub fn header_len()
    ensures { HEADER_LEN ≡ 37 }
{}
