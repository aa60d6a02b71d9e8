//! Steps over single tokens.

ghost use Rattle.std.specs.Prelude.{◌≡◌, ◌<◌, ◌≤◌, length, option_map, refl, IfOk, OnOk};
ghost use Rattle.tsdl_grammar.specs.Steps.{after, expect, past, begins, begins_identifier, before_close, before_end, open_at};
ghost use Rattle.tsdl_grammar.specs.Reading.{word_at, identifier_at, constant_at};
ghost use Rattle.tsdl_parse.specs.Gives.{Gives};
ghost use Rattle.tsdl_parse.specs.Front.{closed};

use crate::failure::{Failure, Read};
use crate::part::Part;
use ctf_list::List;
use std::alloc::Global;
use tsdl_text::{Symbol, Token, TokenKind};
use tsdl_tree::Word;

/// What follows the symbol, where it comes first.
fn after<'t, 'a>(symbol: Symbol, tokens: &'t [Token<'a>]) -> Option<&'t [Token<'a>]>
    ensures { option_map (λ rest. rest.now) result ≡ after symbol tokens.now }
{
    match tokens {
        [first, rest @ ..] if first.is_symbol(symbol) => Some(rest),
        _ => None,
    }
}

/// What follows the symbol, which must come first.
#[tactic(auto, unfolding(tsdl_grammar::specs::Steps::expect))]
pub(crate) fn expect<'t, 'a>(
    symbol: Symbol,
    tokens: &'t [Token<'a>],
) -> Result<&'t [Token<'a>], Failure>
    ensures reads { Gives (λ rest. rest.now) result (expect symbol tokens.now) }
    ensures shorter { IfOk result (λ rest. length rest.now < length tokens.now) }
{
    after(symbol, tokens).ok_or(Failure::Syntax(tokens.len()))
}

/// What was read before the symbol, which must come first, and what follows it.
pub(crate) fn end_with<'t, 'a, T: Drop>(
    tree: T,
    symbol: Symbol,
    tokens: &'t [Token<'a>],
) -> Read<'t, 'a, T>
    ensures reads { Gives (λ x. (x.0, x.1.now)) result (closed symbol tree tokens.now) }
    ensures tree { IfOk result (λ x. x.0 ≡ tree) }
    ensures rest { Gives (λ x. x.1.now) result (expect symbol tokens.now) }
    ensures shorter { IfOk result (λ x. length x.1.now < length tokens.now) }
{
    let rest = expect(symbol, tokens)?;
    Ok((tree, rest))
}

/// What follows the symbol where it comes first, and otherwise all.
#[tactic(auto, unfolding(tsdl_grammar::specs::Steps::past))]
pub(crate) fn past<'t, 'a>(symbol: Symbol, tokens: &'t [Token<'a>]) -> &'t [Token<'a>]
    ensures reads { result.now ≡ past symbol tokens.now }
    ensures within { length result.now ≤ length tokens.now }
{
    match tokens {
        [first, rest @ ..] if first.is_symbol(symbol) => rest,
        _ => tokens,
    }
}

/// Whether the symbol comes first.
pub(crate) fn begins(symbol: Symbol, tokens: &[Token<'_>]) -> bool
    ensures { result ≡ begins symbol tokens.now }
{
    match tokens {
        [first, ..] => first.is_symbol(symbol),
        [] => false,
    }
}

/// Whether what is in braces goes on.
pub(crate) fn goes_on(tokens: &[Token<'_>]) -> bool
    ensures { result ≡ before_close tokens.now }
{
    match tokens {
        [first, ..] => !first.is_symbol(Symbol::CloseBrace),
        [] => false,
    }
}

/// Whether there is another token.
pub(crate) fn has_more(tokens: &[Token<'_>]) -> bool
    ensures { result ≡ before_end tokens.now }
{
    match tokens {
        [_, ..] => true,
        [] => false,
    }
}

/// What follows an opening brace, of which so many more may nest.
#[tactic(auto, unfolding(tsdl_grammar::specs::Steps::open_at))]
pub(crate) fn open<'t, 'a>(depth: u32, tokens: &'t [Token<'a>]) -> Result<&'t [Token<'a>], Failure>
    ensures reads { Gives (λ rest. rest.now) result (open_at depth tokens.now) }
    ensures shorter { IfOk result (λ rest. length rest.now < length tokens.now) }
    ensures room { OnOk result (0 < depth) }
{
    let rest = expect(Symbol::OpenBrace, tokens)?;
    if depth == 0 {
        return Err(Failure::Deep);
    }
    Ok(rest)
}

/// An identifier or a keyword.
#[tactic(auto, unfolding(tsdl_grammar::specs::Reading::word_at))]
pub(crate) fn word<'t, 'a>(alloc: Global, tokens: &'t [Token<'a>]) -> Read<'t, 'a, Word>
    ensures reads { Gives (λ x. (x.0, x.1.now)) result (word_at tokens.now) }
    ensures shorter { IfOk result (λ x. length x.1.now < length tokens.now) }
{
    match tokens {
        [first, rest @ ..] if first.is_word() => Ok((List::from_slice(alloc, first.text)?, rest)),
        _ => Err(Failure::Syntax(tokens.len())),
    }
}

/// A name that is no keyword.
#[tactic(auto, unfolding(tsdl_grammar::specs::Reading::identifier_at))]
pub(crate) fn identifier<'t, 'a>(alloc: Global, tokens: &'t [Token<'a>]) -> Read<'t, 'a, Word>
    ensures reads { Gives (λ x. (x.0, x.1.now)) result (identifier_at tokens.now) }
    ensures shorter { IfOk result (λ x. length x.1.now < length tokens.now) }
{
    match tokens {
        [first, rest @ ..] => match first.kind {
            TokenKind::Identifier => Ok((List::from_slice(alloc, first.text)?, rest)),
            _ => Err(Failure::Syntax(tokens.len())),
        },
        [] => Err(Failure::Syntax(0)),
    }
}

/// The name of a compound.
#[derive(Clone, Copy)]
pub(crate) struct OwnName;

impl Part for OwnName {
    type Tree = Word;

    ghost comes = { λ _. begins_identifier };

    ghost part_at = { λ _. identifier_at };

    fn comes(&self, tokens: &[Token<'_>]) -> bool {
        match tokens {
            [first, ..] => matches!(first.kind, TokenKind::Identifier),
            [] => false,
        }
    }

    fn read<'t, 'a>(&self, alloc: Global, tokens: &'t [Token<'a>]) -> Read<'t, 'a, Word> {
        identifier(alloc, tokens)
    }

    ghost stops = { λ _. refl };
}

/// The value of a constant.
#[tactic(auto, unfolding(tsdl_grammar::specs::Reading::constant_at))]
pub(crate) fn constant<'t, 'a>(tokens: &'t [Token<'a>]) -> Read<'t, 'a, u64>
    ensures reads { Gives (λ x. (x.0, x.1.now)) result (constant_at tokens.now) }
    ensures shorter { IfOk result (λ x. length x.1.now < length tokens.now) }
{
    match tokens {
        [first, rest @ ..] => match first.kind {
            TokenKind::Constant(n) => Ok((n, rest)),
            _ => Err(Failure::Syntax(tokens.len())),
        },
        [] => Err(Failure::Syntax(0)),
    }
}
