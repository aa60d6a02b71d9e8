//! Declarators and their lengths.

ghost use Rattle.std.specs.Prelude.{◌<◌, length, refl, IfOk};
ghost use Rattle.tsdl_text.specs.declared.token.Symbol.TheVariants as s;
ghost use Rattle.tsdl_grammar.specs.Steps.{begins};
ghost use Rattle.tsdl_grammar.specs.Reading.{bound_at, length_at, declarator_at, next_declarator_at, declarators_at, declared_at};
ghost use Rattle.tsdl_parse.specs.Gives.{Gives};

use crate::failure::{Failure, Read};
use crate::part::{Part, many, more};
use crate::settings::path;
use crate::terminals::{begins, end_with, expect, identifier};
use ctf_list::List;
use std::alloc::Global;
use tsdl_text::{Symbol, Token, TokenKind};
use tsdl_tree::{Declarator, Length};

/// What is in brackets: a constant or a path.
#[tactic(auto, unfolding(tsdl_grammar::specs::Reading::bound_at))]
fn bound<'t, 'a>(alloc: Global, tokens: &'t [Token<'a>]) -> Read<'t, 'a, Length>
    ensures reads { Gives (λ x. (x.0, x.1.now)) result (bound_at tokens.now) }
    ensures shorter { IfOk result (λ x. length x.1.now < length tokens.now) }
{
    let [first, rest @ ..] = tokens else {
        return Err(Failure::Syntax(0));
    };
    match first.kind {
        TokenKind::Constant(count) => Ok((Length::Constant(count), rest)),
        TokenKind::Identifier | TokenKind::String | TokenKind::Symbol(_) => {
            let (path, rest) = path(alloc, tokens)?;
            Ok((Length::Path(path), rest))
        }
    }
}

/// `[length]`
#[derive(Clone, Copy)]
struct Bracketed;

impl Part for Bracketed {
    type Tree = Length;

    ghost comes = { λ _. begins s.OpenBracket };

    ghost part_at = { λ _. length_at };

    fn comes(&self, tokens: &[Token<'_>]) -> bool {
        begins(Symbol::OpenBracket, tokens)
    }

    #[tactic(auto, unfolding(tsdl_grammar::specs::Reading::length_at))]
    fn read<'t, 'a>(&self, alloc: Global, tokens: &'t [Token<'a>]) -> Read<'t, 'a, Length> {
        let rest = expect(Symbol::OpenBracket, tokens)?;
        let (bound, rest) = bound(alloc, rest)?;
        end_with(bound, Symbol::CloseBracket, rest)
    }

    ghost stops = { λ _. refl };
}

/// `name[length]..`
#[tactic(auto, unfolding(tsdl_grammar::specs::Reading::declarator_at))]
fn declarator<'t, 'a>(alloc: Global, tokens: &'t [Token<'a>]) -> Read<'t, 'a, Declarator>
    ensures reads { Gives (λ x. (x.0, x.1.now)) result (declarator_at tokens.now) }
    ensures shorter { IfOk result (λ x. length x.1.now < length tokens.now) }
{
    let (name, rest) = identifier(alloc, tokens)?;
    let (lengths, rest) = many(alloc, &Bracketed, rest)?;
    Ok((Declarator { name, lengths }, rest))
}

/// `,` and a declarator.
#[derive(Clone, Copy)]
struct NextDeclarator;

impl Part for NextDeclarator {
    type Tree = Declarator;

    ghost comes = { λ _. begins s.Comma };

    ghost part_at = { λ _. next_declarator_at };

    fn comes(&self, tokens: &[Token<'_>]) -> bool {
        begins(Symbol::Comma, tokens)
    }

    #[tactic(auto, unfolding(tsdl_grammar::specs::Reading::next_declarator_at))]
    fn read<'t, 'a>(&self, alloc: Global, tokens: &'t [Token<'a>]) -> Read<'t, 'a, Declarator> {
        let rest = expect(Symbol::Comma, tokens)?;
        declarator(alloc, rest)
    }

    ghost stops = { λ _. refl };
}

/// Declarators with commas between them.
#[tactic(auto, unfolding(tsdl_grammar::specs::Reading::declarators_at))]
fn declarators<'t, 'a>(alloc: Global, tokens: &'t [Token<'a>]) -> Read<'t, 'a, List<Declarator>>
    ensures reads { Gives (λ x. (x.0, x.1.now)) result (declarators_at tokens.now) }
    ensures shorter { IfOk result (λ x. length x.1.now < length tokens.now) }
{
    let (first, rest) = declarator(alloc, tokens)?;
    more(alloc, first, &NextDeclarator, rest)
}

/// `declarator, ..;`
#[tactic(auto, unfolding(tsdl_grammar::specs::Reading::declared_at))]
pub(crate) fn declarator_list<'t, 'a>(
    alloc: Global,
    tokens: &'t [Token<'a>],
) -> Read<'t, 'a, List<Declarator>>
    ensures reads { Gives (λ x. (x.0, x.1.now)) result (declared_at tokens.now) }
    ensures shorter { IfOk result (λ x. length x.1.now < length tokens.now) }
{
    let (declarators, rest) = declarators(alloc, tokens)?;
    end_with(declarators, Symbol::Semicolon, rest)
}
