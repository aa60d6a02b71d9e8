//! Enumerations: their containers and labels.

ghost use Rattle.std.specs.Prelude.{◌≡◌, ◌<◌, length, refl, IfOk};
ghost use Rattle.tsdl_text.specs.declared.token.Symbol.TheVariants as s;
ghost use Rattle.tsdl_grammar.specs.Steps.{begins, begins_labels, before_label};
ghost use Rattle.tsdl_grammar.specs.Reading.{container_at, range_end_at, span_at, label_name_at, label_at, next_label_at, labels_at, enum_at};
ghost use Rattle.tsdl_parse.specs.Gives.{Gives};

use crate::failure::{Failure, Read};
use crate::part::{Part, at_most_one, more};
use crate::settings::{attributes, number};
use crate::terminals::{OwnName, begins, end_with, expect, open, past};
use crate::typenames::typename;
use ctf_list::List;
use std::alloc::Global;
use tsdl_text::{Symbol, Token};
use tsdl_tree::{Compound, Container, Label, Number, Reference, Span, Specifier, Word};

/// `: container`
#[derive(Clone, Copy)]
struct OwnContainer {
    depth: u32,
}

impl Part for OwnContainer {
    type Tree = Container;

    ghost comes = { λ _. begins s.Colon };

    ghost part_at = { λ part. container_at part.depth };

    fn comes(&self, tokens: &[Token<'_>]) -> bool {
        begins(Symbol::Colon, tokens)
    }

    #[tactic(auto, unfolding(tsdl_grammar::specs::Reading::container_at))]
    fn read<'t, 'a>(&self, alloc: Global, tokens: &'t [Token<'a>]) -> Read<'t, 'a, Container> {
        let rest = expect(Symbol::Colon, tokens)?;
        if begins(Symbol::Integer, rest) {
            let rest = expect(Symbol::Integer, rest)?;
            let (settings, rest) = attributes(alloc, self.depth, rest)?;
            return Ok((Container::Integer(settings), rest));
        }
        let (name, rest) = typename(alloc, false, rest)?;
        Ok((Container::Named(name), rest))
    }

    ghost stops = { λ _. refl };
}

/// `... last`
#[derive(Clone, Copy)]
struct RangeEnd;

impl Part for RangeEnd {
    type Tree = Number;

    ghost comes = { λ _. begins s.Ellipsis };

    ghost part_at = { λ _. range_end_at };

    fn comes(&self, tokens: &[Token<'_>]) -> bool {
        begins(Symbol::Ellipsis, tokens)
    }

    #[tactic(auto, unfolding(tsdl_grammar::specs::Reading::range_end_at))]
    fn read<'t, 'a>(&self, alloc: Global, tokens: &'t [Token<'a>]) -> Read<'t, 'a, Number> {
        let rest = expect(Symbol::Ellipsis, tokens)?;
        number(rest)
    }

    ghost stops = { λ _. refl };
}

/// `= first` or `= first ... last`
#[derive(Clone, Copy)]
struct OwnSpan;

impl Part for OwnSpan {
    type Tree = Span;

    ghost comes = { λ _. begins s.Equals };

    ghost part_at = { λ _. span_at };

    fn comes(&self, tokens: &[Token<'_>]) -> bool {
        begins(Symbol::Equals, tokens)
    }

    #[tactic(auto, unfolding(tsdl_grammar::specs::Reading::span_at))]
    fn read<'t, 'a>(&self, alloc: Global, tokens: &'t [Token<'a>]) -> Read<'t, 'a, Span> {
        let rest = expect(Symbol::Equals, tokens)?;
        let (first, rest) = number(rest)?;
        let (last, rest) = at_most_one(alloc, &RangeEnd, rest)?;
        Ok((Span { first, last }, rest))
    }

    ghost stops = { λ _. refl };
}

/// A word or a string.
#[tactic(auto, unfolding(tsdl_grammar::specs::Reading::label_name_at))]
fn label_name<'t, 'a>(alloc: Global, tokens: &'t [Token<'a>]) -> Read<'t, 'a, Word>
    ensures reads { Gives (λ x. (x.0, x.1.now)) result (label_name_at tokens.now) }
    ensures shorter { IfOk result (λ x. length x.1.now < length tokens.now) }
{
    let [first, rest @ ..] = tokens else {
        return Err(Failure::Syntax(0));
    };
    if first.is_word() {
        return Ok((List::from_slice(alloc, first.text)?, rest));
    }
    match first.string(alloc)? {
        Some(text) => Ok((List::from_vec(text), rest)),
        None => Err(Failure::Syntax(tokens.len())),
    }
}

/// `name` or `name = span`
#[tactic(auto, unfolding(tsdl_grammar::specs::Reading::label_at))]
fn label<'t, 'a>(alloc: Global, tokens: &'t [Token<'a>]) -> Read<'t, 'a, Label>
    ensures reads { Gives (λ x. (x.0, x.1.now)) result (label_at tokens.now) }
    ensures shorter { IfOk result (λ x. length x.1.now < length tokens.now) }
{
    let (name, rest) = label_name(alloc, tokens)?;
    let (span, rest) = at_most_one(alloc, &OwnSpan, rest)?;
    Ok((Label { name, span }, rest))
}

/// `,` and a label. A comma that is the last before the brace is none.
#[derive(Clone, Copy)]
struct NextLabel;

impl Part for NextLabel {
    type Tree = Label;

    ghost comes = { λ _. before_label };

    ghost part_at = { λ _. next_label_at };

    fn comes(&self, tokens: &[Token<'_>]) -> bool {
        match tokens {
            [first, rest @ ..] => {
                first.is_symbol(Symbol::Comma) && !begins(Symbol::CloseBrace, rest)
            }
            [] => false,
        }
    }

    #[tactic(auto, unfolding(tsdl_grammar::specs::Reading::next_label_at))]
    fn read<'t, 'a>(&self, alloc: Global, tokens: &'t [Token<'a>]) -> Read<'t, 'a, Label> {
        let rest = expect(Symbol::Comma, tokens)?;
        label(alloc, rest)
    }

    ghost stops = { λ _. refl };
}

/// Labels in braces, with commas between them, of which one more may be after the last.
#[tactic(auto, unfolding(tsdl_grammar::specs::Reading::labels_at))]
fn labels<'t, 'a>(alloc: Global, depth: u32, tokens: &'t [Token<'a>]) -> Read<'t, 'a, List<Label>>
    ensures reads { Gives (λ x. (x.0, x.1.now)) result (labels_at depth tokens.now) }
    ensures shorter { IfOk result (λ x. length x.1.now < length tokens.now) }
{
    let rest = open(depth, tokens)?;
    let (first, rest) = label(alloc, rest)?;
    let (labels, rest) = more(alloc, first, &NextLabel, rest)?;
    end_with(labels, Symbol::CloseBrace, past(Symbol::Comma, rest))
}

/// Whether labels, or the container before them, come first.
fn begins_labels(tokens: &[Token<'_>]) -> bool
    ensures { result ≡ begins_labels tokens.now }
{
    begins(Symbol::Colon, tokens) || begins(Symbol::OpenBrace, tokens)
}

/// `enum name : container { labels }`, or its name alone.
#[tactic(auto, unfolding(tsdl_grammar::specs::Reading::enum_at))]
pub(crate) fn enumeration<'t, 'a>(
    alloc: Global,
    depth: u32,
    tokens: &'t [Token<'a>],
) -> Read<'t, 'a, Specifier>
    ensures reads { Gives (λ x. (x.0, x.1.now)) result (enum_at depth tokens.now) }
    ensures shorter { IfOk result (λ x. length x.1.now < length tokens.now) }
{
    let rest = expect(Symbol::Enum, tokens)?;
    let (name, rest) = at_most_one(alloc, &OwnName, rest)?;
    if begins_labels(rest) {
        let (container, rest) = at_most_one(alloc, &OwnContainer { depth }, rest)?;
        let (labels, rest) = labels(alloc, depth, rest)?;
        let compound = Compound::Enum { container, labels };
        return Ok((Specifier::Compound { name, compound }, rest));
    }
    match name {
        Some(name) => Ok((Specifier::Named(Reference::Enum(name)), rest)),
        None => Err(Failure::Syntax(rest.len())),
    }
}
