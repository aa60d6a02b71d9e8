//! Names, numbers, values and settings.

ghost use Rattle.std.specs.Prelude.{◌<◌, length, refl, IfOk};
ghost use Rattle.tsdl_text.specs.declared.token.Symbol.TheVariants as s;
ghost use Rattle.tsdl_grammar.specs.Steps.{begins, before_close};
ghost use Rattle.tsdl_grammar.specs.Reading.{dotted_at, path_at, magnitude_at, number_at, value_at, setting_after, setting_at, attributes_at};
ghost use Rattle.tsdl_parse.specs.Gives.{Gives};

use crate::failure::{Failure, Read};
use crate::part::{Part, many, more};
use crate::terminals::{begins, constant, end_with, expect, goes_on, open, past, word};
use ctf_list::List;
use std::alloc::Global;
use tsdl_text::{Symbol, Token};
use tsdl_tree::{Number, Path, Setting, Value, Word};

/// `.` and a word.
#[derive(Clone, Copy)]
struct DotWord;

impl Part for DotWord {
    type Tree = Word;

    ghost comes = { λ _. begins s.Dot };

    ghost part_at = { λ _. dotted_at };

    fn comes(&self, tokens: &[Token<'_>]) -> bool {
        begins(Symbol::Dot, tokens)
    }

    #[tactic(auto, unfolding(tsdl_grammar::specs::Reading::dotted_at))]
    fn read<'t, 'a>(&self, alloc: Global, tokens: &'t [Token<'a>]) -> Read<'t, 'a, Word> {
        let rest = expect(Symbol::Dot, tokens)?;
        word(alloc, rest)
    }

    ghost stops = { λ _. refl };
}

/// Words with dots between them.
#[tactic(auto, unfolding(tsdl_grammar::specs::Reading::path_at))]
pub(crate) fn path<'t, 'a>(alloc: Global, tokens: &'t [Token<'a>]) -> Read<'t, 'a, Path>
    ensures reads { Gives (λ x. (x.0, x.1.now)) result (path_at tokens.now) }
    ensures shorter { IfOk result (λ x. length x.1.now < length tokens.now) }
{
    let (first, rest) = word(alloc, tokens)?;
    more(alloc, first, &DotWord, rest)
}

/// A constant, with the sign that was read before it.
#[tactic(auto, unfolding(tsdl_grammar::specs::Reading::magnitude_at))]
fn magnitude<'t, 'a>(is_negative: bool, tokens: &'t [Token<'a>]) -> Read<'t, 'a, Number>
    ensures reads { Gives (λ x. (x.0, x.1.now)) result (magnitude_at is_negative tokens.now) }
    ensures shorter { IfOk result (λ x. length x.1.now < length tokens.now) }
{
    let (magnitude, rest) = constant(tokens)?;
    Ok((
        Number {
            is_negative,
            magnitude,
        },
        rest,
    ))
}

/// A constant with its sign.
#[tactic(auto, unfolding(tsdl_grammar::specs::Reading::number_at))]
pub(crate) fn number<'t, 'a>(tokens: &'t [Token<'a>]) -> Read<'t, 'a, Number>
    ensures reads { Gives (λ x. (x.0, x.1.now)) result (number_at tokens.now) }
    ensures shorter { IfOk result (λ x. length x.1.now < length tokens.now) }
{
    if begins(Symbol::Minus, tokens) {
        let rest = expect(Symbol::Minus, tokens)?;
        return magnitude(true, rest);
    }
    magnitude(false, past(Symbol::Plus, tokens))
}

/// What is after the `=` of a setting.
#[tactic(auto, unfolding(tsdl_grammar::specs::Reading::value_at))]
fn value<'t, 'a>(alloc: Global, tokens: &'t [Token<'a>]) -> Read<'t, 'a, Value>
    ensures reads { Gives (λ x. (x.0, x.1.now)) result (value_at tokens.now) }
    ensures shorter { IfOk result (λ x. length x.1.now < length tokens.now) }
{
    let [first, rest @ ..] = tokens else {
        return Err(Failure::Syntax(0));
    };
    if first.is_word() {
        let (name, rest) = path(alloc, tokens)?;
        return Ok((Value::Name(name), rest));
    }
    if let Some(text) = first.string(alloc)? {
        return Ok((Value::Text(List::from_vec(text)), rest));
    }
    let (number, rest) = number(tokens)?;
    Ok((Value::Number(number), rest))
}

/// The rest of a setting, after its name.
#[tactic(auto, unfolding(tsdl_grammar::specs::Reading::setting_after))]
pub(crate) fn setting_after<'t, 'a>(
    alloc: Global,
    name: Path,
    tokens: &'t [Token<'a>],
) -> Read<'t, 'a, Setting>
    ensures reads { Gives (λ x. (x.0, x.1.now)) result (setting_after name tokens.now) }
    ensures shorter { IfOk result (λ x. length x.1.now < length tokens.now) }
{
    let rest = expect(Symbol::Equals, tokens)?;
    let (value, rest) = value(alloc, rest)?;
    let (value, rest) = end_with(value, Symbol::Semicolon, rest)?;
    Ok((Setting { name, value }, rest))
}

/// `name = value;`, up to a closing brace.
#[derive(Clone, Copy)]
struct NextSetting;

impl Part for NextSetting {
    type Tree = Setting;

    ghost comes = { λ _. before_close };

    ghost part_at = { λ _. setting_at };

    fn comes(&self, tokens: &[Token<'_>]) -> bool {
        goes_on(tokens)
    }

    #[tactic(auto, unfolding(tsdl_grammar::specs::Reading::setting_at))]
    fn read<'t, 'a>(&self, alloc: Global, tokens: &'t [Token<'a>]) -> Read<'t, 'a, Setting> {
        let (name, rest) = path(alloc, tokens)?;
        setting_after(alloc, name, rest)
    }

    ghost stops = { λ _. refl };
}

/// Settings in braces, of which so many more may nest.
#[tactic(auto, unfolding(tsdl_grammar::specs::Reading::attributes_at))]
pub(crate) fn attributes<'t, 'a>(
    alloc: Global,
    depth: u32,
    tokens: &'t [Token<'a>],
) -> Read<'t, 'a, List<Setting>>
    ensures reads { Gives (λ x. (x.0, x.1.now)) result (attributes_at depth tokens.now) }
    ensures shorter { IfOk result (λ x. length x.1.now < length tokens.now) }
{
    let rest = open(depth, tokens)?;
    let (settings, rest) = many(alloc, &NextSetting, rest)?;
    end_with(settings, Symbol::CloseBrace, rest)
}
