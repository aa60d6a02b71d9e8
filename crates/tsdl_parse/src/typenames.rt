//! The names of types.

ghost use Rattle.std.specs.Prelude.{◌≡◌, ◌≤◌, not, length, IfOk};
ghost use Rattle.tsdl_text.specs.declared.token.Symbol.TheVariants as s;
ghost use Rattle.tsdl_grammar.specs.Terminals.{is};
ghost use Rattle.tsdl_grammar.specs.Spelling.{run};
ghost use Rattle.tsdl_grammar.specs.Reading.{words_of, typename_at};
ghost use Rattle.tsdl_parse.specs.Gives.{Gives};

use crate::failure::{Failure, Read};
use ctf_list::List;
use std::alloc::{AllocError, Global};
use tsdl_text::{Symbol, Token};
use tsdl_tree::{Typename, Word};

/// How many typewords are first.
fn run(tokens: &[Token<'_>]) -> usize
    ensures count { result ≡ run tokens.now }
    ensures within { result ≤ length tokens.now }
{
    let mut count = 0;
    for token in tokens {
        if !token.is_typeword() {
            return count;
        }
        count += 1;
    }
    count
}

/// Whether a typeword is kept in a name: each but `const`.
fn is_kept(token: &Token<'_>) -> bool
    ensures { result ≡ not (is s.Const token.now) }
{
    !token.is_symbol(Symbol::Const)
}

/// The words but `const`.
fn words(alloc: Global, tokens: &[Token<'_>]) -> Result<List<Word>, AllocError>
    ensures { IfOk result (λ words. words ≡ words_of tokens.now) }
{
    let mut found = Vec::with_capacity(alloc, tokens.len())?;
    for token in tokens {
        if is_kept(token) {
            found.push(List::from_slice(alloc, token.text)?)?;
        }
    }
    Ok(List::from_vec(found))
}

/// The whole run of typewords, without its last word before a declarator. `const` is not kept.
#[tactic(auto, using(crate::proofs::Runs::some_words_some), unfolding(tsdl_grammar::specs::Reading::typename_at))]
pub(crate) fn typename<'t, 'a>(
    alloc: Global,
    before_declarator: bool,
    tokens: &'t [Token<'a>],
) -> Read<'t, 'a, Typename>
    ensures reads { Gives (λ x. (x.0, x.1.now)) result (typename_at before_declarator tokens.now) }
    ensures within { IfOk result (λ x. length x.1.now ≤ length tokens.now) }
{
    let count = run(tokens);
    let count = if before_declarator {
        count.saturating_sub(1)
    } else {
        count
    };
    let (front, rest) = tokens.split_at(count);
    let words = words(alloc, front)?;
    if words.is_empty() {
        return Err(Failure::Syntax(rest.len()));
    }
    Ok((Typename { words }, rest))
}
