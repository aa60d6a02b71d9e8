//! The tree of a whole text.

ghost use Rattle.std.specs.Prelude.{◌≡◌, ◌≤◌, IfOk, IfErr};
ghost use Rattle.tsdl_grammar.specs.Spelling.{Spells, last_line};
ghost use Rattle.tsdl_grammar.specs.Nesting.{NestsDeeper};
ghost use Rattle.tsdl_grammar.specs.Reading.{tree_at};
ghost use Rattle.tsdl_parse.specs.Gives.{Gives};
ghost use Rattle.tsdl_parse.specs.Fault.{IsCause};

use crate::blocks::Outermost;
use crate::failure::Failure;
use crate::fault::SyntaxFault;
use crate::part::many;
use std::alloc::Global;
use tsdl_text::{LineNumber, Token};
use tsdl_tree::Tree;

/// How many braces may be in one another, those of blocks, bodies, labels and attributes alike.
/// (Own, as a limit.)
pub const BRACE_LIMIT: u32 = 64;

/// The limit as a number: what contracts and definitions mean by its name.
pub fn brace_limit()
    ensures { BRACE_LIMIT ≡ 64 }
{}

/// The tree, or why there is none.
#[tactic(auto, unfolding(tsdl_grammar::specs::Reading::tree_at))]
fn tree(alloc: Global, tokens: &[Token<'_>]) -> Result<Tree, Failure>
    ensures { Gives (λ tree. tree) result (tree_at BRACE_LIMIT tokens.now) }
{
    let outermost = Outermost { depth: BRACE_LIMIT };
    let (declarations, _) = many(alloc, &outermost, tokens)?;
    Ok(Tree { declarations })
}

/// The line of the last token, 1 where there is none.
fn last_line(tokens: &[Token<'_>]) -> LineNumber
    ensures { result ≡ last_line tokens.now }
{
    match tokens {
        [] => LineNumber::new(1),
        [.., last] => last.line,
    }
}

/// The line at which so many tokens were left, but none after the last token's.
fn line_at(left: usize, tokens: &[Token<'_>]) -> LineNumber
    ensures first { 1 ≤ result }
    ensures last { result ≤ last_line tokens.now }
{
    let last = last_line(tokens);
    match tokens.get(tokens.len().saturating_sub(left)) {
        Some(token) if token.line.number() < last.number() => token.line,
        _ => last,
    }
}

/// The tree that the tokens spell, by the grammar of TSDL (CTF 1.8.3, appendix C.2).
///
/// It answers S2 where no tree is spelled, and R9 where more than [`BRACE_LIMIT`] braces are in
/// one another; where both are the case, either. `NoMemory` may come in the place of any answer.
pub fn parse(alloc: Global, tokens: &[Token<'_>]) -> Result<Tree, SyntaxFault>
    ensures spelled { IfOk result (λ tree. Spells tree tokens.now) }
    ensures nested { IfOk result (λ tree. ¬ NestsDeeper BRACE_LIMIT tokens.now) }
    ensures fault { IfErr result (λ fault. IsCause fault tokens.now) }
{
    match tree(alloc, tokens) {
        Ok(tree) => Ok(tree),
        Err(Failure::Syntax(left)) => Err(SyntaxFault::Syntax {
            line: line_at(left, tokens),
        }),
        Err(Failure::Deep) => Err(SyntaxFault::TooDeep),
        Err(Failure::NoMemory) => Err(SyntaxFault::NoMemory),
    }
}
