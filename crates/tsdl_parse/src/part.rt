//! Parts of the grammar that occur any number of times, or not at all.

ghost use Rattle.std.specs.Prelude.{◌≡◌, ◌<◌, ◌≤◌, [], ◌∷◌, length, IfOk};
ghost use Rattle.tsdl_grammar.specs.Steps.{all, optional};
ghost use Rattle.tsdl_parse.specs.Gives.{Gives};
ghost use Rattle.tsdl_parse.specs.Front.{with_front};

use crate::failure::Read;
use ctf_list::List;
use std::alloc::{AllocError, Global};
use tsdl_text::Token;

/// A part of the grammar that occurs any number of times, or not at all.
pub(crate) trait Part {
    ghost use Rattle.std.specs.Prelude.{Bool, false, List};
    ghost use Rattle.tsdl_text.specs.declared.token.Token.{Token};
    ghost use Rattle.tsdl_grammar.specs.Steps.{Parse};

    /// What is read.
    type Tree: Drop;

    // whether it comes next
    ghost comes: { Self → List Token → Bool };

    // how the grammar's reading reads it
    ghost part_at: { Self → Parse Self.Tree };

    /// Whether the part comes next.
    fn comes(&self, tokens: &[Token<'_>]) -> bool
        ensures { result ≡ comes self.now tokens.now };

    /// The part that comes next.
    fn read<'t, 'a>(&self, alloc: Global, tokens: &'t [Token<'a>]) -> Read<'t, 'a, Self::Tree>
        ensures reads { Gives (λ x. (x.0, x.1.now)) result (part_at self.now tokens.now) }
        ensures shorter { IfOk result (λ x. length x.1.now < length tokens.now) };

    // at the end of the tokens it does not come
    ghost stops: { (part : Self) → comes part [] ≡ false };
}

/// What is found before a loop's first turn, and the tokens that are left. The borrow checker refuses a
/// loop whose reference begins as a copy of a parameter, and takes one out of a pair.
pub(crate) fn start<'t, 'a, T>(found: Vec<T>, tokens: &'t [Token<'a>]) -> (Vec<T>, &'t [Token<'a>])
    ensures found { result.0 ≡ found }
    ensures rest { result.1.now ≡ tokens.now }
{
    (found, tokens)
}

/// No parts yet, with room for one where one comes: most lists have no second.
pub(crate) fn room_for<T>(alloc: Global, comes: bool) -> Result<Vec<T>, AllocError>
    ensures { IfOk result (λ found. found.items ≡ []) }
{
    Vec::with_capacity(alloc, usize::from(comes))
}

/// What was found before, and then the parts that come next, one after the other.
fn parts_after<'t, 'a, P: Part>(
    alloc: Global,
    found: Vec<P::Tree>,
    part: &P,
    tokens: &'t [Token<'a>],
) -> Read<'t, 'a, List<P::Tree>>
    ensures reads { Gives (λ x. (x.0, x.1.now)) result
        (with_front found.items (all (P.comes part.now) (P.part_at part.now) tokens.now)) }
    ensures within { IfOk result (λ x. length x.1.now ≤ length tokens.now) }
{
    let (mut found, mut rest) = start(found, tokens);
    'turns: while part.comes(rest) {
        let (next, after) = part.read(alloc, rest)?;
        found.push(next)?;
        rest = after;
    }
    // The tree is there while classes are made of it: what is not needed is given back.
    found.shrink_to_fit();
    Ok((List::from_vec(found), rest))
}

/// The parts that come next, one after the other.
pub(crate) fn many<'t, 'a, P: Part>(
    alloc: Global,
    part: &P,
    tokens: &'t [Token<'a>],
) -> Read<'t, 'a, List<P::Tree>>
    ensures reads { Gives (λ x. (x.0, x.1.now)) result
        (all (P.comes part.now) (P.part_at part.now) tokens.now) }
    ensures within { IfOk result (λ x. length x.1.now ≤ length tokens.now) }
{
    parts_after(alloc, room_for(alloc, part.comes(tokens))?, part, tokens)
}

/// A part that was read, and then the parts that come next, one after the other.
pub(crate) fn more<'t, 'a, P: Part>(
    alloc: Global,
    first: P::Tree,
    part: &P,
    tokens: &'t [Token<'a>],
) -> Read<'t, 'a, List<P::Tree>>
    ensures reads { Gives (λ x. (x.0, x.1.now)) result
        (with_front (first ∷ []) (all (P.comes part.now) (P.part_at part.now) tokens.now)) }
    ensures within { IfOk result (λ x. length x.1.now ≤ length tokens.now) }
{
    let mut found = room_for(alloc, true)?;
    found.push(first)?;
    parts_after(alloc, found, part, tokens)
}

/// The part, where it comes next.
#[tactic(auto, unfolding(tsdl_grammar::specs::Steps::optional))]
pub(crate) fn at_most_one<'t, 'a, P: Part>(
    alloc: Global,
    part: &P,
    tokens: &'t [Token<'a>],
) -> Read<'t, 'a, Option<P::Tree>>
    ensures reads { Gives (λ x. (x.0, x.1.now)) result
        (optional (P.comes part.now) (P.part_at part.now) tokens.now) }
    ensures within { IfOk result (λ x. length x.1.now ≤ length tokens.now) }
{
    if !part.comes(tokens) {
        return Ok((None, tokens));
    }
    let (one, rest) = part.read(alloc, tokens)?;
    Ok((Some(one), rest))
}
