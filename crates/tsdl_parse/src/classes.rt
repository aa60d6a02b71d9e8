//! Classes, and the declarations of names and fields that are in their bodies.

ghost use Rattle.std.specs.Prelude.{◌≡◌, ◌<◌, ◌≤◌, length, refl, IfOk};
ghost use Rattle.tsdl_text.specs.declared.token.Symbol.TheVariants as s;
ghost use Rattle.tsdl_grammar.specs.Steps.{all, begins, begins_compound, before_close};
ghost use Rattle.tsdl_grammar.specs.Reading.{align_at, tag_at, integer_at, floating_point_at, string_at, class_declared, fields_after, compound_after, struct_at, variant_at, compound_at, class_at, alias_name_at, alias_at, definition_at, typedecl_at, item_at, body_at};
ghost use Rattle.tsdl_parse.specs.Gives.{Gives};

use crate::declarators::declarator_list;
use crate::enums::enumeration;
use crate::failure::{Failure, Read};
use crate::part::{Part, at_most_one, room_for, start};
use crate::settings::{attributes, path};
use crate::terminals::{OwnName, begins, constant, end_with, expect, goes_on, open, past};
use crate::typenames::typename;
use ctf_list::List;
use std::alloc::Global;
use tsdl_text::{Symbol, Token};
use tsdl_tree::{
    Compound, Declarator, Item, Path, Reference, Specifier, TypeDeclaration, Typename,
};

/// `align(n)`
#[derive(Clone, Copy)]
struct OwnAlign;

impl Part for OwnAlign {
    type Tree = u64;

    ghost comes = { λ _. begins s.Align };

    ghost part_at = { λ _. align_at };

    fn comes(&self, tokens: &[Token<'_>]) -> bool {
        begins(Symbol::Align, tokens)
    }

    #[tactic(auto, unfolding(tsdl_grammar::specs::Reading::align_at))]
    fn read<'t, 'a>(&self, alloc: Global, tokens: &'t [Token<'a>]) -> Read<'t, 'a, u64> {
        let rest = expect(Symbol::Align, tokens)?;
        let rest = expect(Symbol::OpenParen, rest)?;
        let (align, rest) = constant(rest)?;
        end_with(align, Symbol::CloseParen, rest)
    }

    ghost stops = { λ _. refl };
}

/// `<path>`
#[derive(Clone, Copy)]
struct OwnTag;

impl Part for OwnTag {
    type Tree = Path;

    ghost comes = { λ _. begins s.Less };

    ghost part_at = { λ _. tag_at };

    fn comes(&self, tokens: &[Token<'_>]) -> bool {
        begins(Symbol::Less, tokens)
    }

    #[tactic(auto, unfolding(tsdl_grammar::specs::Reading::tag_at))]
    fn read<'t, 'a>(&self, alloc: Global, tokens: &'t [Token<'a>]) -> Read<'t, 'a, Path> {
        let rest = expect(Symbol::Less, tokens)?;
        let (tag, rest) = path(alloc, rest)?;
        end_with(tag, Symbol::Greater, rest)
    }

    ghost stops = { λ _. refl };
}

/// Whether a struct, a variant or an enum comes first.
fn begins_compound(tokens: &[Token<'_>]) -> bool
    ensures { result ≡ begins_compound tokens.now }
{
    begins(Symbol::Struct, tokens)
        || begins(Symbol::Variant, tokens)
        || begins(Symbol::Enum, tokens)
}

/// `integer { settings }`
#[tactic(auto, unfolding(tsdl_grammar::specs::Reading::integer_at))]
fn integer<'t, 'a>(alloc: Global, depth: u32, tokens: &'t [Token<'a>]) -> Read<'t, 'a, Specifier>
    ensures reads { Gives (λ x. (x.0, x.1.now)) result (integer_at depth tokens.now) }
    ensures shorter { IfOk result (λ x. length x.1.now < length tokens.now) }
{
    let rest = expect(Symbol::Integer, tokens)?;
    let (settings, rest) = attributes(alloc, depth, rest)?;
    Ok((Specifier::Integer(settings), rest))
}

/// `floating_point { settings }`
#[tactic(auto, unfolding(tsdl_grammar::specs::Reading::floating_point_at))]
fn floating_point<'t, 'a>(
    alloc: Global,
    depth: u32,
    tokens: &'t [Token<'a>],
) -> Read<'t, 'a, Specifier>
    ensures reads { Gives (λ x. (x.0, x.1.now)) result (floating_point_at depth tokens.now) }
    ensures shorter { IfOk result (λ x. length x.1.now < length tokens.now) }
{
    let rest = expect(Symbol::FloatingPoint, tokens)?;
    let (settings, rest) = attributes(alloc, depth, rest)?;
    Ok((Specifier::FloatingPoint(settings), rest))
}

/// `string { settings }`, with or without the braces.
#[tactic(auto, unfolding(tsdl_grammar::specs::Reading::string_at))]
fn string<'t, 'a>(alloc: Global, depth: u32, tokens: &'t [Token<'a>]) -> Read<'t, 'a, Specifier>
    ensures reads { Gives (λ x. (x.0, x.1.now)) result (string_at depth tokens.now) }
    ensures shorter { IfOk result (λ x. length x.1.now < length tokens.now) }
{
    let rest = expect(Symbol::String, tokens)?;
    if !begins(Symbol::OpenBrace, rest) {
        return Ok((Specifier::String(List::from_vec(Vec::new(alloc))), rest));
    }
    let (settings, rest) = attributes(alloc, depth, rest)?;
    Ok((Specifier::String(settings), rest))
}

/// A class, and `declarator, ..;` after it.
#[tactic(auto, unfolding(tsdl_grammar::specs::Reading::class_declared))]
fn class_declared<'t, 'a>(
    alloc: Global,
    class: Specifier,
    tokens: &'t [Token<'a>],
) -> Read<'t, 'a, (Specifier, List<Declarator>)>
    ensures reads { Gives (λ x. (x.0, x.1.now)) result (class_declared class tokens.now) }
    ensures shorter { IfOk result (λ x. length x.1.now < length tokens.now) }
{
    let (declarators, rest) = declarator_list(alloc, tokens)?;
    Ok(((class, declarators), rest))
}

/// The fields that have a class.
#[tactic(auto, unfolding(tsdl_grammar::specs::Reading::fields_after))]
fn fields_after<'t, 'a>(
    alloc: Global,
    class: Specifier,
    tokens: &'t [Token<'a>],
) -> Read<'t, 'a, Item>
    ensures reads { Gives (λ x. (x.0, x.1.now)) result (fields_after class tokens.now) }
    ensures shorter { IfOk result (λ x. length x.1.now < length tokens.now) }
{
    let ((class, declarators), rest) = class_declared(alloc, class, tokens)?;
    Ok((Item::Fields { class, declarators }, rest))
}

/// The semicolon after a compound with a name and a body.
#[tactic(auto, unfolding(tsdl_grammar::specs::Reading::compound_after))]
fn compound_after<'t, 'a>(
    class: Specifier,
    tokens: &'t [Token<'a>],
) -> Read<'t, 'a, TypeDeclaration>
    ensures reads { Gives (λ x. (x.0, x.1.now)) result (compound_after class tokens.now) }
    ensures shorter { IfOk result (λ x. length x.1.now < length tokens.now) }
{
    let Specifier::Compound { name, compound } = class else {
        return Err(Failure::Syntax(tokens.len()));
    };
    let Some(name) = name else {
        return Err(Failure::Syntax(tokens.len()));
    };
    let rest = expect(Symbol::Semicolon, tokens)?;
    Ok((TypeDeclaration::Compound { name, compound }, rest))
}

/// `struct name { items } align(n)`, or its name alone.
#[cycle(classes)]
#[tactic(auto, unfolding(tsdl_grammar::specs::Reading::struct_at))]
fn structure<'t, 'a>(alloc: Global, depth: u32, tokens: &'t [Token<'a>]) -> Read<'t, 'a, Specifier>
    ensures reads { Gives (λ x. (x.0, x.1.now)) result (struct_at (body_at depth) tokens.now) }
    ensures shorter { IfOk result (λ x. length x.1.now < length tokens.now) }
{
    let rest = expect(Symbol::Struct, tokens)?;
    let (name, rest) = at_most_one(alloc, &OwnName, rest)?;
    if begins(Symbol::OpenBrace, rest) {
        let (items, rest) = body(alloc, depth, rest)?;
        let (align, rest) = at_most_one(alloc, &OwnAlign, rest)?;
        let compound = Compound::Struct { items, align };
        return Ok((Specifier::Compound { name, compound }, rest));
    }
    match name {
        Some(name) => Ok((Specifier::Named(Reference::Struct(name)), rest)),
        None => Err(Failure::Syntax(rest.len())),
    }
}

/// `variant name <tag> { items }`, or its name and tag alone.
#[cycle(classes)]
#[tactic(auto, unfolding(tsdl_grammar::specs::Reading::variant_at))]
fn variant<'t, 'a>(alloc: Global, depth: u32, tokens: &'t [Token<'a>]) -> Read<'t, 'a, Specifier>
    ensures reads { Gives (λ x. (x.0, x.1.now)) result (variant_at (body_at depth) tokens.now) }
    ensures shorter { IfOk result (λ x. length x.1.now < length tokens.now) }
{
    let rest = expect(Symbol::Variant, tokens)?;
    let (name, rest) = at_most_one(alloc, &OwnName, rest)?;
    let (tag, rest) = at_most_one(alloc, &OwnTag, rest)?;
    if begins(Symbol::OpenBrace, rest) {
        let (items, rest) = body(alloc, depth, rest)?;
        let compound = Compound::Variant { tag, items };
        return Ok((Specifier::Compound { name, compound }, rest));
    }
    match name {
        Some(name) => Ok((Specifier::Named(Reference::Variant { name, tag }), rest)),
        None => Err(Failure::Syntax(rest.len())),
    }
}

/// A struct, a variant or an enum.
#[cycle(classes)]
#[tactic(auto, unfolding(tsdl_grammar::specs::Reading::compound_at))]
fn compound<'t, 'a>(alloc: Global, depth: u32, tokens: &'t [Token<'a>]) -> Read<'t, 'a, Specifier>
    ensures reads { Gives (λ x. (x.0, x.1.now)) result
        (compound_at (body_at depth) depth tokens.now) }
    ensures shorter { IfOk result (λ x. length x.1.now < length tokens.now) }
{
    if begins(Symbol::Struct, tokens) {
        return structure(alloc, depth, tokens);
    }
    if begins(Symbol::Variant, tokens) {
        return variant(alloc, depth, tokens);
    }
    enumeration(alloc, depth, tokens)
}

/// A class, with or without `const` before it. Before a declarator a typename leaves it the run's last
/// word.
#[cycle(classes)]
#[tactic(auto, unfolding(tsdl_grammar::specs::Reading::class_at, tsdl_grammar::specs::Reading::plain_at))]
pub(crate) fn class<'t, 'a>(
    alloc: Global,
    before_declarator: bool,
    depth: u32,
    tokens: &'t [Token<'a>],
) -> Read<'t, 'a, Specifier>
    ensures reads { Gives (λ x. (x.0, x.1.now)) result
        (class_at (body_at depth) before_declarator depth tokens.now) }
    ensures within { IfOk result (λ x. length x.1.now ≤ length tokens.now) }
{
    let tokens = past(Symbol::Const, tokens);
    if begins(Symbol::Integer, tokens) {
        return integer(alloc, depth, tokens);
    }
    if begins(Symbol::FloatingPoint, tokens) {
        return floating_point(alloc, depth, tokens);
    }
    if begins(Symbol::String, tokens) {
        return string(alloc, depth, tokens);
    }
    if begins_compound(tokens) {
        return compound(alloc, depth, tokens);
    }
    let (name, rest) = typename(alloc, before_declarator, tokens)?;
    Ok((Specifier::Named(Reference::Plain(name)), rest))
}

/// `:= name;`
#[tactic(auto, unfolding(tsdl_grammar::specs::Reading::alias_name_at))]
fn alias_name<'t, 'a>(alloc: Global, tokens: &'t [Token<'a>]) -> Read<'t, 'a, Typename>
    ensures reads { Gives (λ x. (x.0, x.1.now)) result (alias_name_at tokens.now) }
    ensures shorter { IfOk result (λ x. length x.1.now < length tokens.now) }
{
    let rest = expect(Symbol::Assign, tokens)?;
    let (name, rest) = typename(alloc, false, rest)?;
    end_with(name, Symbol::Semicolon, rest)
}

/// `typealias class := name;`
#[cycle(classes)]
#[tactic(auto, unfolding(tsdl_grammar::specs::Reading::alias_at))]
fn alias<'t, 'a>(
    alloc: Global,
    depth: u32,
    tokens: &'t [Token<'a>],
) -> Read<'t, 'a, TypeDeclaration>
    ensures reads { Gives (λ x. (x.0, x.1.now)) result (alias_at (body_at depth) depth tokens.now) }
    ensures shorter { IfOk result (λ x. length x.1.now < length tokens.now) }
{
    let rest = expect(Symbol::Typealias, tokens)?;
    let (class, rest) = class(alloc, false, depth, rest)?;
    let (name, rest) = alias_name(alloc, rest)?;
    Ok((TypeDeclaration::Alias { class, name }, rest))
}

/// `typedef class declarator, ..;`
#[cycle(classes)]
#[tactic(auto, unfolding(tsdl_grammar::specs::Reading::definition_at))]
fn definition<'t, 'a>(
    alloc: Global,
    depth: u32,
    tokens: &'t [Token<'a>],
) -> Read<'t, 'a, TypeDeclaration>
    ensures reads { Gives (λ x. (x.0, x.1.now)) result
        (definition_at (body_at depth) depth tokens.now) }
    ensures shorter { IfOk result (λ x. length x.1.now < length tokens.now) }
{
    let rest = expect(Symbol::Typedef, tokens)?;
    let (class, rest) = class(alloc, true, depth, rest)?;
    let ((class, declarators), rest) = class_declared(alloc, class, rest)?;
    Ok((TypeDeclaration::Definition { class, declarators }, rest))
}

/// A typealias, a typedef, or a compound with a name and a body.
#[tactic(auto, unfolding(tsdl_grammar::specs::Reading::typedecl_at))]
pub(crate) fn type_declaration<'t, 'a>(
    alloc: Global,
    depth: u32,
    tokens: &'t [Token<'a>],
) -> Read<'t, 'a, TypeDeclaration>
    ensures reads { Gives (λ x. (x.0, x.1.now)) result
        (typedecl_at (body_at depth) depth tokens.now) }
    ensures shorter { IfOk result (λ x. length x.1.now < length tokens.now) }
{
    if begins(Symbol::Typealias, tokens) {
        return alias(alloc, depth, tokens);
    }
    if begins(Symbol::Typedef, tokens) {
        return definition(alloc, depth, tokens);
    }
    let (class, rest) = compound(alloc, depth, tokens)?;
    compound_after(class, rest)
}

/// A declaration of fields or of names.
#[cycle(classes)]
#[tactic(auto, unfolding(tsdl_grammar::specs::Reading::item_at))]
fn item<'t, 'a>(alloc: Global, depth: u32, tokens: &'t [Token<'a>]) -> Read<'t, 'a, Item>
    ensures reads { Gives (λ x. (x.0, x.1.now)) result (item_at (body_at depth) depth tokens.now) }
    ensures shorter { IfOk result (λ x. length x.1.now < length tokens.now) }
{
    if begins(Symbol::Typealias, tokens) {
        let (types, rest) = alias(alloc, depth, tokens)?;
        return Ok((Item::Types(types), rest));
    }
    if begins(Symbol::Typedef, tokens) {
        let (types, rest) = definition(alloc, depth, tokens)?;
        return Ok((Item::Types(types), rest));
    }
    if !begins_compound(tokens) {
        let (class, rest) = class(alloc, true, depth, tokens)?;
        return fields_after(alloc, class, rest);
    }
    let (class, rest) = compound(alloc, depth, tokens)?;
    if begins(Symbol::Semicolon, rest) {
        let (types, rest) = compound_after(class, rest)?;
        return Ok((Item::Types(types), rest));
    }
    fields_after(alloc, class, rest)
}

/// The items up to a closing brace.
#[cycle(classes)]
fn items<'t, 'a>(alloc: Global, depth: u32, tokens: &'t [Token<'a>]) -> Read<'t, 'a, List<Item>>
    ensures reads { Gives (λ x. (x.0, x.1.now)) result
        (all before_close (item_at (body_at depth) depth) tokens.now) }
    ensures within { IfOk result (λ x. length x.1.now ≤ length tokens.now) }
{
    let (mut found, mut rest) = start(room_for(alloc, goes_on(tokens))?, tokens);
    'turns: while goes_on(rest) {
        let (next, after) = item(alloc, depth, rest)?;
        found.push(next)?;
        rest = after;
    }
    // The tree is there while classes are made of it: what is not needed is given back.
    found.shrink_to_fit();
    Ok((List::from_vec(found), rest))
}

/// Items in braces, of which so many more may nest.
#[cycle(classes)]
#[tactic(auto, using(crate::proofs::Bodies::body_is))]
fn body<'t, 'a>(alloc: Global, depth: u32, tokens: &'t [Token<'a>]) -> Read<'t, 'a, List<Item>>
    ensures reads { Gives (λ x. (x.0, x.1.now)) result (body_at depth tokens.now) }
    ensures shorter { IfOk result (λ x. length x.1.now < length tokens.now) }
{
    let rest = open(depth, tokens)?;
    let (items, rest) = items(alloc, depth - 1, rest)?;
    end_with(items, Symbol::CloseBrace, rest)
}
