//! Blocks, and all that is directly in the metadata.

ghost use Rattle.std.specs.Prelude.{◌≡◌, ◌<◌, length, refl, IfOk};
ghost use Rattle.tsdl_grammar.specs.Steps.{before_close, before_end, begins_declaration};
ghost use Rattle.tsdl_grammar.specs.Reading.{class_after, entry_at, body_at, block_kind, table_kind, block_at, table_at, declaration_at};
ghost use Rattle.tsdl_parse.specs.Gives.{Gives};

use crate::classes::{class, type_declaration};
use crate::failure::{Failure, Read};
use crate::part::{Part, many};
use crate::settings::{attributes, path, setting_after};
use crate::terminals::{begins, end_with, expect, goes_on, has_more, open};
use std::alloc::Global;
use tsdl_text::{Symbol, Token};
use tsdl_tree::{BlockEntry, BlockKind, Declaration, Path, TableKind};

/// Whether a declaration of names comes first.
fn begins_declaration(tokens: &[Token<'_>]) -> bool
    ensures { result ≡ begins_declaration tokens.now }
{
    begins(Symbol::Struct, tokens)
        || begins(Symbol::Variant, tokens)
        || begins(Symbol::Enum, tokens)
        || begins(Symbol::Typedef, tokens)
        || begins(Symbol::Typealias, tokens)
}

/// The rest of `name := class;`, after the name.
#[tactic(auto, unfolding(tsdl_grammar::specs::Reading::class_after))]
fn class_after<'t, 'a>(
    alloc: Global,
    depth: u32,
    name: Path,
    tokens: &'t [Token<'a>],
) -> Read<'t, 'a, BlockEntry>
    ensures reads { Gives (λ x. (x.0, x.1.now)) result
        (class_after (body_at depth) depth name tokens.now) }
    ensures shorter { IfOk result (λ x. length x.1.now < length tokens.now) }
{
    let rest = expect(Symbol::Assign, tokens)?;
    let (class, rest) = class(alloc, false, depth, rest)?;
    let (class, rest) = end_with(class, Symbol::Semicolon, rest)?;
    Ok((BlockEntry::Class { name, class }, rest))
}

/// A setting, a class for a name, or a declaration of names, up to a closing brace.
#[derive(Clone, Copy)]
struct Entry {
    depth: u32,
}

impl Part for Entry {
    type Tree = BlockEntry;

    ghost comes = { λ _. before_close };

    ghost part_at = { λ part. entry_at (body_at part.depth) part.depth };

    fn comes(&self, tokens: &[Token<'_>]) -> bool {
        goes_on(tokens)
    }

    #[tactic(auto, unfolding(tsdl_grammar::specs::Reading::entry_at))]
    fn read<'t, 'a>(&self, alloc: Global, tokens: &'t [Token<'a>]) -> Read<'t, 'a, BlockEntry> {
        let depth = self.depth;
        if begins_declaration(tokens) {
            let (types, rest) = type_declaration(alloc, depth, tokens)?;
            return Ok((BlockEntry::Types(types), rest));
        }
        let (name, rest) = path(alloc, tokens)?;
        if begins(Symbol::Equals, rest) {
            let (setting, rest) = setting_after(alloc, name, rest)?;
            return Ok((BlockEntry::Setting(setting), rest));
        }
        class_after(alloc, depth, name, rest)
    }

    ghost stops = { λ _. refl };
}

/// Which block with classes a word begins.
fn block_kind(token: &Token<'_>) -> Option<BlockKind>
    ensures { result ≡ block_kind token.now }
{
    if token.is_symbol(Symbol::Trace) {
        return Some(BlockKind::Trace);
    }
    if token.is_symbol(Symbol::Stream) {
        return Some(BlockKind::Stream);
    }
    if token.is_symbol(Symbol::Event) {
        return Some(BlockKind::Event);
    }
    None
}

/// Which block of settings a word begins.
fn table_kind(token: &Token<'_>) -> Option<TableKind>
    ensures { result ≡ table_kind token.now }
{
    if token.is_symbol(Symbol::Clock) {
        return Some(TableKind::Clock);
    }
    if token.is_symbol(Symbol::Env) {
        return Some(TableKind::Env);
    }
    if token.is_symbol(Symbol::Callsite) {
        return Some(TableKind::Callsite);
    }
    None
}

/// `{ entries };` after a block's word.
#[tactic(auto, unfolding(tsdl_grammar::specs::Reading::block_at))]
fn block<'t, 'a>(
    alloc: Global,
    depth: u32,
    kind: BlockKind,
    tokens: &'t [Token<'a>],
) -> Read<'t, 'a, Declaration>
    ensures reads { Gives (λ x. (x.0, x.1.now)) result (block_at depth kind tokens.now) }
    ensures shorter { IfOk result (λ x. length x.1.now < length tokens.now) }
{
    let rest = open(depth, tokens)?;
    let inner = Entry { depth: depth - 1 };
    let (entries, rest) = many(alloc, &inner, rest)?;
    let (entries, rest) = end_with(entries, Symbol::CloseBrace, rest)?;
    let (entries, rest) = end_with(entries, Symbol::Semicolon, rest)?;
    Ok((Declaration::Block { kind, entries }, rest))
}

/// `{ settings };` after a block's word.
#[tactic(auto, unfolding(tsdl_grammar::specs::Reading::table_at))]
fn table<'t, 'a>(
    alloc: Global,
    depth: u32,
    kind: TableKind,
    tokens: &'t [Token<'a>],
) -> Read<'t, 'a, Declaration>
    ensures reads { Gives (λ x. (x.0, x.1.now)) result (table_at depth kind tokens.now) }
    ensures shorter { IfOk result (λ x. length x.1.now < length tokens.now) }
{
    let (settings, rest) = attributes(alloc, depth, tokens)?;
    let (settings, rest) = end_with(settings, Symbol::Semicolon, rest)?;
    Ok((Declaration::Table { kind, settings }, rest))
}

/// A block or a declaration of names.
#[derive(Clone, Copy)]
pub(crate) struct Outermost {
    pub(crate) depth: u32,
}

impl Part for Outermost {
    type Tree = Declaration;

    ghost comes = { λ _. before_end };

    ghost part_at = { λ part. declaration_at part.depth };

    fn comes(&self, tokens: &[Token<'_>]) -> bool {
        has_more(tokens)
    }

    #[tactic(auto, unfolding(tsdl_grammar::specs::Reading::declaration_at))]
    fn read<'t, 'a>(&self, alloc: Global, tokens: &'t [Token<'a>]) -> Read<'t, 'a, Declaration> {
        let depth = self.depth;
        let [first, rest @ ..] = tokens else {
            return Err(Failure::Syntax(0));
        };
        if let Some(kind) = block_kind(first) {
            return block(alloc, depth, kind, rest);
        }
        if let Some(kind) = table_kind(first) {
            return table(alloc, depth, kind, rest);
        }
        let (types, rest) = type_declaration(alloc, depth, tokens)?;
        Ok((Declaration::Types(types), rest))
    }

    ghost stops = { λ _. refl };
}
