//! Declarations, one after another.

ghost use Rattle.std.specs.Prelude.{◌≡◌, ◌++◌, ◌+◌, [], ◌∷◌, Ok, List, OnOk, map, sum, nat_lt};
ghost use Rattle.ctf_meaning.specs.declared.fault.ResolveFault.TheVariants as faults;
ghost use Rattle.ctf_meaning.specs.Reading.{declaration_of, entry_of, item_of};
ghost use Rattle.ctf_meaning.specs.Written as written;
ghost use Rattle.ctf_meaning.specs.Written.{Block, Table, Names};
ghost use Rattle.ctf_meaning.specs.Settings.{when};
ghost use Rattle.ctf_meaning.specs.Shapes.{nodes_of};
ghost use Rattle.ctf_meaning.specs.Faults.{most_nodes};
ghost use Rattle.ctf_meaning_steps.specs.Told.{Follows, unless};
ghost use Rattle.ctf_meaning_steps.specs.Blocks.{start, plain_row, scopes_told, declaration_told};
ghost use Rattle.ctf_meaning_steps.specs.Seen.{nothing_seen};
ghost use Rattle.ctf_declarations.specs.Views.{names_in};
ghost use Rattle.ctf_declarations.specs.Members.{names_told};
ghost use Rattle.ctf_declarations.specs.DeclaredSoFar.{walked, placed_seen, row_told, Remembers};

use crate::classes::types;
use crate::declared_once::DeclaredOnce;
use crate::entries::classes_in;
use crate::placing::{ScopeShape, check_all, placed_classes};
use crate::visible::{BlockNames, Visible};
use ctf_list::List;
use ctf_meaning::ResolveFault;
use std::alloc::{AllocError, Global};
use tsdl_tree::{BlockEntry, BlockKind, Declaration, Setting, TableKind, TypeDeclaration};

/// How many classes the scopes of a trace may have.
const MOST_NODES: u32 = 1_048_576;

/// What is known after some declarations: the names of the text, how many classes the scopes have, and the scopes
/// of each declaration.
#[derive(Drop)]
pub struct DeclaredSoFar {
    names: BlockNames,
    nodes: u32,
    rows: Vec<List<ScopeShape>>,
}

impl DeclaredSoFar {
    /// What is known before all declarations.
    pub fn new(alloc: Global) -> DeclaredSoFar
        ensures { walked result ≡ start }
    {
        DeclaredSoFar {
            names: BlockNames::new(alloc),
            nodes: 0,
            rows: Vec::new(alloc),
        }
    }

    /// Adds a declaration that gives no class to a scope.
    fn push_plain(&mut self, alloc: Global) -> Result<(), AllocError>
        ensures { OnOk result (walked self.new ≡
            plain_row (walked self.old) (names_in self.old.names)) }
    {
        self.rows.push(List::new(alloc))?;
        Ok(())
    }

    /// Adds a declaration with its scopes. It fails where the class of one is no structure or has a floating-point
    /// class in it, and where the scopes have too many classes.
    fn push_row(&mut self, row: List<ScopeShape>) -> Result<(), ResolveFault>
        ensures { Follows (scopes_told (walked self.old) (map placed_seen row))
            (λ _. walked self.new) result }
    {
        check_all(row.as_slice())?;
        let nodes = count_all(self.nodes, row.as_slice())?;
        self.nodes = nodes;
        self.rows.push(row)?;
        Ok(())
    }

    /// The scopes of each declaration.
    pub fn into_rows(self) -> List<List<ScopeShape>>
        ensures { map (map placed_seen) result ≡ (walked self).rows }
    {
        let DeclaredSoFar { rows, .. } = self;
        List::from_vec(rows)
    }
}

/// How many classes there are with those of more scopes. It fails with `TooDeep` where they are too many.
fn count_all(nodes: u32, row: &[ScopeShape]) -> Result<u32, ResolveFault>
    ensures { let all = nodes + sum (map (λ p. nodes_of p.1) (map placed_seen row.now)) in
        result ≡ unless (when (nat_lt most_nodes all) faults.TooDeep) (Ok all) }
{
    let mut total = nodes;
    for class in row {
        total = total.saturating_add(class.shape.nodes());
    }
    if total > MOST_NODES {
        return Err(ResolveFault::TooDeep);
    }
    Ok(total)
}

/// The scopes of a block, by the names of the text before it.
fn block_row(
    alloc: Global,
    names: &BlockNames,
    kind: BlockKind,
    entries: &[BlockEntry],
) -> Result<List<ScopeShape>, ResolveFault>
    ensures { Follows (row_told (names_in names.now) kind (map entry_of entries.now))
        (map placed_seen) result }
{
    let outer = Visible::Nothing;
    let seen = Visible::Inside {
        names: &*names,
        outer: &outer,
    };
    let classes = classes_in(alloc, &seen, entries)?;
    placed_classes(alloc, kind, classes.as_slice())
}

/// A block after other declarations.
fn block(
    alloc: Global,
    so_far: &mut DeclaredSoFar,
    earlier: &mut DeclaredOnce,
    kind: BlockKind,
    entries: &[BlockEntry],
) -> Result<(), ResolveFault>
    ensures told { (before : List written.Declaration) → Remembers earlier.old before →
        Follows (declaration_told before (walked so_far.old)
        (Block kind (map entry_of entries.now))) (λ _. walked so_far.new) result }
    ensures kept { (before : List written.Declaration) → Remembers earlier.old before →
        OnOk result (Remembers earlier.new (before ++ Block kind (map entry_of entries.now) ∷ [])) }
{
    earlier.add_block(alloc, kind, entries)?;
    let row = block_row(alloc, &so_far.names, kind, entries)?;
    so_far.push_row(row)
}

/// A clock, an environment or a call site after other declarations.
fn table(
    alloc: Global,
    so_far: &mut DeclaredSoFar,
    earlier: &mut DeclaredOnce,
    kind: TableKind,
    settings: &[Setting],
) -> Result<(), ResolveFault>
    ensures told { (before : List written.Declaration) → Remembers earlier.old before →
        Follows (declaration_told before (walked so_far.old) (Table kind settings.now))
        (λ _. walked so_far.new) result }
    ensures kept { (before : List written.Declaration) → Remembers earlier.old before →
        OnOk result (Remembers earlier.new (before ++ Table kind settings.now ∷ [])) }
{
    earlier.add_table(alloc, kind, settings)?;
    so_far.push_plain(alloc)?;
    Ok(())
}

/// Declares names in the text.
fn text_types(
    alloc: Global,
    names: &mut BlockNames,
    declaration: &TypeDeclaration,
) -> Result<(), ResolveFault>
    ensures { Follows (names_told nothing_seen (names_in names.old) (item_of declaration.now))
        (λ _. names_in names.new) result }
{
    let outer = Visible::Nothing;
    types(alloc, &outer, names, declaration)
}

/// A declaration of names after other declarations.
fn names(
    alloc: Global,
    so_far: &mut DeclaredSoFar,
    declaration: &TypeDeclaration,
) -> Result<(), ResolveFault>
    ensures { (before : List written.Declaration) →
        Follows (declaration_told before (walked so_far.old) (Names (item_of declaration.now)))
        (λ _. walked so_far.new) result }
{
    text_types(alloc, &mut so_far.names, declaration)?;
    so_far.push_plain(alloc)?;
    Ok(())
}

/// A declaration after others.
pub fn declaration(
    alloc: Global,
    so_far: &mut DeclaredSoFar,
    earlier: &mut DeclaredOnce,
    declaration: &Declaration,
) -> Result<(), ResolveFault>
    ensures told { (before : List written.Declaration) → Remembers earlier.old before →
        Follows (declaration_told before (walked so_far.old) (declaration_of declaration.now))
        (λ _. walked so_far.new) result }
    ensures kept { (before : List written.Declaration) → Remembers earlier.old before →
        OnOk result (Remembers earlier.new (before ++ declaration_of declaration.now ∷ [])) }
{
    match declaration {
        Declaration::Block { kind, entries } => block(
            alloc,
            so_far,
            earlier,
            *kind,
            entries.as_slice(),
        ),
        Declaration::Table { kind, settings } => table(
            alloc,
            so_far,
            earlier,
            *kind,
            settings.as_slice(),
        ),
        Declaration::Types(types) => names(alloc, so_far, types),
    }
}
