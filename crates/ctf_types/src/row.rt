//! What each declaration gives to the trace class.

ghost use Rattle.std.specs.Prelude.{◌≡◌, ◌⊎◌, ◌+◌, List, Some, map, slice_get, Contains, MatchResult, OnOk};
ghost use Rattle.ctf_meaning.specs.declared.fault.ResolveFault.TheVariants as fault;
ghost use Rattle.ctf_meaning.specs.Faults.{link_faults};
ghost use Rattle.ctf_meaning.specs.Reading.{declaration_of, entry_of};
ghost use Rattle.ctf_meaning.specs.Written.{Declaration as WrittenDeclaration, Block};
ghost use Rattle.ctf_types.specs.Events.{IsRow};
ghost use Rattle.ctf_types.specs.Ids.{AreIds};
ghost use Rattle.ctf_types.specs.Texts.{IsText};

use crate::ids::Ids;
use crate::linked::Linked;
use crate::text::KnownText;
use ctf_attributes::stream_id;
use ctf_meaning::ResolveFault;
use std::alloc::Global;
use tsdl_tree::{BlockEntry, BlockKind, Declaration};

/// A block, and the number of its declaration.
#[derive(Clone, Copy)]
struct TextBlock<'b> {
    number: usize,
    kind: BlockKind,
    entries: &'b [BlockEntry],
}

impl<'a> KnownText<'a> {
    /// What a declaration gives.
    pub fn row(
        &self,
        alloc: Global,
        number: usize,
        declaration: &Declaration,
        ids: &mut Ids,
    ) -> Result<Linked, ResolveFault>
        ghost text: { List WrittenDeclaration }
        requires whole { IsText text self.now }
        requires stands { slice_get text number ≡ Some (declaration_of declaration.now) }
        requires ids { AreIds text number ids.old }
        ensures row { MatchResult result
            (IsRow text self.now.order (number, declaration_of declaration.now))
            (λ f. (f ≡ fault.NoMemory) ⊎
            Contains (link_faults text (number, declaration_of declaration.now)) f) }
        ensures ids { OnOk result (AreIds text (number + 1) ids.new) }
    {
        match declaration {
            Declaration::Block { kind, entries } => {
                let block = TextBlock {
                    number,
                    kind: *kind,
                    entries: entries.as_slice(),
                };
                self.block_row(alloc, &block, ids)
            }
            Declaration::Table { .. } => Ok(Linked::Other),
            Declaration::Types(_) => Ok(Linked::Other),
        }
    }

    /// What a block gives.
    fn block_row(
        &self,
        alloc: Global,
        block: &TextBlock<'_>,
        ids: &mut Ids,
    ) -> Result<Linked, ResolveFault>
        ghost text: { List WrittenDeclaration }
        requires whole { IsText text self.now }
        requires stands { slice_get text block.now.number ≡
            Some (Block block.now.kind (map entry_of block.now.entries.now)) }
        requires ids { AreIds text block.now.number ids.old }
        ensures row { let given = Block block.now.kind (map entry_of block.now.entries.now) in
            MatchResult result (IsRow text self.now.order (block.now.number, given))
            (λ f. (f ≡ fault.NoMemory) ⊎
            Contains (link_faults text (block.now.number, given)) f) }
        ensures ids { OnOk result (AreIds text (block.now.number + 1) ids.new) }
    {
        let number = block.number;
        match block.kind {
            BlockKind::Trace => Ok(Linked::Trace(self.header(alloc, number)?)),
            BlockKind::Stream => {
                let id = stream_id(block.entries)?;
                Ok(Linked::Stream(self.head(alloc, number, id)?))
            }
            BlockKind::Event => self.event_row(alloc, number, block.entries, ids),
        }
    }
}
