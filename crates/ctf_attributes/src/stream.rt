//! Settings of streams.

ghost use Rattle.std.specs.Prelude.{◌≡◌, map};
ghost use Rattle.tsdl_tree.specs.declared.tree.BlockKind.TheVariants as kind;
ghost use Rattle.ctf_meaning.specs.Blocks.{block_faults, id_of};
ghost use Rattle.ctf_meaning.specs.Reading.{entry_of};
ghost use Rattle.ctf_meaning.specs.Written.{Block};
ghost use Rattle.ctf_attributes.specs.Tells.{TellsFirst};

use crate::block::id;
use crate::entry_names::check_stream;
use ctf_meaning::ResolveFault;
use tsdl_tree::BlockEntry;

/// The id of a `stream` block, 0 where it has none (CTF 1.8.3, section 7.4 and appendix C.2). It fails with
/// `Attribute`.
pub fn stream_id(entries: &[BlockEntry]) -> Result<u64, ResolveFault>
    ensures told { TellsFirst (block_faults (Block kind.Stream (map entry_of entries.now)))
        (λ id. id_of (map entry_of entries.now) ≡ Some id) result }
{
    check_stream(entries)?;
    id(entries)
}
