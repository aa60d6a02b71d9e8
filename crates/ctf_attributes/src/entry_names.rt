//! Names with a meaning that are there twice in a block, or have the wrong kind of entry.

ghost use Rattle.std.specs.Prelude.{map};
ghost use Rattle.tsdl_tree.specs.declared.tree.BlockKind.TheVariants as kind;
ghost use Rattle.ctf_meaning.specs.Reading.{entry_of};
ghost use Rattle.ctf_meaning.specs.Blocks.{entry_faults};
ghost use Rattle.ctf_attributes.specs.Tells.{TellsFirst, Nothing};

use crate::block::{no_classes, no_values, none_twice};
use crate::entry_name::EntryName::{
    ByteOrder, Context, EventContext, EventHeader, Fields, Id, Major, Minor, Name, PacketContext,
    PacketHeader, StreamId, Uuid,
};
use ctf_meaning::ResolveFault;
use tsdl_tree::BlockEntry;

/// Fails with `Attribute` where a name of a `trace` block is there twice or has the wrong kind of entry.
pub fn check_trace(entries: &[BlockEntry]) -> Result<(), ResolveFault>
    ensures told { TellsFirst (entry_faults kind.Trace (map entry_of entries.now)) Nothing result }
{
    none_twice(entries, &[Major, Minor, ByteOrder, Uuid, PacketHeader])?;
    no_classes(entries, &[Major, Minor, ByteOrder, Uuid])?;
    no_values(entries, &[PacketHeader])
}

/// Fails with `Attribute` where a name of a `stream` block is there twice or has the wrong kind of entry.
pub fn check_stream(entries: &[BlockEntry]) -> Result<(), ResolveFault>
    ensures told { TellsFirst (entry_faults kind.Stream (map entry_of entries.now)) Nothing result }
{
    none_twice(entries, &[Id, PacketContext, EventHeader, EventContext])?;
    no_classes(entries, &[Id])?;
    no_values(entries, &[PacketContext, EventHeader, EventContext])
}

/// Fails with `Attribute` where a name of an `event` block is there twice or has the wrong kind of entry.
pub fn check_event(entries: &[BlockEntry]) -> Result<(), ResolveFault>
    ensures told { TellsFirst (entry_faults kind.Event (map entry_of entries.now)) Nothing result }
{
    none_twice(entries, &[Name, Id, StreamId, Context, Fields])?;
    no_classes(entries, &[Name, Id, StreamId])?;
    no_values(entries, &[Context, Fields])
}
