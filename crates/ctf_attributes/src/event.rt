//! Settings of events.

ghost use Rattle.std.specs.Prelude.{◌≡◌, map, codes, option_and_then};
ghost use Rattle.tsdl_tree.specs.declared.tree.BlockKind.TheVariants as kind;
ghost use Rattle.ctf_meaning.specs.Blocks as blocks;
ghost use Rattle.ctf_meaning.specs.Blocks.{block_faults};
ghost use Rattle.ctf_meaning.specs.Settings.{wrong, count_of};
ghost use Rattle.ctf_meaning.specs.Reading.{entry_of};
ghost use Rattle.ctf_meaning.specs.Written.{Block};
ghost use Rattle.ctf_attributes.specs.Settled.{IsEvent};
ghost use Rattle.ctf_attributes.specs.Tells.{Tells, TellsFirst};

use crate::block::{id, value_at};
use crate::entry_names::check_event;
use crate::value::{count, required_text};
use ctf_list::List;
use ctf_meaning::ResolveFault;
use std::alloc::Global;
use tsdl_tree::BlockEntry;

/// What the settings of an `event` block say (CTF 1.8.3, section 7.4 and appendix C.2).
#[derive(Drop)]
pub struct EventSettings {
    /// 0 where the block has none.
    pub id: u64,
    pub name: List<u8>,
    /// The stream that it names.
    pub stream_id: Option<u64>,
}

impl EventSettings {
    /// The settings of an event. It fails with `Attribute`, or where an allocation fails.
    pub fn read(alloc: Global, entries: &[BlockEntry]) -> Result<EventSettings, ResolveFault>
        ensures told { Tells (block_faults (Block kind.Event (map entry_of entries.now)))
            (IsEvent (map entry_of entries.now)) result }
    {
        check_event(entries)?;
        let name = required_text(alloc, value_at(entries, b"name"))?;
        let id = id(entries)?;
        let stream_id = stream_id(entries)?;
        Ok(EventSettings {
            id,
            name,
            stream_id,
        })
    }
}

/// The stream that an event names.
fn stream_id(entries: &[BlockEntry]) -> Result<Option<u64>, ResolveFault>
    ensures told { TellsFirst (wrong count_of
        (blocks.value_at (map entry_of entries.now) (codes "stream_id")))
        (λ id. id ≡ option_and_then count_of
        (blocks.value_at (map entry_of entries.now) (codes "stream_id"))) result }
{
    let Some(value) = value_at(entries, b"stream_id") else {
        return Ok(None);
    };
    let id = count(value).ok_or(ResolveFault::Attribute)?;
    Ok(Some(id))
}
