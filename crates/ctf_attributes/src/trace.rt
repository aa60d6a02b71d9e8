//! Settings of the trace.

ghost use Rattle.std.specs.Prelude.{◌≡◌, not, false, map, codes, is_none, option_and_then, IfOk};
ghost use Rattle.std.specs.Option.{option_map_or};
ghost use Rattle.tsdl_tree.specs.declared.tree.BlockKind.TheVariants as kind;
ghost use Rattle.uuid.specs.Text.{parsed};
ghost use Rattle.ctf_meaning.specs.declared.fault.ResolveFault.TheVariants as faults;
ghost use Rattle.ctf_meaning.specs.Blocks as blocks;
ghost use Rattle.ctf_meaning.specs.Blocks.{block_faults, uuid_of};
ghost use Rattle.ctf_meaning.specs.Settings.{when, wrong, is_count, trace_order_of};
ghost use Rattle.ctf_meaning.specs.Reading.{entry_of};
ghost use Rattle.ctf_meaning.specs.Written.{Block};
ghost use Rattle.ctf_attributes.specs.Settled.{IsTrace};
ghost use Rattle.ctf_attributes.specs.Tells.{Tells, TellsFirst, Nothing};

use crate::block::value_at;
use crate::dots::join_words;
use crate::entry_names::check_trace;
use crate::reading::trace_order;
use crate::value::is_count;
use ctf_bits::Order;
use ctf_list::NoMemory;
use ctf_meaning::ResolveFault;
use std::alloc::Global;
use tsdl_tree::{BlockEntry, Value};
use uuid::Uuid;

/// The version of the format.
const MAJOR: u64 = 1;

const MINOR: u64 = 8;

/// What the settings of a `trace` block say (CTF 1.8.3, section 7.4 and appendix C.2).
#[derive(Clone, Copy)]
pub struct TraceSettings {
    /// The native byte order.
    pub order: Order,
    pub uuid: Option<[u8; 16]>,
}

impl TraceSettings {
    /// The settings of a trace. It fails with `Attribute`, or where an allocation fails.
    pub fn read(alloc: Global, entries: &[BlockEntry]) -> Result<TraceSettings, ResolveFault>
        ensures told { Tells (block_faults (Block kind.Trace (map entry_of entries.now)))
            (IsTrace (map entry_of entries.now)) result }
    {
        check_trace(entries)?;
        check_number(entries, b"major", MAJOR)?;
        check_number(entries, b"minor", MINOR)?;
        let order = order(entries)?;
        let uuid = uuid(alloc, entries)?;
        Ok(TraceSettings { order, uuid })
    }
}

/// Fails with `Attribute` where no setting of a name has this number.
fn check_number(entries: &[BlockEntry], name: &[u8], expected: u64) -> Result<(), ResolveFault>
    ensures told { TellsFirst (when
        (not (option_map_or (is_count expected)
        (blocks.value_at (map entry_of entries.now) name.now) false)) faults.Attribute) Nothing
        result }
{
    match value_at(entries, name) {
        Some(value) if is_count(value, expected) => Ok(()),
        _ => Err(ResolveFault::Attribute),
    }
}

/// The native byte order.
fn order(entries: &[BlockEntry]) -> Result<Order, ResolveFault>
    ensures told { TellsFirst (when
        (is_none (option_and_then trace_order_of
        (blocks.value_at (map entry_of entries.now) (codes "byte_order")))) faults.Attribute)
        (λ order. option_and_then trace_order_of
        (blocks.value_at (map entry_of entries.now) (codes "byte_order")) ≡ Some order) result }
{
    let value = value_at(entries, b"byte_order").ok_or(ResolveFault::Attribute)?;
    trace_order(value).ok_or(ResolveFault::Attribute)
}

/// The UUID of a trace, if it has one.
fn uuid(alloc: Global, entries: &[BlockEntry]) -> Result<Option<[u8; 16]>, ResolveFault>
    ensures told { Tells (wrong uuid_of (blocks.value_at (map entry_of entries.now) (codes "uuid")))
        (λ uuid. uuid ≡ option_and_then uuid_of
        (blocks.value_at (map entry_of entries.now) (codes "uuid"))) result }
{
    let Some(value) = value_at(entries, b"uuid") else {
        return Ok(None);
    };
    let uuid = read_uuid(alloc, value)?.ok_or(ResolveFault::Attribute)?;
    Ok(Some(uuid))
}

/// The UUID that a value reads as. It fails where an allocation fails.
fn read_uuid(alloc: Global, value: &Value) -> Result<Option<[u8; 16]>, NoMemory>
    ensures { IfOk result (λ uuid. uuid ≡ uuid_of value.now) }
{
    match value {
        Value::Number(_) => Ok(None),
        Value::Text(text) => Ok(parse(text.as_slice())),
        Value::Name(words) => {
            let text = join_words(alloc, words.as_slice())?;
            Ok(parse(text.as_slice()))
        }
    }
}

/// The UUID that a text reads as.
fn parse(text: &[u8]) -> Option<[u8; 16]>
    ensures { result ≡ parsed text.now }
{
    match Uuid::try_parse_ascii(text) {
        Ok(uuid) => Some(uuid.into_bytes()),
        Err(_) => None,
    }
}
