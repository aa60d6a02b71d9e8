//! Entries of a block by their names.

ghost use Rattle.std.specs.Prelude.{◌≡◌, ◌||◌, length, filter, map, flat_map, option_copied, codes};
ghost use Rattle.std.specs.List.{list_any};
ghost use Rattle.ctf_meaning.specs.declared.fault.ResolveFault.TheVariants as faults;
ghost use Rattle.ctf_meaning.specs.Reading.{entry_of};
ghost use Rattle.ctf_meaning.specs.Settings.{when, wrong, count_of};
ghost use Rattle.ctf_meaning.specs.Blocks.{is_value_of, is_class_of, stands_twice, id_of};
ghost use Rattle.ctf_meaning.specs.Blocks as blocks;
ghost use Rattle.ctf_attributes.specs.EntryNames.{words_of};
ghost use Rattle.ctf_attributes.specs.Tells.{TellsFirst, Nothing};

use crate::entry_name::EntryName;
use crate::naming::is_word;
use crate::value;
use ctf_meaning::ResolveFault;
use tsdl_tree::{BlockEntry, Value};

/// The value of the first setting of a name.
pub fn value_at<'a>(entries: &'a [BlockEntry], name: &[u8]) -> Option<&'a Value>
    ensures { option_copied result ≡ blocks.value_at (map entry_of entries.now) name.now }
{
    for entry in entries {
        if let BlockEntry::Setting(setting) = entry {
            if is_word(&setting.name, name) {
                return Some(&setting.value);
            }
        }
    }
    None
}

/// How many entries have a name.
fn count(entries: &[BlockEntry], name: EntryName) -> usize
    ensures { result ≡ length (filter
        (λ e. is_value_of (words_of name) (entry_of e) || is_class_of (words_of name) (entry_of e))
        entries.now) }
{
    entries
        .iter()
        .filter(|entry| name.is_value(entry) || name.is_class(entry))
        .count()
}

/// Whether a name is there twice.
fn is_twice(entries: &[BlockEntry], name: EntryName) -> bool
    ensures { result ≡ stands_twice (map entry_of entries.now) (words_of name) }
{
    count(entries, name) > 1
}

/// Whether an entry is a class of a name.
fn has_class(entries: &[BlockEntry], name: EntryName) -> bool
    ensures { result ≡ list_any (is_class_of (words_of name)) (map entry_of entries.now) }
{
    for entry in entries {
        if name.is_class(entry) {
            return true;
        }
    }
    false
}

/// Whether an entry is a value of a name.
fn has_value(entries: &[BlockEntry], name: EntryName) -> bool
    ensures { result ≡ list_any (is_value_of (words_of name)) (map entry_of entries.now) }
{
    for entry in entries {
        if name.is_value(entry) {
            return true;
        }
    }
    false
}

/// Fails with `Attribute` where one of these names is there twice.
pub fn none_twice(entries: &[BlockEntry], names: &[EntryName]) -> Result<(), ResolveFault>
    ensures told { TellsFirst (flat_map
        (λ name. when (stands_twice (map entry_of entries.now) name) faults.Attribute)
        (map words_of names.now)) Nothing result }
{
    for name in names {
        if is_twice(entries, *name) {
            return Err(ResolveFault::Attribute);
        }
    }
    Ok(())
}

/// Fails with `Attribute` where an entry is a class of one of these names.
pub fn no_classes(entries: &[BlockEntry], names: &[EntryName]) -> Result<(), ResolveFault>
    ensures told { TellsFirst (flat_map
        (λ name. when (list_any (is_class_of name) (map entry_of entries.now)) faults.Attribute)
        (map words_of names.now)) Nothing result }
{
    for name in names {
        if has_class(entries, *name) {
            return Err(ResolveFault::Attribute);
        }
    }
    Ok(())
}

/// Fails with `Attribute` where an entry is a value of one of these names.
pub fn no_values(entries: &[BlockEntry], names: &[EntryName]) -> Result<(), ResolveFault>
    ensures told { TellsFirst (flat_map
        (λ name. when (list_any (is_value_of name) (map entry_of entries.now)) faults.Attribute)
        (map words_of names.now)) Nothing result }
{
    for name in names {
        if has_value(entries, *name) {
            return Err(ResolveFault::Attribute);
        }
    }
    Ok(())
}

/// The id of a stream or an event, 0 where it has none.
pub fn id(entries: &[BlockEntry]) -> Result<u64, ResolveFault>
    ensures told { TellsFirst (wrong count_of
        (blocks.value_at (map entry_of entries.now) (codes "id")))
        (λ id. id_of (map entry_of entries.now) ≡ Some id) result }
{
    match value_at(entries, b"id") {
        Some(value) => value::count(value).ok_or(ResolveFault::Attribute),
        None => Ok(0),
    }
}
