//! The names of a block, and those that a class sees.

ghost use Rattle.std.specs.Prelude.{◌≡◌, OnOk, is_some};
ghost use Rattle.ctf_meaning.specs.Name.{Name};
ghost use Rattle.ctf_meaning_steps.specs.Seen.{nothing_seen, with_name};
ghost use Rattle.ctf_declared_class.specs.Knowns.{known};
ghost use Rattle.ctf_declarations.specs.Keys.{key_of};
ghost use Rattle.ctf_declarations.specs.Views.{class_at, seen_at, names_in, option_known};

use ctf_declared_class::Known;
use std::alloc::{AllocError, Global};
use std::collections::BTreeMap;

/// The names of a block so far, with their classes.
#[derive(Drop)]
pub struct BlockNames {
    classes: BTreeMap<Vec<u16>, Known>,
}

/// The names that a class sees: those of the block in which it is, and those around it. Inner names hide
/// outer ones (CTF 1.8.3, section 7.3.1).
#[derive(Drop)]
pub enum Visible<'a> {
    Nothing,
    Inside {
        names: &'a BlockNames,
        outer: &'a Visible<'a>,
    },
}

impl BlockNames {
    /// The names of a block before its first entry: none.
    pub fn new(alloc: Global) -> BlockNames
        ensures { names_in result ≡ nothing_seen }
    {
        BlockNames {
            classes: BTreeMap::new(alloc),
        }
    }

    /// The class of a key.
    pub fn get(&self, key: &[u16]) -> Option<&Known>
        ensures { option_known result ≡ class_at self.now key.now }
    {
        self.classes.get(key)
    }

    /// Whether the key has a class.
    pub fn has(&self, key: &[u16]) -> bool
        ensures { result ≡ is_some (class_at self.now key.now) }
    {
        self.classes.contains_key(key)
    }

    /// Gives the key a class.
    pub fn insert(&mut self, key: Vec<u16>, class: Known) -> Result<(), AllocError>
        ensures { (name : Name) → key.items ≡ key_of name →
            OnOk result (names_in self.new ≡ with_name (names_in self.old) name (known class)) }
    {
        self.classes.insert(key, class)?;
        Ok(())
    }
}

impl<'a> Visible<'a> {
    /// The class of a key in the innermost block that has one.
    pub fn find(&'a self, key: &[u16]) -> Option<&'a Known>
        ensures { option_known result ≡ seen_at self.now key.now }
    {
        match self {
            Visible::Nothing => None,
            Visible::Inside { names, outer } => match names.get(key) {
                Some(known) => Some(known),
                None => outer.find(key),
            },
        }
    }
}
