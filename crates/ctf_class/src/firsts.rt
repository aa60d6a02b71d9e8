//! The first places of names, sorted by the names.

ghost use Rattle.std.specs.Prelude.{◌≡◌, IfOk};

use crate::field_name::FieldName;
use ctf_list::NoMemory;
use std::alloc::Global;
use std::collections::BTreeMap;

/// Where the first of each name is.
#[derive(Drop)]
pub struct Firsts {
    pub places: BTreeMap<Vec<u8>, usize>,
    /// Whether two names are the same.
    pub has_twins: bool,
}

impl Firsts {
    ghost use Rattle.ctf_class.specs.NameFirsts.{IsIndex, place_in};

    /// The first places of some names. Of `n` names, takes time like `n` times its logarithm.
    pub fn of(alloc: Global, names: &[FieldName]) -> Result<Firsts, NoMemory>
        ensures { IfOk result (IsIndex names.now) }
    {
        let mut places = BTreeMap::new(alloc);
        let mut has_twins = false;
        for (place, name) in names.iter().enumerate() {
            let bytes = name.as_slice();
            if places.contains_key(bytes) {
                has_twins = true;
            } else {
                places.insert(Vec::from_slice(alloc, bytes)?, place)?;
            }
        }
        Ok(Firsts { places, has_twins })
    }

    /// The first place of a name.
    pub fn place(&self, name: &[u8]) -> Option<usize>
        ensures { result ≡ place_in self.now name.now }
    {
        self.places.get(name).copied()
    }
}
