//! Names of members and options.

ghost use Rattle.std.specs.Prelude.{◌≡◌, IfOk, position};
ghost use Rattle.std.specs.List.{list_any};
ghost use Rattle.std.specs.Str.{bytes_eq};
ghost use Rattle.ctf_class.specs.SameNames.{has_twins};

use crate::field_name::FieldName;
use crate::firsts::Firsts;
use crate::ranks::{are_ascending, place_by_rank, ranked_places};
use ctf_list::{List, NoMemory};
use std::alloc::Global;
use std::marker::Model;

/// Up to so many names are found by a walk.
const FEW: usize = 12;

/// How names are found.
#[derive(Drop)]
enum Places {
    /// By a walk.
    Few,
    /// By halving: no two are the same. The names' places in the order of their bytes; none where that is the order in
    /// which they are.
    Ranked(List<usize>),
    /// By a map of their bytes, which takes ten times as much memory.
    Sorted(Firsts),
}

/// Names in their order, each found without a long walk. Contracts see the list of the names.
#[derive(Drop)]
pub struct Names {
    names: List<FieldName>,
    places: Places,
}

impl Model for Names {
    ghost use Rattle.std.specs.Prelude.{List, ℕ};
    ghost use Rattle.std.specs.Coded.{coded_list, coded_ℕ};
    ghost use Rattle.ctf_class.specs.NamePlaces.{FindsNames};

    ghost Value = { List (List ℕ) };

    ghost coded = { coded_list (coded_list coded_ℕ) };

    ghost view = { λ names. names.names };

    ghost invariant = { λ names. FindsNames names.names names.places };
}

impl Names {
    /// Names that are found by their bytes. Of `n` names, takes time like `n` times its logarithm.
    pub fn new(alloc: Global, words: List<List<u8>>) -> Result<Names, NoMemory>
        ensures { IfOk result (λ names. names ≡ words) }
    {
        let names = field_names(alloc, words)?;
        let places = Places::of(alloc, names.as_slice())?;
        Ok(Names { names, places })
    }

    /// The names in their order.
    pub fn as_slice(&self) -> &[FieldName]
        ensures { result.now ≡ self.now }
    {
        self.names.as_slice()
    }

    /// The place of the first name of these bytes.
    pub fn place(&self, name: &[u8]) -> Option<usize>
        ensures { result ≡ position (λ word. bytes_eq word name.now) self.now }
    {
        match &self.places {
            Places::Few => place_among(self.names.as_slice(), name),
            Places::Ranked(order) => place_by_rank(self.names.as_slice(), order.as_slice(), name),
            Places::Sorted(firsts) => firsts.place(name),
        }
    }

    /// Whether two names are the same.
    pub fn has_twins(&self) -> bool
        ensures { result ≡ has_twins bytes_eq self.now }
    {
        match &self.places {
            Places::Few => has_twins_among(self.names.as_slice()),
            Places::Ranked(_) => false,
            Places::Sorted(firsts) => firsts.has_twins,
        }
    }
}

impl Places {
    ghost use Rattle.ctf_class.specs.NamePlaces.{FindsNames};

    /// How some names are found.
    fn of(alloc: Global, names: &[FieldName]) -> Result<Places, NoMemory>
        ensures { IfOk result (FindsNames names.now) }
    {
        if names.len() <= FEW {
            return Ok(Places::Few);
        }
        if are_ascending(names, &[]) {
            return Ok(Places::Ranked(List::new(alloc)));
        }
        let order = ranked_places(alloc, names)?;
        if are_ascending(names, order.as_slice()) {
            return Ok(Places::Ranked(order));
        }
        Ok(Places::Sorted(Firsts::of(alloc, names)?))
    }
}

/// The names, with what is printed for them.
fn field_names(alloc: Global, words: List<List<u8>>) -> Result<List<FieldName>, NoMemory>
    ensures { IfOk result (λ names. names ≡ words) }
{
    let mut names = Vec::with_capacity(alloc, words.len())?;
    for word in words.into_vec() {
        names.push(FieldName::new(alloc, word)?)?;
    }
    Ok(List::from_vec(names))
}

/// The place of the first of a few names that has these bytes.
fn place_among(names: &[FieldName], bytes: &[u8]) -> Option<usize>
    ensures { result ≡ position (λ word. bytes_eq word bytes.now) names.now }
{
    names.iter().position(|name| name.as_slice() == bytes)
}

/// Whether two of a few names are the same.
fn has_twins_among(names: &[FieldName]) -> bool
    ensures { result ≡ has_twins bytes_eq names.now }
{
    match names {
        [] => false,
        [name, rest @ ..] => is_among(name.as_slice(), rest) || has_twins_among(rest),
    }
}

/// Whether some names have one of these bytes.
fn is_among(bytes: &[u8], names: &[FieldName]) -> bool
    ensures { result ≡ list_any (bytes_eq bytes.now) names.now }
{
    names.iter().any(|name| bytes == name.as_slice())
}
