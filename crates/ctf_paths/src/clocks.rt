//! The clocks of a trace, and which of them an integer sets.

ghost use Rattle.std.specs.Prelude.{◌≡◌, map, slice_get, IfOk, option_copied};
ghost use Rattle.ctf_paths.specs.Spots.{spot_by};
ghost use Rattle.ctf_paths.specs.Mapped.{is_unknown};
ghost use Rattle.ctf_meaning.specs.Clocks as meaning;

use crate::spot::Spot;
use ctf_class::{Clock, Frequency, Names, Scope};
use ctf_list::{List, NoMemory, Shared};
use ctf_meaning::{DEFAULT_FREQUENCY, DeclaredInteger};
use std::alloc::{AllocError, Global};

/// The clocks of a trace in the order of the text, each found by its name without a walk (CTF 1.8.3,
/// section 8).
#[derive(Drop)]
pub struct Clocks<'a> {
    pub clocks: &'a [Clock],
    names: Names,
    /// The clock of a trace that declares none.
    plain: Clock,
    ghost names_are: { names ≡ map (λ c. c.name) clocks.now },
    ghost plain_is: { plain ≡ meaning.plain_clock },
}

impl<'a> Clocks<'a> {
    /// Clocks that are found by their names. Of `n` clocks, takes time like `n` times its logarithm.
    pub fn new(alloc: Global, clocks: &'a [Clock]) -> Result<Clocks<'a>, NoMemory>
        ensures { IfOk result (λ made. made.clocks.now ≡ clocks.now) }
    {
        let names = Names::new(alloc, names_of(alloc, clocks)?)?;
        let plain = plain_clock(alloc)?;
        Ok(Clocks {
            clocks,
            names,
            plain,
        })
    }

    /// The clock of a name.
    fn clock_of_name(&self, name: &[u8]) -> Option<&Clock>
        ensures { option_copied result ≡ meaning.clock_named self.now.clocks.now name.now }
    {
        nth(self.clocks, self.names.place(name)?)
    }

    /// The clock where the trace declares exactly one, the plain one where it declares none.
    fn only(&self) -> Option<&Clock>
        ensures { option_copied result ≡ meaning.only_clock self.now.clocks.now }
    {
        match self.clocks {
            [] => Some(&self.plain),
            [only] => Some(only),
            _ => None,
        }
    }

    /// Whether an integer is mapped to a clock that is not declared.
    pub fn is_unknown(&self, integer: &DeclaredInteger) -> bool
        ensures { result ≡ is_unknown self.now.clocks.now integer.now.clock }
    {
        match &integer.clock {
            None => false,
            Some(name) => self.clock_of_name(name.get().as_slice()).is_none(),
        }
    }

    /// The clock to which an integer is mapped at its place.
    fn clock_at(&self, spot: &Spot<'_>, integer: &DeclaredInteger) -> Option<&Clock>
        ensures { option_copied result ≡
            meaning.clock_at self.now.clocks.now (spot_by spot.now) integer.now }
    {
        match &integer.clock {
            Some(name) => self.clock_of_name(name.get().as_slice()),
            None => {
                if !integer.is_signed && is_stamp_in(spot) {
                    self.only()
                } else {
                    None
                }
            }
        }
    }

    /// The clock that an integer sets at its place.
    pub fn moved_clock(&self, spot: &Spot<'_>, integer: &DeclaredInteger) -> Option<&Clock>
        ensures { option_copied result ≡
            meaning.moved_clock self.now.clocks.now (spot_by spot.now) integer.now }
    {
        if moves_in(spot) {
            self.clock_at(spot, integer)
        } else {
            None
        }
    }
}

/// The clock at a place.
fn nth(clocks: &[Clock], place: usize) -> Option<&Clock>
    ensures { option_copied result ≡ slice_get clocks.now place }
{
    clocks.get(place)
}

/// The names of some clocks.
fn names_of(alloc: Global, clocks: &[Clock]) -> Result<List<List<u8>>, NoMemory>
    ensures { IfOk result (λ names. names ≡ map (λ c. c.name) clocks.now) }
{
    let mut names = List::new(alloc);
    for clock in clocks {
        names.push(List::from_slice(alloc, clock.name.get().as_slice())?)?;
    }
    Ok(names)
}

/// The clock of a trace that declares none: 1 GHz from the epoch on.
fn plain_clock(alloc: Global) -> Result<Clock, AllocError>
    ensures { IfOk result (λ clock. clock ≡ meaning.plain_clock) }
{
    Ok(Clock {
        name: Shared::new(alloc, List::new(alloc))?,
        frequency: Frequency::new(DEFAULT_FREQUENCY).unwrap(),
        offset_seconds: 0,
        offset: 0,
    })
}

/// Whether a class is itself the member of a name.
fn is_called(spot: &Spot<'_>, word: &[u8]) -> bool
    ensures { result ≡ meaning.is_called (spot_by spot.now) word.now }
{
    match spot.member {
        None => false,
        Some(member) => word == member,
    }
}

/// Whether an unmapped unsigned integer counts here as mapped to the only clock.
fn is_stamp_in(spot: &Spot<'_>) -> bool
    ensures { let s = spot_by spot.now in result ≡ meaning.is_stamp_in s.scope s }
{
    match spot.scope {
        Scope::EventHeader => is_called(spot, b"timestamp"),
        Scope::PacketContext => spot.is_top && is_called(spot, b"timestamp_begin"),
        Scope::PacketHeader => false,
        Scope::StreamEventContext => false,
        Scope::EventContext => false,
        Scope::EventFields => false,
    }
}

/// Whether mapped integers set their clock here.
fn moves_in(spot: &Spot<'_>) -> bool
    ensures { let s = spot_by spot.now in result ≡ meaning.moves_in s.scope s }
{
    match spot.scope {
        Scope::EventHeader => true,
        Scope::PacketContext => !(spot.is_top && is_called(spot, b"timestamp_end")),
        Scope::PacketHeader => false,
        Scope::StreamEventContext => false,
        Scope::EventContext => false,
        Scope::EventFields => false,
    }
}
