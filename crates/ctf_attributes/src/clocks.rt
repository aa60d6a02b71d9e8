//! Clocks.

ghost use Rattle.std.specs.Prelude.{◌≡◌, pos, codes};
ghost use Rattle.ctf_meaning.specs.Clocks.{clock_faults, clock_by, default_frequency, frequency_of, offset_of};
ghost use Rattle.ctf_meaning.specs.Settings.{wrong, known_as};
ghost use Rattle.ctf_attributes.specs.Attributes.{value_of};
ghost use Rattle.ctf_attributes.specs.Tells.{Tells, TellsFirst};

use crate::lookup::{attribute, each_once};
use crate::reading;
use crate::value::required_text;
use ctf_class::{Clock, Frequency};
use ctf_list::Shared;
use ctf_meaning::{DEFAULT_FREQUENCY, ResolveFault};
use std::alloc::Global;
use tsdl_tree::Setting;

/// The clock of a `clock` block (CTF 1.8.3, section 8). It fails with `Attribute`, or where an allocation fails.
pub fn clock(alloc: Global, settings: &[Setting]) -> Result<Clock, ResolveFault>
    ensures told { Tells (clock_faults settings.now) (λ clock. clock_by settings.now ≡ Some clock)
        result }
{
    each_once(settings, &[b"name", b"freq", b"offset_s", b"offset"])?;
    let name = required_text(alloc, attribute(settings, b"name"))?;
    let frequency = frequency(settings)?;
    let offset_seconds = offset(settings, b"offset_s")?;
    let offset = offset(settings, b"offset")?;
    let name = Shared::new(alloc, name)?;
    Ok(Clock {
        name,
        frequency,
        offset_seconds,
        offset,
    })
}

/// How fast a clock is.
fn frequency(settings: &[Setting]) -> Result<Frequency, ResolveFault>
    ensures told { TellsFirst (wrong frequency_of (value_of settings.now (codes "freq")))
        (λ frequency. frequency ≡
        known_as frequency_of default_frequency (value_of settings.now (codes "freq"))) result }
{
    match attribute(settings, b"freq") {
        Some(value) => reading::frequency(value).ok_or(ResolveFault::Attribute),
        None => Frequency::new(DEFAULT_FREQUENCY).ok_or(ResolveFault::Attribute),
    }
}

/// An offset of a clock.
fn offset(settings: &[Setting], name: &[u8]) -> Result<i64, ResolveFault>
    ensures told { TellsFirst (wrong offset_of (value_of settings.now name.now))
        (λ offset. offset ≡ known_as offset_of (pos 0) (value_of settings.now name.now)) result }
{
    match attribute(settings, name) {
        Some(value) => reading::offset(value).ok_or(ResolveFault::Attribute),
        None => Ok(0),
    }
}
