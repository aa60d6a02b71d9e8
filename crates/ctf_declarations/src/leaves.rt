//! Classes of their settings alone.

ghost use Rattle.ctf_meaning.specs.Written as written;
ghost use Rattle.ctf_meaning_steps.specs.Told.{Follows};
ghost use Rattle.ctf_meaning_steps.specs.Seen.{nothing_seen};
ghost use Rattle.ctf_meaning_steps.specs.Classes.{integer_told};
ghost use Rattle.ctf_meaning_steps.specs.Items.{shape_told};
ghost use Rattle.ctf_declared_class.specs.Knowns.{known};

use ctf_attributes::{integer, numbers, string};
use ctf_declared_class::Known;
use ctf_meaning::{DeclaredInteger, ResolveFault};
use std::alloc::Global;
use tsdl_tree::Setting;

/// The integer of these settings.
pub fn integer_by(alloc: Global, settings: &[Setting]) -> Result<DeclaredInteger, ResolveFault>
    ensures { Follows (integer_told settings.now) (λ i. i) result }
{
    numbers(settings)?;
    integer(alloc, settings)
}

/// The class of an integer.
pub fn integer_class(alloc: Global, settings: &[Setting]) -> Result<Known, ResolveFault>
    ensures { Follows (shape_told nothing_seen (written.Integer settings.now)) known result }
{
    let integer = integer_by(alloc, settings)?;
    Ok(Known::integer(alloc, integer)?)
}

/// The class of a floating-point number, of whose settings none counts.
pub fn float_class(alloc: Global, settings: &[Setting]) -> Result<Known, ResolveFault>
    ensures { Follows (shape_told nothing_seen (written.Float settings.now)) known result }
{
    numbers(settings)?;
    Ok(Known::float(alloc)?)
}

/// The class of a string.
pub fn string_class(alloc: Global, settings: &[Setting]) -> Result<Known, ResolveFault>
    ensures { Follows (shape_told nothing_seen (written.String settings.now)) known result }
{
    numbers(settings)?;
    string(settings)?;
    Ok(Known::string(alloc)?)
}
