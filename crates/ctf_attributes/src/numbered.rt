//! Constants of settings with no meaning.

ghost use Rattle.std.specs.Prelude.{[], ◌∷◌};
ghost use Rattle.ctf_meaning.specs.Settings.{minus_faults};
ghost use Rattle.ctf_attributes.specs.Tells.{TellsFirst, Nothing};

use crate::value::has_no_number;
use ctf_meaning::ResolveFault;
use tsdl_tree::Setting;

/// Fails with `Attribute` where a `-` is before a constant above 2^63.
pub fn number_in(setting: &Setting) -> Result<(), ResolveFault>
    ensures told { TellsFirst (minus_faults (setting.now ∷ [])) Nothing result }
{
    if has_no_number(&setting.value) {
        return Err(ResolveFault::Attribute);
    }
    Ok(())
}

/// Fails with `Attribute` where a `-` is before a constant above 2^63 in one of the settings.
pub fn numbers(settings: &[Setting]) -> Result<(), ResolveFault>
    ensures told { TellsFirst (minus_faults settings.now) Nothing result }
{
    for setting in settings {
        if has_no_number(&setting.value) {
            return Err(ResolveFault::Attribute);
        }
    }
    Ok(())
}
