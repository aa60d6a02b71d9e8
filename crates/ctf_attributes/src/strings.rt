//! Attributes of strings.

ghost use Rattle.ctf_meaning.specs.Settings.{string_faults};
ghost use Rattle.ctf_attributes.specs.Tells.{TellsFirst, Nothing};

use crate::attributes::is_text;
use crate::lookup::once;
use ctf_meaning::ResolveFault;
use tsdl_tree::Setting;

/// Fails with `Attribute` where the encoding of a string is there twice or is none (CTF 1.8.3, section 4.2.5).
pub fn string(settings: &[Setting]) -> Result<(), ResolveFault>
    ensures told { TellsFirst (string_faults settings.now) Nothing result }
{
    once(settings, b"encoding")?;
    is_text(settings)?;
    Ok(())
}
