//! Settings by their names.

ghost use Rattle.std.specs.Prelude.{◌≡◌, map, option_copied, length, filter, flat_map};
ghost use Rattle.ctf_meaning.specs.Name.{same_words};
ghost use Rattle.ctf_meaning.specs.Settings.{one, attribute, repeated};
ghost use Rattle.ctf_attributes.specs.Tells.{TellsFirst, Nothing};

use crate::naming::is_word;
use ctf_meaning::ResolveFault;
use tsdl_tree::{Setting, Value};

/// The value of the first setting of a name.
pub fn attribute<'a>(settings: &'a [Setting], name: &[u8]) -> Option<&'a Value>
    ensures { option_copied result ≡ attribute settings.now (one name.now) }
{
    settings
        .iter()
        .find(|setting| is_word(&setting.name, name))
        .map(|setting| &setting.value)
}

/// How many settings have a name.
fn count(settings: &[Setting], name: &[u8]) -> usize
    ensures { result ≡ length (filter (λ s. same_words s.name (one name.now)) settings.now) }
{
    settings
        .iter()
        .filter(|setting| is_word(&setting.name, name))
        .count()
}

/// Fails with `Attribute` where a name is there twice.
pub fn once(settings: &[Setting], name: &[u8]) -> Result<(), ResolveFault>
    ensures told { TellsFirst (repeated settings.now name.now) Nothing result }
{
    if count(settings, name) > 1 {
        return Err(ResolveFault::Attribute);
    }
    Ok(())
}

/// Fails with `Attribute` where one of these names is there twice.
pub fn each_once(settings: &[Setting], names: &[&[u8]]) -> Result<(), ResolveFault>
    ensures told { TellsFirst (flat_map (repeated settings.now) (map (λ name. name.now) names.now))
        Nothing result }
{
    for name in names {
        once(settings, name)?;
    }
    Ok(())
}
