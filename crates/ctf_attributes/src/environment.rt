//! The environment.

ghost use Rattle.std.specs.Prelude.{◌≡◌, map, option_map, option_copied};
ghost use Rattle.ctf_meaning.specs.Reading.{declaration_of};
ghost use Rattle.ctf_meaning.specs.Denotes.{host_of, string_of, environment_by};
ghost use Rattle.ctf_attributes.specs.Hosts.{last_host};

use crate::naming::is_word;
use tsdl_tree::{Declaration, Setting, TableKind, Value};

/// The host of a trace: the last `hostname` entry of its environments, where that is a string (CTF 1.8.3,
/// section 7.4).
pub fn host(declarations: &[Declaration]) -> Option<&[u8]>
    ensures { option_copied result ≡ host_of (map declaration_of declarations.now) }
{
    let mut host = None;
    for declaration in declarations {
        if let Some(value) = last_hostname(environment(declaration)) {
            host = string(value);
        }
    }
    host
}

/// The settings of an environment; none of another declaration.
fn environment(declaration: &Declaration) -> &[Setting]
    ensures { result.now ≡ environment_by (declaration_of declaration.now) }
{
    match declaration {
        Declaration::Table {
            kind: TableKind::Env,
            settings,
        } => settings.as_slice(),
        _ => &[],
    }
}

/// The value of the last `hostname` entry.
fn last_hostname(settings: &[Setting]) -> Option<&Value>
    ensures { option_copied result ≡ option_map (λ s. s.value) (last_host settings.now) }
{
    settings
        .iter()
        .rev()
        .find(|setting| is_word(&setting.name, b"hostname"))
        .map(|setting| &setting.value)
}

/// The bytes of a string.
fn string(value: &Value) -> Option<&[u8]>
    ensures { option_copied result ≡ string_of value.now }
{
    match value {
        Value::Text(bytes) => Some(bytes.as_slice()),
        _ => None,
    }
}
