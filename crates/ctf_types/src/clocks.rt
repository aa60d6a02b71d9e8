//! The clocks of a text.

ghost use Rattle.std.specs.Prelude.{◌≡◌, map, MatchResult};
ghost use Rattle.ctf_meaning.specs.declared.fault.ResolveFault.TheVariants as fault;
ghost use Rattle.ctf_meaning.specs.Blocks as meaning;
ghost use Rattle.ctf_meaning.specs.Reading.{declaration_of};
ghost use Rattle.ctf_types.specs.Whole.{AreSettled, IsSettled};

use ctf_class::Clock;
use ctf_list::List;
use ctf_meaning::ResolveFault;
use std::alloc::Global;
use tsdl_tree::{Declaration, TableKind};

/// The clocks in the order of the text.
pub fn clocks(alloc: Global, declarations: &[Declaration]) -> Result<List<Clock>, ResolveFault>
    requires { AreSettled (map declaration_of declarations.now) }
    ensures { MatchResult result
        (λ clocks. clocks ≡ meaning.clocks_of (map declaration_of declarations.now))
        (λ f. f ≡ fault.NoMemory) }
{
    let mut found = Vec::new(alloc);
    for declaration in declarations {
        if let Some(clock) = clock_of(alloc, declaration)? {
            found.push(clock)?;
        }
    }
    Ok(List::from_vec(found))
}

/// The clock of a `clock` block.
fn clock_of(alloc: Global, declaration: &Declaration) -> Result<Option<Clock>, ResolveFault>
    requires { IsSettled (declaration_of declaration.now) }
    ensures { MatchResult result
        (λ clock. clock ≡ meaning.clock_of (declaration_of declaration.now))
        (λ f. f ≡ fault.NoMemory) }
{
    match declaration {
        Declaration::Table {
            kind: TableKind::Clock,
            settings,
        } => Ok(Some(ctf_attributes::clock(alloc, settings.as_slice())?)),
        _ => Ok(None),
    }
}
