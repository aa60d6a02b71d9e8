//! The trace block of a text.

ghost use Rattle.std.specs.Prelude.{◌≡◌, map, MatchResult};
ghost use Rattle.ctf_meaning.specs.declared.fault.ResolveFault.TheVariants as fault;
ghost use Rattle.ctf_meaning.specs.Reading.{declaration_of};
ghost use Rattle.ctf_types.specs.Whole.{AreSettled, IsSettled, IsTraceOf, IsTraceBlock};

use ctf_attributes::TraceSettings;
use ctf_meaning::ResolveFault;
use std::alloc::Global;
use tsdl_tree::{BlockKind, Declaration};

/// A trace block: its number among the declarations, and what its settings say.
#[derive(Clone, Copy)]
pub struct TraceAt {
    pub number: usize,
    pub settings: TraceSettings,
}

/// The first trace block.
pub fn trace(alloc: Global, declarations: &[Declaration]) -> Result<Option<TraceAt>, ResolveFault>
    requires { AreSettled (map declaration_of declarations.now) }
    ensures { MatchResult result (λ trace. IsTraceOf (map declaration_of declarations.now) trace)
        (λ f. f ≡ fault.NoMemory) }
{
    for (number, declaration) in declarations.iter().enumerate() {
        if let Some(settings) = settings_of(alloc, declaration)? {
            return Ok(Some(TraceAt { number, settings }));
        }
    }
    Ok(None)
}

/// The settings of a `trace` block.
fn settings_of(
    alloc: Global,
    declaration: &Declaration,
) -> Result<Option<TraceSettings>, ResolveFault>
    requires { IsSettled (declaration_of declaration.now) }
    ensures { MatchResult result (λ trace. IsTraceBlock (declaration_of declaration.now) trace)
        (λ f. f ≡ fault.NoMemory) }
{
    match declaration {
        Declaration::Block {
            kind: BlockKind::Trace,
            entries,
        } => Ok(Some(TraceSettings::read(alloc, entries.as_slice())?)),
        _ => Ok(None),
    }
}
