//! The classes of traces.

ghost use Rattle.std.specs.Prelude.{◌≡◌, MatchResult};
ghost use Rattle.ctf_load.specs.Loading.{Describes};
ghost use Rattle.ctf_run.specs.Loaded.{IsLoadFault, HaveClasses, IsUnloaded, of_trace};

use crate::trace::Trace;
use ctf_class::TraceClass;
use ctf_faults::{LoadFault, RunFault};
use std::alloc::{AllocFailed, Global};

/// The trace class that metadata denotes (CTF 1.8.3, section 7).
///
/// An error is the first fault of the metadata, as that of trace 0: M1 to M6, S1, S2 or R1 to R9.
pub fn load(alloc: Global, metadata: &[u8]) -> Result<TraceClass, RunFault>
    ensures { MatchResult result (Describes metadata.now) (IsLoadFault metadata.now) }
{
    match ctf_load::load(alloc, metadata) {
        Ok(class) => Ok(class),
        Err(fault) => {
            if fault.is_refusal() {
                Err(RunFault::NoMemory)
            } else {
                Err(RunFault::Metadata { trace: 0, fault })
            }
        }
    }
}

/// Why not each trace has a class.
#[derive(Drop)]
pub(crate) enum Unloaded {
    /// The metadata of a trace, by its number, have a fault.
    Broken { trace: usize, fault: LoadFault },
    /// An allocation failed.
    NoMemory,
}

impl<T: Drop> From<AllocFailed<T>> for Unloaded {
    ghost use Rattle.std.specs.Prelude.{◌≡◌};
    ghost use Rattle.ctf_run.specs.declared.loading.Unloaded.TheVariants as unloaded;

    ghost from_gives = { λ _ fault. fault ≡ unloaded.NoMemory };

    fn from(_refused: AllocFailed<T>) -> Unloaded {
        Unloaded::NoMemory
    }
}

/// The classes of traces; or the fault of the first one that has none.
pub(crate) fn load_all<S>(alloc: Global, traces: &[Trace<S>]) -> Result<Vec<TraceClass>, Unloaded>
    ensures { MatchResult result (λ classes. HaveClasses traces.now classes.items)
        (IsUnloaded traces.now) }
{
    let mut classes = Vec::new(alloc);
    let mut number = 0;
    for trace in traces {
        match ctf_load::load(alloc, &trace.metadata) {
            Ok(class) => classes.push(class)?,
            Err(fault) => return Err(of_trace(number, fault)),
        }
        number += 1;
    }
    Ok(classes)
}

/// The fault of the metadata of a trace; or out of memory.
fn of_trace(trace: usize, fault: LoadFault) -> Unloaded
    ensures { result ≡ of_trace trace fault }
{
    if fault.is_refusal() {
        Unloaded::NoMemory
    } else {
        Unloaded::Broken { trace, fault }
    }
}
