//! Runs over traces.

ghost use Rattle.std.specs.Prelude.{◌≡◌, ◌⊎◌, IsTrue, false};
ghost use Rattle.ctf_session.specs.Inputs.{given_by};
ghost use Rattle.ctf_session.specs.Steps.{counts_by, CountsAfter, SameForMessages, SettledBy, IsNamed};
ghost use Rattle.ctf_session.specs.Writing.{written_by};
ghost use Rattle.ctf_run.specs.Traces.{traces_of, EachTells, Runs};
ghost use Rattle.ctf_faults.specs.Table.{is_refusal};
ghost use Rattle.ctf_run.specs.Told.{TellsFault};

use crate::loading::{Unloaded, load_all};
use crate::naming::name_traces;
use crate::trace::Trace;
use ctf_bits::{Sink, Source};
use ctf_faults::{LoadFault, Outcome, RunFault, metadata_line};
use ctf_options::Options;
use ctf_session::{Log, Session, print_all, say};
use std::alloc::Global;

/// Prints the event records of traces to `out`, and messages to `err`, as the options ask for it. Streams are
/// numbered by trace, and then in their order.
pub fn run<S: Source + Drop, W: Log, E: Sink>(
    alloc: Global,
    traces: Vec<Trace<S>>,
    options: &Options,
    out: &mut W,
    err: &mut E,
) -> Outcome
    // What the definition says of the bytes of the metadata and of the streams is written and answered. Where a write
    // fails or an allocation fails, the first pieces of it are written, a first part of the next, and nothing after it.
    ensures runs { let all = traces_of (given_by S.tells S.left S.ending) traces.items in
        let wrote = written_by W.accepted W.settled E.accepted in
        EachTells all → IsTrue (W.tells out.old) → IsTrue (E.tells err.old)
        → Runs all options.now result (wrote out.old err.old out.new err.new) }

    // No sink failed or ran out of memory but the one that stopped the run, once.
    ensures counts { let counts = counts_by W.failures W.refusals E.failures E.refusals in
        CountsAfter result (counts out.old err.old) (counts out.new err.new) }
    ensures named { IsNamed result }

    // Nothing of the log is held back after the line of a fault, nor where the messages failed or ran out of memory.
    ensures after { SettledBy result (W.settled out.new) }
    ensures settled { let counts = counts_by W.failures W.refusals E.failures E.refusals in
        SameForMessages (counts out.old err.old) (counts out.new err.new)
        ⊎ IsTrue (W.settled out.new) }
    ensures out_tells { IsTrue (W.tells out.old) → IsTrue (W.tells out.new) }
    ensures err_tells { IsTrue (E.tells err.old) → IsTrue (E.tells err.new) }
{
    let classes = match load_all(alloc, &traces) {
        Ok(classes) => classes,
        Err(Unloaded::Broken { trace, fault }) => {
            let broken = BrokenTrace { trace, fault };
            return tell(alloc, &traces, &broken, out, err);
        }
        Err(Unloaded::NoMemory) => return Outcome::NoMemory,
    };
    let streams = match name_traces(alloc, traces, &classes) {
        Ok(streams) => streams,
        Err(_refused) => return Outcome::NoMemory,
    };
    match Session::new(alloc, streams, options) {
        Ok(mut session) => print_all(&mut session, out, err),
        Err(_refused) => Outcome::NoMemory,
    }
}

/// A trace, by its number, and the fault of its metadata.
#[derive(Clone, Copy)]
struct BrokenTrace {
    trace: usize,
    fault: LoadFault,
}

/// Writes the line of a fault of the metadata of a trace.
fn tell<S, W: Log, E: Sink>(
    alloc: Global,
    traces: &[Trace<S>],
    broken: &BrokenTrace,
    out: &mut W,
    err: &mut E,
) -> Outcome
    requires { is_refusal broken.now.fault ≡ false }
    ensures told { let wrote = written_by W.accepted W.settled E.accepted in
        IsTrue (W.tells out.old) → IsTrue (E.tells err.old)
        → TellsFault traces.now broken.now.trace broken.now.fault result
        (wrote out.old err.old out.new err.new) }
    ensures counts { let counts = counts_by W.failures W.refusals E.failures E.refusals in
        CountsAfter result (counts out.old err.old) (counts out.new err.new) }
    ensures named { IsNamed result }
    ensures settled { (err.new ≡ err.old) ⊎ IsTrue (W.settled out.new) }
    ensures after { SettledBy result (W.settled out.new) }
    ensures out_tells { IsTrue (W.tells out.old) → IsTrue (W.tells out.new) }
    ensures err_tells { IsTrue (E.tells err.old) → IsTrue (E.tells err.new) }
{
    let BrokenTrace { trace, fault } = *broken;
    let name = if traces.len() > 1 {
        match traces.get(trace) {
            Some(trace) => Some(trace.name.as_str()),
            None => None,
        }
    } else {
        None
    };
    match metadata_line(alloc, &fault, name) {
        Ok(text) => match say(&text, out, err) {
            None => Outcome::Fault(RunFault::Metadata { trace, fault }),
            Some(stop) => stop.outcome(),
        },
        Err(_refused) => Outcome::NoMemory,
    }
}
