//! The names that are shown of streams.

ghost use Rattle.std.specs.Prelude.{◌≡◌, ◌++◌, IfOk, length, map, string_bytes, codes, true};
ghost use Rattle.ctf_session.specs.Inputs as sessions;
ghost use Rattle.ctf_session.specs.Inputs.{Given};
ghost use Rattle.ctf_run.specs.Traces.{traces_of, are_several, inputs_from, stream_of, shown_as};

use crate::trace::Trace;
use ctf_class::TraceClass;
use ctf_list::NoMemory;
use ctf_session::Streams;
use std::alloc::Global;

/// The streams of traces with their classes and the names that are shown: where there are several traces, that of
/// the trace, `/` and that of the stream.
pub(crate) fn name_traces<'a, S: Drop>(
    alloc: Global,
    traces: Vec<Trace<S>>,
    classes: &'a [TraceClass],
) -> Result<Vec<Streams<'a, S>>, NoMemory>
    requires { length traces.items ≡ length classes.now }
    ensures { (given : S → Given) → IfOk result (λ named. sessions.inputs_from given 0 named.items
        ≡ inputs_from (are_several (traces_of given traces.items)) 0 (traces_of given traces.items)
        classes.now) }
{
    let several = traces.len() > 1;
    let mut named = Vec::new(alloc);
    let mut number = 0;
    for trace in traces {
        let Trace {
            name,
            metadata: _,
            streams,
        } = trace;
        let streams = name_streams(alloc, several, &name, streams)?;
        named.push(Streams {
            class: &classes[number],
            streams,
        })?;
        number += 1;
    }
    Ok(named)
}

/// The streams of a trace with the names that are shown of them.
fn name_streams<S: Drop>(
    alloc: Global,
    several: bool,
    trace: &str,
    streams: Vec<(String, S)>,
) -> Result<Vec<(String, S)>, NoMemory>
    ensures { (given : S → Given) →
        IfOk result (λ shown. map (stream_of given) shown.items ≡
        map (shown_as several trace.now) (map (stream_of given) streams.items)) }
{
    if several {
        join_names(alloc, trace, streams)
    } else {
        Ok(streams)
    }
}

/// The streams of a trace, each with the name of the trace before its own.
fn join_names<S: Drop>(
    alloc: Global,
    trace: &str,
    streams: Vec<(String, S)>,
) -> Result<Vec<(String, S)>, NoMemory>
    ensures { (given : S → Given) →
        IfOk result (λ joined. map (stream_of given) joined.items ≡
        map (shown_as true trace.now) (map (stream_of given) streams.items)) }
{
    let mut joined = Vec::with_capacity(alloc, streams.len())?;
    for (name, source) in streams {
        joined.push((shown_name(alloc, trace, &name)?, source))?;
    }
    Ok(joined)
}

/// The name of a stream where there are several traces.
fn shown_name(alloc: Global, trace: &str, name: &str) -> Result<String, NoMemory>
    ensures { IfOk result (λ shown. string_bytes shown ≡ trace.now ++ (codes "/" ++ name.now)) }
{
    let mut shown = String::from_str(alloc, trace)?;
    shown.push_str("/")?;
    shown.push_str(name)?;
    Ok(shown)
}
