//! The readers of the streams of several traces.

ghost use Rattle.std.specs.Prelude.{◌≡◌, ◌++◌, List, map, IfOk, OnOk};
ghost use Rattle.ctf_session.specs.Inputs.{Input, input_of, inputs_from};
ghost use Rattle.ctf_session.specs.Opening.{EachOpens};

use crate::input::Streams;
use ctf_bits::Source;
use ctf_list::{NoMemory, Text};
use ctf_options::Options;
use ctf_stream::StreamReader;
use std::alloc::Global;

/// A reader of each stream, which gives event records as texts where they can be, and the number of the trace of each.
pub(crate) fn open_all<'a, S: Source + Drop>(
    alloc: Global,
    traces: Vec<Streams<'a, S>>,
    options: &Options,
) -> Result<(Vec<StreamReader<'a, S>>, Vec<usize>), NoMemory>
    ensures opened { IfOk result
        (λ r. EachOpens options.now
        (inputs_from (λ s. record { tells = S.tells s; bytes = S.left s; ending = S.ending s }) 0
        traces.entry.items) r.0.items) }
    ensures numbers { IfOk result
        (λ r. r.1.items ≡
        map (λ i. i.trace)
        (inputs_from (λ s. record { tells = S.tells s; bytes = S.left s; ending = S.ending s }) 0
        traces.entry.items)) }
{
    let mut opened = Opened {
        readers: Vec::new(alloc),
        numbers: Vec::new(alloc),
    };
    let mut number = 0;
    for trace in traces {
        open_streams(alloc, number, trace, options, &mut opened)?;
        number += 1;
    }
    Ok((opened.readers, opened.numbers))
}

/// The readers of streams, and the number of the trace of each.
#[derive(Drop)]
struct Opened<'a, S: Source + Drop> {
    readers: Vec<StreamReader<'a, S>>,
    numbers: Vec<usize>,
}

/// Adds a reader for each stream of a trace, and for each the number of the trace.
fn open_streams<'a, S: Source + Drop>(
    alloc: Global,
    number: usize,
    trace: Streams<'a, S>,
    options: &Options,
    opened: &mut Opened<'a, S>,
) -> Result<(), NoMemory>
    ensures opened { (inputs : List Input) → EachOpens options.now inputs opened.old.readers.items
        → OnOk result (EachOpens options.now
        (inputs ++ map (input_of
        (λ s. record { tells = S.tells s; bytes = S.left s; ending = S.ending s }) number
        trace.entry.class.now) trace.entry.streams.items) opened.new.readers.items) }
    ensures numbers { OnOk result
        (opened.new.numbers.items ≡
        opened.old.numbers.items ++ map (λ s. number) trace.entry.streams.items) }
{
    let Streams { class, streams } = trace;
    for (name, source) in streams {
        let name = Text::from_string(name);
        let reader = StreamReader::new(alloc, class, name, source, options.shift);
        opened.readers.push(reader.with_texts(options.trim.begin))?;
        opened.numbers.push(number)?;
    }
    Ok(())
}
