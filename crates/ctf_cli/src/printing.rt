//! What the words of a command line ask for.

ghost use Rattle.std.specs.Prelude.{◌≡◌, ◌⊎◌, IsTrue, map, string_bytes};
ghost use Rattle.ctf_faults.specs.Outcomes.{outcome_text, status_of};
ghost use Rattle.ctf_cli.specs.Ends as ends;

use crate::folders::Folders;
use crate::opening::open_traces;
use ctf_bits::{Sink, SinkFault};
use ctf_options::{Options, Usage, options_of};
use ctf_run::{Log, Outcome, put_all, run};
use std::alloc::Global;

/// Does what the words of a command line ask for, and gives the exit status: 0 on success, else 1. The first word is
/// the program's name.
///
/// Refused words are reported first, then the first path that cannot be read, then what the run reports. The log is
/// passed on at the end, and before each message.
pub fn program<F: Folders, W: Log, E: Sink>(
    alloc: Global,
    words: &[String],
    folders: &F,
    out: &mut W,
    err: &mut E,
) -> u8
    // What was written, and the status, are those of the traces in the folders, of the first path that cannot be read,
    // or of the words.
    ensures ends { let log = ends.side_of W.accepted W.settled W.failures W.refusals in
        let messages = ends.plain_side_of E.accepted E.failures E.refusals in
        IsTrue (F.tells folders.now) → IsTrue (W.tells out.old) → IsTrue (E.tells err.old) →
        ends.Ends (map string_bytes words.now) (F.holds folders.now)
        (record { out = log out.old; err = messages err.old })
        (record { out = log out.new; err = messages err.new }) result }

    // Of any folders and sinks: on success no write of the log failed, and nothing of it is held back.
    ensures unfailing { result ≡ 0 → W.failures out.new ≡ W.failures out.old }
    ensures settled { result ≡ 0 → IsTrue (W.settled out.new) }
    ensures status { (result ≡ 0) ⊎ (result ≡ 1) }
{
    match options_of(alloc, words) {
        Ok(options) => print(alloc, &options, folders, out, err),
        Err(Usage::Help) => help(out, err),
        Err(Usage::Bad) => say(Usage::Bad.text(), err),
        Err(Usage::NoMemory) => say(Usage::NoMemory.text(), err),
    }
}

/// Prints the traces in the folders.
fn print<F: Folders, W: Log, E: Sink>(
    alloc: Global,
    options: &Options,
    folders: &F,
    out: &mut W,
    err: &mut E,
) -> u8
    ensures ends { let log = ends.side_of W.accepted W.settled W.failures W.refusals in
        let messages = ends.plain_side_of E.accepted E.failures E.refusals in
        IsTrue (F.tells folders.now) → IsTrue (W.tells out.old) → IsTrue (E.tells err.old) →
        ends.EndsFor options.now (F.holds folders.now)
        (record { out = log out.old; err = messages err.old })
        (record { out = log out.new; err = messages err.new }) result }
    ensures unfailing { result ≡ 0 → W.failures out.new ≡ W.failures out.old }
    ensures settled { result ≡ 0 → IsTrue (W.settled out.new) }
    ensures status { (result ≡ 0) ⊎ (result ≡ 1) }
{
    match open_traces(alloc, folders, options.dirs.as_slice()) {
        Ok(traces) => {
            let outcome = run(alloc, traces, options, out, err);
            let told = pass_on(outcome, out);
            end(told, err)
        }
        Err(stop) => say(stop.line(), err),
    }
}

/// Prints how the program is used.
fn help<W: Log, E: Sink>(out: &mut W, err: &mut E) -> u8
    ensures helps { let log = ends.side_of W.accepted W.settled W.failures W.refusals in
        let messages = ends.plain_side_of E.accepted E.failures E.refusals in
        IsTrue (W.tells out.old) → IsTrue (E.tells err.old) →
        ends.Helps (record { out = log out.old; err = messages err.old })
        (record { out = log out.new; err = messages err.new }) result }
    ensures unfailing { result ≡ 0 → W.failures out.new ≡ W.failures out.old }
    ensures settled { result ≡ 0 → IsTrue (W.settled out.new) }
    ensures status { (result ≡ 0) ⊎ (result ≡ 1) }
{
    let outcome = put(out, Usage::Help.text());
    let told = pass_on(outcome, out);
    end(told, err)
}

/// Writes a text of the log.
fn put<W: Log>(out: &mut W, text: &[u8]) -> Outcome
    ensures puts { IsTrue (W.tells out.old) →
        ends.Puts text.now result (ends.side_of W.accepted W.settled W.failures W.refusals out.old)
        (ends.side_of W.accepted W.settled W.failures W.refusals out.new) }
    ensures tells { IsTrue (W.tells out.old) → IsTrue (W.tells out.new) }
    ensures unfailing { result ≡ Outcome.Done → W.failures out.new ≡ W.failures out.old }
{
    match put_all(out, text) {
        Ok(()) => Outcome::Done,
        Err(SinkFault::Failed) => Outcome::WriteFailed,
        Err(SinkFault::NoMemory) => Outcome::NoMemory,
    }
}

/// Passes on what is held back of the log, unless a write has failed. It gives how the program ends.
fn pass_on<W: Log>(outcome: Outcome, out: &mut W) -> Outcome
    ensures passes { IsTrue (W.tells out.old) →
        ends.Settles (ends.side_of W.accepted W.settled W.failures W.refusals out.old)
        (ends.side_of W.accepted W.settled W.failures W.refusals out.new) outcome result }
    ensures done { result ≡ Outcome.Done → outcome ≡ Outcome.Done }
    ensures unfailing { result ≡ Outcome.Done → W.failures out.new ≡ W.failures out.old }
    ensures settled { result ≡ Outcome.Done → IsTrue (W.settled out.new) }
{
    if let Outcome::WriteFailed = outcome {
        return outcome;
    }
    match out.settle() {
        Ok(()) => outcome,
        Err(SinkFault::Failed) => Outcome::WriteFailed,
        Err(SinkFault::NoMemory) => Outcome::NoMemory,
    }
}

/// Tries to write the line of an outcome, and gives its status.
fn end<E: Sink>(outcome: Outcome, err: &mut E) -> u8
    ensures says { IsTrue (E.tells err.old) →
        ends.Says (outcome_text outcome)
        (ends.plain_side_of E.accepted E.failures E.refusals err.old)
        (ends.plain_side_of E.accepted E.failures E.refusals err.new) }
    ensures status { result ≡ status_of outcome }
{
    let _ = put_all(err, outcome.text());
    outcome.status()
}

/// Tries to write a line that says why nothing is printed, and gives the status.
pub(crate) fn say<E: Sink>(line: &[u8], err: &mut E) -> u8
    ensures says { IsTrue (E.tells err.old) →
        ends.Says line.now (ends.plain_side_of E.accepted E.failures E.refusals err.old)
        (ends.plain_side_of E.accepted E.failures E.refusals err.new) }
    ensures status { result ≡ 1 }
{
    let _ = put_all(err, line);
    1
}
