//! Messages about what a tracer did not write.

ghost use Rattle.std.specs.Prelude.{◌≡◌, ◌++◌, OnOk};
ghost use Rattle.std.specs.Fmt.{decimal};
ghost use Rattle.ctf_log.specs.Lines as lines;
ghost use Rattle.ctf_timestamp.specs.Stamps.{stamp};
ghost use Rattle.ctf_stream.specs.Shown.{gap_of};

use ctf_class::escaped;
use ctf_clock::Moment;
use ctf_list::NoMemory;
use ctf_stream::Gap;
use ctf_timestamp::{MOST_STAMP, Stamper};
use std::alloc::Global;

/// The words of a message about a gap: `discarded ` and ` events`, or `lost ` and ` packets`.
#[derive(Clone, Copy)]
pub(crate) struct GapWords<'a> {
    pub(crate) verb: &'a [u8],
    pub(crate) noun: &'a [u8],
}

/// Appends the message about a gap.
pub(crate) fn append_gap(
    alloc: Global,
    text: &mut Vec<u8>,
    stamper: &mut Stamper,
    words: &GapWords<'_>,
    gap: &Gap<'_>,
) -> Result<(), NoMemory>
    ensures text { OnOk result
        (text.new.items ≡
        text.old.items ++ lines.gap_line words.now.verb.now words.now.noun.now stamper.old
        gap.now.name.now (gap_of gap.now 0 0)) }
    ensures style { stamper.new ≡ stamper.old }
{
    append_count(text, words, gap.count)?;
    append_interval(text, stamper, gap.from, gap.to)?;
    append_stream(alloc, text, gap.name)?;
    Ok(())
}

/// Appends what was not written, and how many.
fn append_count(text: &mut Vec<u8>, words: &GapWords<'_>, count: u64) -> Result<(), NoMemory>
    ensures { OnOk result (text.new.items ≡
        text.old.items ++ lines.count_text words.now.verb.now words.now.noun.now count) }
{
    text.extend_from_slice(b"WARNING: tracer ")?;
    text.extend_from_slice(words.verb)?;
    append_number(text, words.noun, count)?;
    Ok(())
}

/// Appends a number and what it counts.
fn append_number(text: &mut Vec<u8>, noun: &[u8], count: u64) -> Result<(), NoMemory>
    ensures { OnOk result (text.new.items ≡ text.old.items ++ (decimal count ++ noun.now)) }
{
    let mut digits = itoa::Buffer::new();
    text.extend_from_slice(digits.format(count).as_bytes())?;
    text.extend_from_slice(noun)?;
    Ok(())
}

/// Appends the name of the stream.
fn append_stream(alloc: Global, text: &mut Vec<u8>, name: &str) -> Result<(), NoMemory>
    ensures { OnOk result (text.new.items ≡ text.old.items ++ lines.stream_text name.now) }
{
    let name = escaped(alloc, name.as_bytes())?;
    text.extend_from_slice(b" in stream \"")?;
    text.extend_from_slice(&name)?;
    text.extend_from_slice(b"\"\n")?;
    Ok(())
}

/// Appends since when and until when, if both are known.
fn append_interval(
    text: &mut Vec<u8>,
    stamper: &mut Stamper,
    from: Option<Moment>,
    to: Option<Moment>,
) -> Result<(), NoMemory>
    ensures text { OnOk result
        (text.new.items ≡ text.old.items ++ lines.interval stamper.old from to) }
    ensures style { stamper.new ≡ stamper.old }
{
    let Some(from) = from else {
        return Ok(());
    };
    let Some(to) = to else {
        return Ok(());
    };
    text.extend_from_slice(b" between [")?;
    append_stamp(text, stamper, from)?;
    text.extend_from_slice(b"] and [")?;
    append_stamp(text, stamper, to)?;
    text.extend_from_slice(b"]")?;
    Ok(())
}

/// Appends the stamp of a moment.
fn append_stamp(text: &mut Vec<u8>, stamper: &mut Stamper, moment: Moment) -> Result<(), NoMemory>
    ensures text { OnOk result (text.new.items ≡ text.old.items ++ stamp stamper.old moment) }
    ensures style { stamper.new ≡ stamper.old }
{
    let mut stamp = [0; MOST_STAMP];
    let end = stamper.put_stamp(moment, &mut stamp, 0);
    text.extend_from_slice(&stamp[..end])?;
    Ok(())
}
