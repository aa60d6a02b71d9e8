//! The traces in folders.

ghost use Rattle.std.specs.Prelude.{◌≡◌, ℕ, List, Some, None, Ok, Err, IfOk, OnOk, MatchResult, IsTrue, map, option_map, string_bytes, take, ◌++◌};
ghost use Rattle.std.specs.Path.{path_join, path_buf_bytes};
ghost use Rattle.ctf_run.specs.Traces.{stream_of, trace_of, traces_of};
ghost use Rattle.ctf_session.specs.Inputs as inputs;
ghost use Rattle.ctf_cli.specs.Files as files;
ghost use Rattle.ctf_cli.specs.Traces as held;

use crate::folders::{FolderFault, Folders};
use ctf_list::{NoMemory, Text};
use ctf_options::stream_names;
use ctf_run::{Outcome, Trace, io_line};
use std::alloc::{AllocError, AllocFailed, Global};
use std::path::{Path, PathBuf};

/// Why traces were not opened.
#[derive(Drop)]
pub enum OpeningFault {
    /// A path cannot be read: its line.
    Unreadable(Vec<u8>),
    NoMemory,
}

impl OpeningFault {
    /// The line to print, with its newline.
    pub fn line(&self) -> &[u8]
        ensures { result.now ≡ held.stop_line self.now }
    {
        match self {
            OpeningFault::Unreadable(line) => line,
            OpeningFault::NoMemory => Outcome::NoMemory.text(),
        }
    }
}

impl From<AllocError> for OpeningFault {
    ghost use Rattle.ctf_cli.specs.declared.opening.OpeningFault.TheVariants as stops;

    ghost from_gives = { λ _ stop. stop ≡ stops.NoMemory };

    fn from(_refused: AllocError) -> OpeningFault {
        OpeningFault::NoMemory
    }
}

impl<T: Drop> From<AllocFailed<T>> for OpeningFault {
    ghost use Rattle.ctf_cli.specs.declared.opening.OpeningFault.TheVariants as stops;

    ghost from_gives = { λ _ stop. stop ≡ stops.NoMemory };

    fn from(_refused: AllocFailed<T>) -> OpeningFault {
        OpeningFault::NoMemory
    }
}

impl From<NoMemory> for OpeningFault {
    ghost use Rattle.ctf_cli.specs.declared.opening.OpeningFault.TheVariants as stops;

    ghost from_gives = { λ _ stop. stop ≡ stops.NoMemory };

    fn from(_refused: NoMemory) -> OpeningFault {
        OpeningFault::NoMemory
    }
}

/// One byte more than the longest metadata has: enough to see that metadata is too long.
const METADATA_BYTES: u64 = 67_108_865;

/// The traces in folders, in their order. At an error it is the first path that cannot be read: a folder, then its
/// metadata, then its streams in their order.
pub fn open_traces<F: Folders>(
    alloc: Global,
    folders: &F,
    dirs: &[Text],
) -> Result<Vec<Trace<F::Stream>>, OpeningFault>
    ensures { IsTrue (F.tells folders.now) → MatchResult result
        (λ traces. held.AreTraces (F.holds folders.now) dirs.now
        (traces_of (files.given_by F.Stream.tells F.Stream.left F.Stream.ending) traces.items))
        (held.IsStop (held.AreBlocked (F.holds folders.now) dirs.now)) }
{
    let mut traces = Vec::new(alloc);
    for dir in dirs {
        let trace = open_trace(alloc, folders, dir.as_str())?;
        traces.push(trace)?;
    }
    Ok(traces)
}

/// The trace in a folder.
fn open_trace<F: Folders>(
    alloc: Global,
    folders: &F,
    dir: &str,
) -> Result<Trace<F::Stream>, OpeningFault>
    ensures { IsTrue (F.tells folders.now) → MatchResult result
        (λ trace. held.IsTrace (F.holds folders.now) dir.now
        (trace_of (files.given_by F.Stream.tells F.Stream.left F.Stream.ending) trace))
        (held.IsStop (held.IsBlocked (F.holds folders.now) dir.now)) }
{
    let names = list(alloc, folders, dir)?;
    let metadata = read_metadata(alloc, folders, dir)?;
    let streams = open_streams(alloc, folders, dir, &names)?;
    let name = String::from_str(alloc, dir)?;
    Ok(Trace {
        name,
        metadata,
        streams,
    })
}

/// The names of the files that may be streams, in their order. No folder has an empty path.
fn list<F: Folders>(alloc: Global, folders: &F, dir: &str) -> Result<Vec<String>, OpeningFault>
    ensures { IsTrue (F.tells folders.now) → MatchResult result
        (λ names. (listed : List (List ℕ)) ×
        (held.names_in (F.holds folders.now) dir.now ≡ Some listed) ×
        held.AreStreamNames listed (map string_bytes names.items))
        (held.IsStop (λ path. (path ≡ dir.now) ×
        (held.names_in (F.holds folders.now) dir.now ≡ None))) }
{
    if dir.is_empty() {
        return Err(unreadable_path(alloc, dir));
    }
    match folders.list(alloc, dir) {
        Ok(names) => Ok(stream_names(alloc, names)?),
        Err(fault) => Err(stop_of(alloc, fault, dir)),
    }
}

/// The bytes of the file `metadata`, or the beginning of one that is too long.
fn read_metadata<F: Folders>(alloc: Global, folders: &F, dir: &str) -> Result<Vec<u8>, OpeningFault>
    ensures { IsTrue (F.tells folders.now) → MatchResult result
        (λ metadata. (bytes : List ℕ) ×
        ((F.holds folders.now).bytes (held.metadata_path dir.now) ≡ Some bytes) ×
        (metadata.items ≡ take held.METADATA_READ bytes))
        (held.IsStop (λ path. (path ≡ held.metadata_path dir.now) ×
        ((F.holds folders.now).bytes (held.metadata_path dir.now) ≡ None))) }
{
    let path = path_in(alloc, dir, "metadata")?;
    match folders.read(alloc, path.as_str(), METADATA_BYTES) {
        Ok(bytes) => Ok(bytes),
        Err(fault) => Err(stop_of(alloc, fault, path.as_str())),
    }
}

/// Opens the streams among the files of these names.
fn open_streams<F: Folders>(
    alloc: Global,
    folders: &F,
    dir: &str,
    names: &[String],
) -> Result<Vec<(String, F::Stream)>, OpeningFault>
    ensures { IsTrue (F.tells folders.now) → MatchResult result
        (λ streams. held.streams_in (F.holds folders.now) dir.now (map string_bytes names.now) ≡
        Ok (map (stream_of (files.given_by F.Stream.tells F.Stream.left F.Stream.ending))
        streams.items))
        (held.IsStop (λ path. held.streams_in (F.holds folders.now) dir.now
        (map string_bytes names.now) ≡ Err path)) }
{
    let mut streams = Vec::new(alloc);
    for name in names {
        let file = name.as_str();
        let stream = open_stream(alloc, folders, dir, file)?;
        push_stream(alloc, &mut streams, file, stream)?;
    }
    Ok(streams)
}

/// Adds a stream and its name, if there is one.
fn push_stream<S: Drop>(
    alloc: Global,
    streams: &mut Vec<(String, S)>,
    name: &str,
    stream: Option<S>,
) -> Result<(), NoMemory>
    ensures { OnOk result ((given : S → inputs.Given) →
        map (stream_of given) streams.new.items ≡
        map (stream_of given) streams.old.items ++ held.stream_if name.now
        (option_map given stream)) }
{
    match stream {
        Some(stream) => {
            let name = String::from_str(alloc, name)?;
            streams.push((name, stream))?;
            Ok(())
        }
        None => Ok(()),
    }
}

/// Opens a stream, if the file of this name is one.
fn open_stream<F: Folders>(
    alloc: Global,
    folders: &F,
    dir: &str,
    name: &str,
) -> Result<Option<F::Stream>, OpeningFault>
    ensures { IsTrue (F.tells folders.now) → MatchResult result
        (λ opened. (F.holds folders.now).found (path_join dir.now name.now) ≡
        files.found_of (files.given_by F.Stream.tells F.Stream.left F.Stream.ending) opened)
        (held.IsStop (λ path. (path ≡ path_join dir.now name.now) ×
        ((F.holds folders.now).found path ≡ files.closed))) }
{
    let path = path_in(alloc, dir, name)?;
    match folders.open(alloc, path.as_str()) {
        Ok(stream) => Ok(stream),
        Err(fault) => Err(stop_of(alloc, fault, path.as_str())),
    }
}

/// The path of a file in a folder.
fn path_in(alloc: Global, dir: &str, name: &str) -> Result<PathBuf, NoMemory>
    ensures { IfOk result (λ path. path_buf_bytes path ≡ path_join dir.now name.now) }
{
    Ok(Path::new(dir).join(alloc, name)?)
}

/// Why a path was not read.
fn stop_of(alloc: Global, fault: FolderFault, path: &str) -> OpeningFault
    ensures { held.IsStopAt path.now fault result }
{
    match fault {
        FolderFault::Unreadable => unreadable_path(alloc, path),
        FolderFault::NoMemory => OpeningFault::NoMemory,
    }
}

/// A path cannot be read.
fn unreadable_path(alloc: Global, path: &str) -> OpeningFault
    ensures { held.IsStop (λ other. other ≡ path.now) result }
{
    match io_line(alloc, path) {
        Ok(line) => OpeningFault::Unreadable(line),
        Err(NoMemory) => OpeningFault::NoMemory,
    }
}
