//! The folders of the file system.

ghost use Rattle.std.specs.Prelude.{◌≡◌, ◌+◌, ◌-◌, ◌^◌, ◌<◌, ◌≤◌, [], length, min, IfOk, Ok, OnErr};
ghost use Rattle.std.specs.Io.{ReadsAtMost};
ghost use Rattle.std.specs.Io.KnownBytes.{ReadConsumes, prepend_known};

use crate::folders::{FolderFault, Folders};
use crate::read_ahead::ReadAhead;
use ctf_bits::{Source, SourceFault, retry_interrupted};
use std::alloc::Global;
use std::cell::Cell;
use std::fs::{self, OpenFile};
use std::io::{self, Error, ErrorKind, Read, Seek, SeekFrom};
use std::rt::Files;

/// How many files are kept open at the most. The usual limit is 1,024 for a process.
const KEPT_OPEN: usize = 512;

/// How many bytes are read ahead at the most, over all streams that are kept open.
const AHEAD: usize = 1_048_576;

/// How many bytes of one stream are read ahead at the most.
const AHEAD_OF_ONE: usize = 65_536;

/// How many bytes are read ahead at the most of the last file that was opened anew.
const AHEAD_OF_LAST: usize = 4_096;

/// The file system of a runtime, and what its streams share.
#[derive(Drop)]
pub struct Disk<'a, R: Files> {
    rt: &'a R,
    alloc: Global,
    /// How many streams were opened.
    opened: Cell<usize>,
    /// The last file that was opened anew. A packet takes several reads, one after the other.
    last: Cell<Option<LastFile<R>>>,
}

impl<'a, R: Files + AllocGlobal> Disk<'a, R> {
    /// The file system of a runtime.
    pub fn new(rt: &'a R) -> Disk<'a, R> {
        Disk {
            rt,
            alloc: rt.alloc(),
            opened: Cell::new(0),
            last: Cell::new(None),
        }
    }
}

impl<'d, 'a, R: Files + AllocGlobal + Clone + Drop> Folders for &'d Disk<'a, R> {
    type Stream = DiskStream<'d, 'a, R>;

    // What the system holds can change at any time.
    ghost use Rattle.std.specs.Prelude.{false};
    ghost use Rattle.ctf_cli.specs.Files.{untold};

    ghost tells = { λ _. false };

    ghost holds = { λ _. untold };

    fn list(&self, alloc: Global, dir: &str) -> Result<Vec<String>, FolderFault> {
        retry_interrupted(|| names_in(alloc, self.rt, dir)).map_err(fault_of)
    }

    fn read(&self, alloc: Global, path: &str, most: u64) -> Result<Vec<u8>, FolderFault> {
        let mut bytes = Vec::new(alloc);
        match open_file(self.rt, path, 0) {
            Ok(Some(file)) => match file.take(most).read_to_end(&mut bytes) {
                Ok(_count) => Ok(bytes),
                Err(error) => Err(fault_of(error)),
            },
            Ok(None) => Err(FolderFault::Unreadable),
            Err(error) => Err(fault_of(error)),
        }
    }

    fn open(
        &self,
        alloc: Global,
        path: &str,
    ) -> Result<Option<DiskStream<'d, 'a, R>>, FolderFault> {
        let disk: &'d Disk<'a, R> = *self;
        let Some(file) = open_stream(disk.rt, path).map_err(fault_of)? else {
            return Ok(None);
        };
        let before = disk.opened.get();
        disk.opened.set(before.saturating_add(1));
        let file = if before < KEPT_OPEN {
            let ahead = ReadAhead::new(alloc);
            let kept = Box::new(alloc, ReadFile { file, ahead });
            StreamFile::Kept(kept.map_err(|_| FolderFault::NoMemory)?)
        } else {
            StreamFile::Reopened {
                number: before,
                path: String::from_str(alloc, path).map_err(|_| FolderFault::NoMemory)?,
                at: 0,
            }
        };
        Ok(Some(DiskStream { disk, file }))
    }
}

impl<'a, R: Files> Disk<'a, R> {
    /// How many bytes of a file that is kept open are read ahead at the most: its share.
    fn share(&self) -> usize {
        (AHEAD / self.opened.get().max(1)).min(AHEAD_OF_ONE)
    }

    /// Reads from a place of a file on, and moves the place to the end of what was read.
    fn read_at(&self, number: usize, path: &str, at: &mut u64, buf: &mut [u8]) -> io::Result<usize>
        requires { 0 < length buf.old }
        ensures bound { IfOk result (λ count. count ≤ length buf.new) }
        ensures moved { IfOk result (λ count. at.new ≡ min (at.old + count) (2 ^ 64 - 1)) }
        ensures stays { OnErr result (at.new ≡ at.old) }
    {
        let mut last = self.opened_at(number, path, *at)?;
        let read = last.file.read(AHEAD_OF_LAST, buf);
        self.last.set(Some(last));
        if let Ok(count) = &read {
            *at = at.saturating_add(*count as u64);
        }
        read
    }

    /// A file that is read from a place on: the last one, or one that is opened anew.
    fn opened_at(&self, number: usize, path: &str, at: u64) -> io::Result<LastFile<R>>
        ensures { IfOk result (λ last. last.number ≡ number) }
    {
        let ahead = match self.last.replace(None) {
            Some(last) if last.number == number => return Ok(last),
            Some(last) => room_of(last.file.ahead),
            None => ReadAhead::new(self.alloc),
        };
        let file = self.opened_anew(path, at, ahead)?;
        Ok(LastFile { number, file })
    }

    /// A file that is opened anew and read from a place on. Nothing is read ahead of it yet.
    fn opened_anew(&self, path: &str, at: u64, ahead: ReadAhead) -> io::Result<ReadFile<R>>
        requires { ahead.held.bytes ≡ [] }
        ensures { IfOk result (λ file. file.ahead.held.bytes ≡ []) }
    {
        let Some(mut file) = open_file(self.rt, path, 0)? else {
            return Err(Error::from(ErrorKind::InvalidInput));
        };
        file.seek(SeekFrom::Start(at))?;
        Ok(ReadFile { file, ahead })
    }
}

/// The room of what was read ahead of a file that is no longer open.
fn room_of(mut ahead: ReadAhead) -> ReadAhead
    ensures { result.held.bytes ≡ [] }
{
    ahead.forget();
    ahead
}

/// The names of the entries of a folder.
fn names_in<R: Files + AllocGlobal + Clone + Drop>(
    alloc: Global,
    rt: &R,
    dir: &str,
) -> io::Result<Vec<String>> {
    let mut names = Vec::new(alloc);
    for entry in fs::read_dir(rt, dir)? {
        let entry = entry?;
        names.push(String::from_str(alloc, entry.file_name())?)?;
    }
    Ok(names)
}

/// Opens a file that is not empty; none where the path leads to something else. A link to nothing, or to itself, leads
/// to none; a path at which nothing is there, since it was listed, to a file that is gone.
fn open_stream<R: Files>(rt: &R, path: &str) -> io::Result<Option<R::File>> {
    match open_file(rt, path, 1) {
        Err(error) if leads_nowhere(error.kind()) && is_link(rt, path) => Ok(None),
        opened => opened,
    }
}

/// Opens a regular file of so many bytes at the least; none where the path leads to something else.
///
/// The system waits where a pipe is opened to which nobody writes, so what is there is looked at first. What was opened
/// is looked at too, since the path can lead elsewhere by then.
fn open_file<R: Files>(rt: &R, path: &str, least: u64) -> io::Result<Option<R::File>> {
    let found = retry_interrupted(|| fs::metadata(rt, path))?;
    if !found.is_file() || found.len() < least {
        return Ok(None);
    }
    let file = fs::open(rt, path)?;
    let found = retry_interrupted(|| file.metadata())?;
    if !found.is_file() || found.len() < least {
        return Ok(None);
    }
    Ok(Some(file))
}

/// Whether a path is a link itself.
fn is_link<R: Files>(rt: &R, path: &str) -> bool {
    match retry_interrupted(|| fs::symlink_metadata(rt, path)) {
        Ok(found) => found.is_symlink(),
        Err(_) => false,
    }
}

/// Whether an error of this kind is reported where a link leads to no file.
fn leads_nowhere(kind: ErrorKind) -> bool {
    match kind {
        ErrorKind::NotFound | ErrorKind::NotADirectory | ErrorKind::FilesystemLoop => true,
        _ => false,
    }
}

/// What is told of an error of the file system.
fn fault_of(error: Error) -> FolderFault {
    if error.kind() == ErrorKind::OutOfMemory {
        FolderFault::NoMemory
    } else {
        FolderFault::Unreadable
    }
}

/// A file as a stream.
#[derive(Drop)]
pub struct DiskStream<'d, 'a, R: Files> {
    disk: &'d Disk<'a, R>,
    file: StreamFile<R>,
}

/// How a file is read.
#[derive(Drop)]
enum StreamFile<R: Files> {
    /// It is kept open. The box is for the many that are not.
    Kept(Box<ReadFile<R>>),
    /// It is opened anew at a place in bytes, unless it was the last one that was.
    Reopened {
        /// How many streams were opened before.
        number: usize,
        path: String,
        at: u64,
    },
}

/// The last file that was opened anew.
#[derive(Drop)]
struct LastFile<R: Files> {
    number: usize,
    file: ReadFile<R>,
}

/// An open file, and what of it was read ahead.
#[derive(Drop)]
struct ReadFile<R: Files> {
    file: R::File,
    ahead: ReadAhead,
}

impl<R: Files> ReadFile<R> {
    /// Reads the next bytes. Up to `most` bytes after them may be read ahead.
    #[inline(always)]
    fn read(&mut self, most: usize, buf: &mut [u8]) -> io::Result<usize>
        requires { 0 < length buf.old }
        ensures bound { ReadsAtMost result buf.new }
        ensures bytes { ReadConsumes
            (prepend_known self.old.ahead.held.bytes (R.File.remaining self.old.file))
            (prepend_known self.new.ahead.held.bytes (R.File.remaining self.new.file)) result
            buf.new }
    {
        self.ahead.read(&mut self.file, most, buf)
    }
}

impl<'d, 'a, R: Files> Source for DiskStream<'d, 'a, R> {
    ghost use Rattle.std.specs.Prelude.{[], false};
    ghost use Rattle.ctf_bits.specs.declared.source.Ending.TheVariants.{Failed};

    ghost tells = { λ _. false };

    ghost left = { λ _. [] };

    ghost ending = { λ _. Failed };

    #[inline(always)]
    fn take(&mut self, buf: &mut [u8]) -> Result<usize, SourceFault> {
        // Mostly some bytes are held, which takes no call.
        if let StreamFile::Kept(kept) = &mut self.file {
            if let Some(count) = kept.ahead.give_held(buf) {
                return Ok(count);
            }
        }
        self.take_next(buf)
    }
}

impl<'d, 'a, R: Files> DiskStream<'d, 'a, R> {
    /// Reads the next bytes.
    #[inline(never)]
    fn take_next(&mut self, buf: &mut [u8]) -> Result<usize, SourceFault>
        requires { 0 < length buf.old }
        ensures { IfOk result (λ count. count ≤ length buf.new) }
    {
        let disk: &'d Disk<'a, R> = self.disk;
        match &mut self.file {
            StreamFile::Kept(kept) => given(kept.read(disk.share(), buf)),
            StreamFile::Reopened { number, path, at } => {
                given(disk.read_at(*number, path.as_str(), at, buf))
            }
        }
    }
}

/// How many bytes a read gave.
#[inline(always)]
fn given(read: io::Result<usize>) -> Result<usize, SourceFault>
    ensures { IfOk result (λ count. read ≡ Ok count) }
{
    read.map_err(|_| SourceFault::ReadFailed)
}
