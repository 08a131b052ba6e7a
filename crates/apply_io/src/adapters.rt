//! The trusted edge: objects over standard input, standard output and the files of the disk. A file, a terminal or a pipe
//! tells no content. What a signal interrupts is done again, so that it is no fault.
ghost use Rattle.std.specs.Prelude.{◌≡◌, ◌≢◌, ◌↔◌, ℕ, ◌+◌, ◌-◌, ◌^◌, ◌<◌, List, None, length, min, Ok, Err, IfErr, IfOk, IfSome, IsSome, IsSomeAnd, IsOk, IsTrue, MatchResult, option_map};
ghost use Rattle.std.specs.Io.{ReadsAtMost, WritesAtMost};
ghost use Rattle.std.specs.Io.KnownBytes.{Keeps, ReadConsumes, WriteAppends};
ghost use Rattle.std.specs.IoError.{error_kind};
ghost use Rattle.apply_io.specs.Causes.{HasCause, next_count, CountsFault};
ghost use Rattle.apply_io.specs.Files.{KeepsFiles, ReadsFile, told_content};
ghost use Rattle.apply_io.specs.Adapters.{PassesOn, kept_name};

use super::{Failed, Folder, Sink, Source};
use arrayvec::ArrayString;
use std::io::{ErrorKind, Read, Seek, SeekFrom, Write};
use std::rt::Files as HostFiles;
use std::{fs, io};

/// Whether a signal interrupted the call.
fn is_interrupted(error: &io::Error) -> bool
    ensures { IsTrue result ↔ (error_kind error.now ≡ ErrorKind.Interrupted) }
{
    error.kind() == ErrorKind::Interrupted
}

/// Reads. A read that a signal interrupts is done again, up to 2^64 - 1 times.
fn read_again<R: Read>(reader: &mut R, buf: &mut [u8]) -> io::Result<usize>
    ensures bound { ReadsAtMost result buf.new }
    ensures bytes { ReadConsumes (R.remaining reader.old) (R.remaining reader.new) result buf.new }
    ensures again { IfErr result (λ e. error_kind e ≢ ErrorKind.Interrupted) }
{
    'tries: for _ in 0..u64::MAX {
        match reader.read(buf) {
            Err(e) if is_interrupted(&e) => {}
            done => return done,
        }
    }
    Err(io::Error::from(ErrorKind::TimedOut))
}

/// Writes. A write that a signal interrupts is done again, up to 2^64 - 1 times.
fn write_again<W: Write>(writer: &mut W, piece: &[u8]) -> io::Result<usize>
    ensures bound { WritesAtMost result piece.now }
    ensures bytes { WriteAppends (W.contents writer.old) (W.contents writer.new) result piece.now }
    ensures again { IfErr result (λ e. error_kind e ≢ ErrorKind.Interrupted) }
{
    'tries: for _ in 0..u64::MAX {
        match writer.write(piece) {
            Err(e) if is_interrupted(&e) => {}
            done => return done,
        }
    }
    Err(io::Error::from(ErrorKind::TimedOut))
}

/// Flushes. A flush that a signal interrupts is done again, up to 2^64 - 1 times.
fn flush_again<W: Write>(writer: &mut W) -> io::Result<()>
    ensures bytes { Keeps (W.contents writer.old) (W.contents writer.new) }
    ensures again { IfErr result (λ e. error_kind e ≢ ErrorKind.Interrupted) }
{
    'tries: for _ in 0..u64::MAX {
        match writer.flush() {
            Err(e) if is_interrupted(&e) => {}
            done => return done,
        }
    }
    Err(io::Error::from(ErrorKind::TimedOut))
}

/// A source over a reader, as standard input. It counts its reads, and its faults: each error is one, want of memory below it
/// included.
#[derive(Drop)]
pub struct StdSource<R: Read + Drop> {
    inner: R,
    reads: u64,
    faults: u64,
}

impl<R: Read + Drop> StdSource<R> {
    /// No call has failed yet.
    pub fn new(inner: R) -> StdSource<R>
        ensures inner { result.inner ≡ inner }
        ensures faults { result.faults ≡ 0 }
    {
        StdSource {
            inner,
            reads: 0,
            faults: 0,
        }
    }
}

impl<R: Read + Drop> Source for StdSource<R> {
    ghost left = { λ s. R.remaining s.inner };

    ghost fault_count = { λ s. s.faults };

    ghost reads_once = { λ s t. t.reads ≡ next_count s.reads };

    fn faults(&self) -> u64 {
        self.faults
    }

    fn read(&mut self, buf: &mut [u8]) -> Result<usize, Failed>
        ensures bound { ReadsAtMost result buf.new }
        ensures bytes { ReadConsumes (R.remaining self.old.inner) (R.remaining self.new.inner) result buf.new }
        ensures once { 0 < length buf.old → self.new.reads ≡ next_count self.old.reads }
        ensures cause { HasCause self.old.faults self.new.faults result }
        ensures faults { CountsFault self.old.faults self.new.faults result }
        ensures no_room { length buf.old ≡ 0 → (result ≡ Ok 0) × (self.new.faults ≡ self.old.faults) }
    {
        if buf.is_empty() {
            return Ok(0);
        }
        self.reads = self.reads.saturating_add(1);
        match read_again(&mut self.inner, buf) {
            Ok(count) => Ok(count),
            Err(_) => {
                self.faults = self.faults.saturating_add(1);
                Err(Failed)
            }
        }
    }
}

/// A sink over a writer, as standard output, which is flushed in each write. It raises its count at each error, and where
/// the writer takes nothing.
#[derive(Drop)]
pub struct StdSink<W: Write + Drop> {
    inner: W,
    faults: u64,
}

impl<W: Write + Drop> StdSink<W> {
    /// No call has failed yet.
    pub fn new(inner: W) -> StdSink<W>
        ensures inner { result.inner ≡ inner }
        ensures faults { result.faults ≡ 0 }
    {
        StdSink { inner, faults: 0 }
    }
}

impl<W: Write + Drop> Sink for StdSink<W> {
    ghost held = { λ _. None };

    ghost fault_count = { λ s. s.faults };

    fn faults(&self) -> u64 {
        self.faults
    }

    #[tactic(auto, using(crate::proofs::Passing::passing))]
    fn write(&mut self, piece: &[u8]) -> Result<usize, Failed>
        ensures bound { WritesAtMost result piece.now }
        ensures some { IfOk result (λ n. 0 < length piece.now → 0 < n) }
        ensures bytes { WriteAppends None None result piece.now }
        ensures passed { PassesOn (W.contents self.old.inner) (W.contents self.new.inner) result piece.now }
        ensures cause { HasCause self.old.faults self.new.faults result }
        ensures faults { CountsFault self.old.faults self.new.faults result }
        ensures no_piece { length piece.now ≡ 0 → (result ≡ Ok 0) × (self.new ≡ self.old) }
    {
        if piece.is_empty() {
            return Ok(0);
        }
        match write_through(&mut self.inner, piece) {
            Ok(0) | Err(_) => {
                self.faults = self.faults.saturating_add(1);
                Err(Failed)
            }
            Ok(count) => Ok(count),
        }
    }
}

/// Writes and flushes. Where the flush fails, the bytes that the writer took before stay with it.
#[tactic(auto, using(crate::proofs::Passing::passing))]
fn write_through<W: Write>(writer: &mut W, piece: &[u8]) -> io::Result<usize>
    ensures bound { WritesAtMost result piece.now }
    ensures bytes { PassesOn (W.contents writer.old) (W.contents writer.new) result piece.now }
{
    let count = write_again(writer, piece)?;
    flush_again(writer)?;
    Ok(count)
}

/// The most bytes of a name that a folder keeps. Systems open no name that is longer.
const NAME_LIMIT: usize = 4096;

/// The name of a file.
type FileName = ArrayString<NAME_LIMIT>;

/// An open file with its name, and the place where its last read ended.
#[derive(Drop)]
struct OpenFile<F: Read + Seek + Drop> {
    name: FileName,
    file: F,
    at: u64,
}

impl<F: Read + Seek + Drop> OpenFile<F> {
    /// Reads the bytes from a place on. It seeks only where the last read did not end there.
    fn read(&mut self, at: u64, buf: &mut [u8]) -> io::Result<usize>
        ensures bound { ReadsAtMost result buf.new }
        ensures name { self.new.name ≡ self.old.name }
        ensures place { IfOk result (λ n. self.new.at ≡ min (at + n) (2 ^ 64 - 1)) }
        ensures onward { self.old.at ≡ at →
            ReadConsumes (F.remaining self.old.file) (F.remaining self.new.file) result buf.new }
    {
        if at != self.at {
            self.file.seek(SeekFrom::Start(at))?;
        }
        let count = read_again(&mut self.file, buf)?;
        self.at = at.saturating_add(count as u64);
        Ok(count)
    }
}

/// Opens a file; the place is its front.
fn open_file<R: HostFiles>(rt: &R, name: &str) -> io::Result<OpenFile<R::File>>
    ensures name { IfOk result (λ o. o.name.bytes ≡ name.now) }
    ensures place { IfOk result (λ o. o.at ≡ 0) }
{
    let Ok(kept) = FileName::from(name) else {
        return Err(io::Error::from(io::ErrorKind::InvalidFilename));
    };
    Ok(OpenFile {
        name: kept,
        file: fs::open(rt, name)?,
        at: 0,
    })
}

/// A folder over the files of the disk. A name is a path as the command line gives it, taken from the folder in which the
/// program was started. The file that was read last stays open, and reads of its name go on in it, so what they give is
/// of one version, whatever takes the name meanwhile. A pipe can be read from its front to its end. The folder raises its
/// count at each error, a missing file's included; the file is then closed.
#[derive(Drop)]
pub struct DiskFolder<'a, R: HostFiles> {
    rt: &'a R,
    current: Option<OpenFile<R::File>>,
    failed: Option<FileName>,
    faults: u64,
}

impl<'a, R: HostFiles> DiskFolder<'a, R> {
    /// No file is open, and no call has failed yet.
    pub fn new(rt: &'a R) -> DiskFolder<'a, R>
        ensures value { result.faults ≡ 0 }
    {
        DiskFolder {
            rt,
            current: None,
            failed: None,
            faults: 0,
        }
    }

    /// The name of the last read that failed, where it has at most 4,096 bytes.
    pub fn failed_name(&self) -> Option<&str>
        ensures value { option_map (λ n. n.now) result ≡ option_map (λ n. n.bytes) self.now.failed }
    {
        match &self.failed {
            Some(name) => Some(name.as_str()),
            None => None,
        }
    }

    /// Reads from the open file, if it has the name, or else from the file that is then opened.
    fn read_file(&mut self, name: &str, at: u64, buf: &mut [u8]) -> io::Result<usize>
        ensures bound { ReadsAtMost result buf.new }
        ensures faults { self.new.faults ≡ self.old.faults }
        ensures failed { self.new.failed ≡ self.old.failed }
        ensures onward { IfSome self.old.current (λ o. o.name.bytes ≡ name.now → o.at ≡ at → IfOk result (λ _.
            IfSome self.new.current (λ p. ReadConsumes (R.File.remaining o.file) (R.File.remaining p.file) result buf.new))) }
        ensures place { IfOk result (λ n. IsSomeAnd self.new.current (λ p.
            (p.name.bytes ≡ name.now) × (p.at ≡ min (at + n) (2 ^ 64 - 1)))) }
    {
        let mut file = match self.current.take() {
            Some(file) if file.name.as_str() == name => file,
            _ => open_file(self.rt, name)?,
        };
        let count = file.read(at, buf)?;
        self.current = Some(file);
        Ok(count)
    }
}

impl<R: HostFiles> Folder for DiskFolder<'_, R> {
    ghost files = { λ _. None };

    ghost is_steady = { λ _. ⊥ };

    ghost fault_count = { λ s. s.faults };

    fn faults(&self) -> u64 {
        self.faults
    }

    fn read(&mut self, name: &str, at: u64, buf: &mut [u8]) -> Result<usize, Failed>
        ensures bound { ReadsAtMost result buf.new }
        ensures bytes { ReadsFile None name.now at result buf.new }
        ensures keeps { KeepsFiles None None }
        ensures steady { ⊥ → ⊥ × (IsSome (told_content None name.now) → IsOk result) }
        ensures cause { HasCause self.old.faults self.new.faults result }
        ensures faults { CountsFault self.old.faults self.new.faults result }
        ensures failed { MatchResult result (λ _. self.new.failed ≡ self.old.failed)
            (λ _. option_map (λ n. n.bytes) self.new.failed ≡ kept_name name.now) }
        ensures onward { 0 < length buf.old → IfSome self.old.current (λ o. o.name.bytes ≡ name.now → o.at ≡ at → IfOk result (λ _.
            IfSome self.new.current (λ p. ReadConsumes (R.File.remaining o.file) (R.File.remaining p.file) result buf.new))) }
        ensures place { 0 < length buf.old → IfOk result (λ n. IsSomeAnd self.new.current (λ p.
            (p.name.bytes ≡ name.now) × (p.at ≡ min (at + n) (2 ^ 64 - 1)))) }
        ensures no_room { length buf.old ≡ 0 → (result ≡ Ok 0) × (self.new.faults ≡ self.old.faults) }
    {
        if buf.is_empty() {
            return Ok(0);
        }
        match self.read_file(name, at, buf) {
            Ok(count) => Ok(count),
            Err(_) => {
                self.failed = FileName::from(name).ok();
                self.faults = self.faults.saturating_add(1);
                Err(Failed)
            }
        }
    }

    ghost steady_tells = { λ _ h. absurd h };
}
