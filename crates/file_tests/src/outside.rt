//! Sources, sinks and folders: that calls succeed where memory is ample, and what the objects over std do.
use apply_io::{
    DiskFolder, Failed, Folder, MemFolder, MemSink, MemSource, Sink, Source, StdSink, StdSource,
};
use std::alloc::{AllocError, Global};
use std::io::{PipeWriter, Read, Write};
use std::os::fd::AsRawFd;
use std::process::Abort;
use std::test::Fail;
use std::{fs, io};

/// A reader and a writer outside of the program. It gives a byte in a call, and takes two at most, which it keeps; it counts its
/// flushes. So many times before each of its calls a signal interrupts it, and where it is broken, its reads and flushes fail.
#[derive(Drop)]
struct Device {
    bytes: Vec<u8>,
    flushes: u64,
    interruptions: u32,
    waiting: u32,
    is_broken: bool,
}

impl Device {
    fn new(alloc: Global, interruptions: u32, is_broken: bool) -> Device {
        Device {
            bytes: Vec::new(alloc),
            flushes: 0,
            interruptions,
            waiting: interruptions,
            is_broken,
        }
    }

    /// Passes where no signal interrupts the call.
    fn pass(&mut self) -> io::Result<()> {
        if self.waiting > 0 {
            self.waiting -= 1;
            return Err(io::Error::from(io::ErrorKind::Interrupted));
        }
        self.waiting = self.interruptions;
        Ok(())
    }

    /// Fails where the device is broken.
    fn work(&self) -> io::Result<()> {
        if self.is_broken {
            return Err(io::Error::from(io::ErrorKind::BrokenPipe));
        }
        Ok(())
    }
}

impl Read for Device {
    fn read(&mut self, buf: &mut [u8]) -> io::Result<usize> {
        self.pass()?;
        self.work()?;
        Ok(buf.len().min(1))
    }
}

impl Write for Device {
    fn write(&mut self, piece: &[u8]) -> io::Result<usize> {
        self.pass()?;
        let count = piece.len().min(2);
        self.bytes.extend_from_slice(&piece[..count])?;
        Ok(count)
    }

    fn flush(&mut self) -> io::Result<()> {
        self.pass()?;
        self.flushes = self.flushes.saturating_add(1);
        self.work()
    }
}

/// The bytes that a read gives, or nothing where it fails, and the count of faults behind it.
type Found<'a> = (Option<&'a [u8]>, u64);

/// Compares what a read gives; its number says which read it is.
fn expect_found(rt: &impl Abort, found: Found<'_>, expected: Found<'_>, of: &str, number: u64) {
    assert_eq!(rt; found, expected, "{of} {number}");
}

/// A read with room for so many bytes, and what it gives.
type SourceRow = (usize, Found<'static>);

/// What a source gives.
fn given<'a>(source: &mut impl Source, buf: &'a mut [u8]) -> Option<&'a [u8]> {
    let count = source.read(buf).ok()?;
    buf.get(..count)
}

/// Reads a source as the row says.
fn expect_given(rt: &impl Abort, source: &mut impl Source, row: &SourceRow) {
    let mut buf = [0u8; 8];
    let room = row.0.min(8);
    let bytes = given(source, &mut buf[..room]);
    let found = (bytes, source.faults());
    expect_found(rt, found, row.1, "a read with room for", room as u64);
}

/// Reads a source row by row.
fn expect_reads(rt: &impl Abort, source: &mut impl Source, rows: &[SourceRow]) {
    for row in rows {
        expect_given(rt, source, row);
    }
}

/// A piece that is written, and how much of it is taken.
type SinkRow = (&'static [u8], Taken);

/// How many bytes of a piece are taken, or nothing where the write fails, and the count of faults behind it.
type Taken = (Option<usize>, u64);

/// Compares how much of a piece is taken.
fn expect_taken(rt: &impl Abort, piece: &[u8], found: Taken, expected: Taken) {
    assert_eq!(rt; found, expected, "writing {piece:?}");
}

/// Writes to a sink as the row says.
fn expect_write(rt: &impl Abort, sink: &mut impl Sink, row: &SinkRow) {
    let (piece, expected) = *row;
    let taken = sink.write(piece).ok();
    expect_taken(rt, piece, (taken, sink.faults()), expected);
}

/// Writes to a sink row by row.
fn expect_writes(rt: &impl Abort, sink: &mut impl Sink, rows: &[SinkRow]) {
    for row in rows {
        expect_write(rt, sink, row);
    }
}

/// A read of a file from a place, with room for so many bytes, and what it gives.
type FileRow = (u64, usize, Found<'static>);

/// What a file of a folder gives from a place on.
fn given_from<'a>(
    folder: &mut impl Folder,
    name: &str,
    at: u64,
    buf: &'a mut [u8],
) -> Option<&'a [u8]> {
    let count = folder.read(name, at, buf).ok()?;
    buf.get(..count)
}

/// Reads a file of a folder as the row says.
fn expect_read(rt: &impl Abort, folder: &mut impl Folder, name: &str, row: &FileRow) {
    let (at, room, expected) = *row;
    let mut buf = [0u8; 8];
    let bytes = given_from(folder, name, at, &mut buf[..room.min(8)]);
    let found = (bytes, folder.faults());
    expect_found(rt, found, expected, name, at);
}

/// Reads a file of a folder row by row.
fn expect_file(rt: &impl Abort, folder: &mut impl Folder, name: &str, rows: &[FileRow]) {
    for row in rows {
        expect_read(rt, folder, name, row);
    }
}

/// Five bytes, at most two in a call, where the second call fails.
const IN_MEMORY: &[SourceRow] = &[
    (4, (Some(b"ab"), 0)),
    (4, (None, 1)),
    (0, (Some(b""), 1)),
    (4, (Some(b"cd"), 1)),
    (4, (Some(b"e"), 1)),
    (4, (Some(b""), 1)),
];

const OVER_A_READER: &[SourceRow] = &[
    (2, (Some(b"ab"), 0)),
    (2, (Some(b"c"), 0)),
    (2, (Some(b""), 0)),
];

const OVER_A_BROKEN_READER: &[SourceRow] = &[(0, (Some(b""), 0)), (2, (None, 1)), (2, (None, 2))];

/// What a signal interrupts is done again, and is no fault.
const OVER_AN_INTERRUPTED_READER: &[SourceRow] = &[(2, (Some(b"\0"), 0)), (2, (Some(b"\0"), 0))];

/// A source in memory, whose second call fails.
fn source_in_memory(alloc: Global) -> Result<MemSource, AllocError> {
    let bytes = b"abcde".to_vec(alloc)?;
    Ok(MemSource::new(bytes, 2, vec![in alloc; 2u64]?))
}

/// Readers outside of the program: how often each call is interrupted, whether it is broken, and what is read.
const DEVICES: &[(u32, bool, &[SourceRow])] = &[
    (0, true, OVER_A_BROKEN_READER),
    (3, false, OVER_AN_INTERRUPTED_READER),
];

#[test]
fn sources_give_their_bytes_and_count_their_faults(rt: HostRuntime) -> Result<(), Fail> {
    expect_reads(&rt, &mut source_in_memory(rt.alloc())?, IN_MEMORY);
    expect_reads(&rt, &mut StdSource::new(b"abc".as_slice()), OVER_A_READER);
    for (interruptions, is_broken, rows) in DEVICES {
        let device = Device::new(rt.alloc(), *interruptions, *is_broken);
        expect_reads(&rt, &mut StdSource::new(device), rows);
    }
    Ok(())
}

/// Room for three bytes, at most two in a call, where the second call fails.
const WITH_ROOM: &[SinkRow] = &[
    (b"abcd", (Some(2), 0)),
    (b"cd", (None, 1)),
    (b"", (Some(0), 1)),
    (b"cd", (Some(1), 1)),
    (b"d", (None, 2)),
];

const OVER_A_SLICE: &[SinkRow] = &[(b"abcd", (Some(3), 0)), (b"d", (None, 1))];

const OVER_A_WRITER: &[SinkRow] = &[
    (b"abc", (Some(2), 0)),
    (b"", (Some(0), 0)),
    (b"c", (Some(1), 0)),
];

const OVER_A_BROKEN_WRITER: &[SinkRow] = &[(b"abc", (None, 1))];

/// A sink in memory, whose second call fails.
fn sink_in_memory(alloc: Global) -> Result<MemSink, AllocError> {
    MemSink::new(alloc, 3, 2, vec![in alloc; 2u64]?)
}

#[test]
fn sinks_take_what_they_have_room_for(rt: HostRuntime) -> Result<(), Fail> {
    let mut sink = sink_in_memory(rt.alloc())?;
    expect_writes(&rt, &mut sink, WITH_ROOM);
    assert_eq!(rt; sink.bytes(), b"abc".as_slice());
    let mut room = [0u8; 3];
    expect_writes(&rt, &mut StdSink::new(room.as_mut_slice()), OVER_A_SLICE);
    Ok(())
}

/// Writes to a device row by row, and finds what it then holds, and how often it was flushed.
fn expect_recorded(
    rt: &impl Abort,
    mut device: Device,
    rows: &[SinkRow],
    held: &[u8],
    flushes: u64,
) {
    expect_writes(rt, &mut StdSink::new(&mut device), rows);
    assert_eq!(rt; device.bytes.as_slice(), held);
    assert_eq!(rt; device.flushes, flushes);
}

/// How often each call of a writer is interrupted, whether it is broken, what is written, what it then holds, and how often it was
/// flushed.
const RECORDED: &[(u32, bool, &[SinkRow], &[u8], u64)] = &[
    (0, false, OVER_A_WRITER, b"abc", 2),
    (3, false, OVER_A_WRITER, b"abc", 2),
    (0, true, OVER_A_BROKEN_WRITER, b"ab", 1),
];

#[test]
fn a_sink_over_a_writer_passes_its_bytes_on_and_flushes_each_write(rt: HostRuntime) {
    for (interruptions, is_broken, rows, held, flushes) in RECORDED {
        let device = Device::new(rt.alloc(), *interruptions, *is_broken);
        expect_recorded(&rt, device, rows, held, *flushes);
    }
}

/// A file with its name.
fn named(alloc: Global, name: &str, content: &[u8]) -> Result<(String, Vec<u8>), AllocError> {
    let name = String::from_str(alloc, name)?;
    Ok((name, Vec::from_slice(alloc, content)?))
}

/// What the files of one name hold.
const TWICE_NAMED: &[&[u8]] = &[b"first", b"second"];

/// A folder in memory with files of one name, whose third read fails.
fn folder_in_memory(alloc: Global) -> Result<MemFolder, AllocError> {
    let mut files = Vec::new(alloc);
    for content in TWICE_NAMED {
        files.push(named(alloc, "a", content)?)?;
    }
    Ok(MemFolder::new(files, vec![in alloc; 3u64]?))
}

/// Reads of that folder by name: a file that is named twice is the first of them.
const FIRST_OF_A_NAME: &[(&str, FileRow)] = &[
    ("a", (3, 3, (Some(b"st"), 0))),
    ("b", (0, 4, (None, 1))),
    ("a", (0, 4, (None, 2))),
    ("a", (5, 3, (Some(b""), 2))),
];

#[test]
fn a_folder_in_memory_has_the_first_file_of_a_name(rt: HostRuntime) -> Result<(), Fail> {
    let mut folder = folder_in_memory(rt.alloc())?;
    for (name, row) in FIRST_OF_A_NAME {
        expect_read(&rt, &mut folder, name, row);
    }
    Ok(())
}

/// Reads of files that are not there by name, and the file that the folder then names; a read without room asks for nothing.
const FAILED_NAMES: &[(&str, FileRow, Option<&str>)] = &[
    ("outside-missing-test", (0, 0, (Some(b""), 0)), None),
    (
        "outside-missing-test",
        (0, 4, (None, 1)),
        Some("outside-missing-test"),
    ),
    ("/", (0, 4, (None, 2)), Some("/")),
];

/// Compares the name that a folder gives behind a read.
fn expect_name(rt: &impl Abort, found: Option<&str>, expected: Option<&str>, name: &str) {
    assert_eq!(rt; found, expected, "{name}");
}

#[test]
fn a_folder_on_disk_names_the_file_that_a_read_failed_of(rt: HostRuntime) {
    let mut folder = DiskFolder::new(&rt);
    for (name, row, failed) in FAILED_NAMES {
        expect_read(&rt, &mut folder, name, row);
        expect_name(&rt, folder.failed_name(), *failed, name);
    }
}

/// A file of seven bytes.
const CONTENT: &[FileRow] = &[
    (5, 4, (Some(b"nt"), 0)),
    (7, 4, (Some(b""), 0)),
    (0, 4, (Some(b"cont"), 0)),
];

#[test]
fn a_folder_on_disk_reads_its_files(rt: HostRuntime) -> Result<(), Fail> {
    let name = "outside-folder-test";
    fs::write(&rt, name, "content")?;
    expect_file(&rt, &mut DiskFolder::new(&rt), name, CONTENT);
    fs::remove_file(&rt, name)?;
    Ok(())
}

/// A file before and after another takes its place, in the folder that read it before and in a new one.
const BEFORE: &[FileRow] = &[(0, 8, (Some(b"first ve"), 0))];

const STILL_BEFORE: &[FileRow] = &[(8, 8, (Some(b"rsion"), 0)), (13, 8, (Some(b""), 0))];

const AFTER: &[FileRow] = &[(0, 8, (Some(b"SECOND V"), 0))];

#[test]
fn a_file_that_is_replaced_between_two_reads_gives_one_version(
    rt: HostRuntime,
) -> Result<(), Fail> {
    let name = "outside-replaced-test";
    let other = "outside-replacing-test";
    fs::write(&rt, name, "first version")?;
    fs::write(&rt, other, "SECOND VERSION, WHICH IS LONGER")?;
    let mut folder = DiskFolder::new(&rt);
    expect_file(&rt, &mut folder, name, BEFORE);
    let replaced = fs::rename(&rt, other, name);
    expect_file(&rt, &mut folder, name, STILL_BEFORE);
    drop(folder);
    replaced?;
    expect_file(&rt, &mut DiskFolder::new(&rt), name, AFTER);
    fs::remove_file(&rt, name)?;
    Ok(())
}

/// A pipe gives its bytes once, and fails where it is read from its front again.
const PIPE: &[FileRow] = &[
    (0, 4, (Some(b"cont"), 0)),
    (4, 4, (Some(b"ent"), 0)),
    (7, 4, (Some(b""), 0)),
    (0, 4, (None, 1)),
];

/// Writes seven bytes to a pipe, and closes it.
fn fill(mut writer: PipeWriter) -> io::Result<()> {
    writer.write_all(b"content")
}

#[test]
fn a_pipe_is_read_from_its_front_to_its_end(rt: HostRuntime) -> Result<(), Fail> {
    let (reader, writer) = io::pipe(&rt)?;
    fill(writer)?;
    let name = format!(in rt.alloc(); "/dev/fd/{}", reader.as_raw_fd())?;
    expect_file(&rt, &mut DiskFolder::new(&rt), name.as_str(), PIPE);
    Ok(())
}
