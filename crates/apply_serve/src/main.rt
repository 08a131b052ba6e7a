//! The program: it serves over the real files, standard input and standard output.
//!
//! `main` takes the room of the stack, makes the real objects, calls [`apply_service::serve`] with the words after the
//! program's name, tells on standard error what was wrong where something was, and ends with the number of the status. It
//! stands on `apply_service` for the service, on `run_messages` for what standard error is told, and on `apply_io` for the
//! objects.
//!
//! It promises that `run`, which makes the counter of steps, says of a run what `serve` says, and that the number that the
//! program ends with is that of the status.
#![tactic(auto)]

ghost use Rattle.std.specs.Prelude.{◌≡◌, ℕ, ◌<◌};
ghost use Rattle.apply_io.specs.Reads.{EndsInOneRead};
ghost use Rattle.serve_options.specs.Command.{texts_of};
ghost use Rattle.apply_service.specs.ExitCodes.{exit_code};
ghost use Rattle.apply_service.specs.Runs.{Run, FolderSeen, SourceSeen, SinkSeen, StepsSeen};
ghost use Rattle.apply_service.specs.Service.{Says};

use apply_io::{DiskFolder, Folder, MemFolder, Sink, Source, StdSink, StdSource};
use apply_meaning::Steps;
use apply_service::{Status, serve};
use par_stages::NoGate;
use run_messages::run_message;
use serve_options::{Mode, read_options};
use std::alloc::{AllocError, Global};
use std::env::Env;
use std::marker::Brand;
use std::process::ExitCode;
use std::rt::Files as HostFiles;
use std::sync::ledger::{Blank, Ledger};
use std::thread::Threads;
use std::{env, fs, io};

/// How many bytes of the stack a run may take. `bench/stack` measures what the deepest lines take of it.
const STACK_ROOM: usize = 1_048_576;

/// How many bytes of it each call of `take_stack_room` writes to.
const STACK_PAGE: usize = 4096;

/// Whether the bytes are all the same.
fn is_filled(bytes: &[u8], mark: u8) -> bool {
    bytes.iter().all(|byte| *byte == mark)
}

/// Whether there is memory for the room of the stack. It is given back, so that the stack can have it.
fn has_stack_room(alloc: Global, mark: u8) -> bool {
    match Vec::from_elem(alloc, mark, STACK_ROOM) {
        Ok(room) => is_filled(room.as_slice(), mark),
        Err(_) => false,
    }
}

/// Writes to one more page of the stack than these, each in a call of its own, so that they are the program's from then on,
/// whatever the heap takes.
#[inline(never)]
fn take_stack_room(pages: usize, mark: u8) -> bool {
    let page = [mark; STACK_PAGE];
    (pages == 0 || take_stack_room(pages - 1, mark)) && is_filled(page.as_slice(), mark)
}

/// How a run of the service ended, and the number that tells it.
#[derive(Clone, Copy, Debug)]
struct Ended {
    status: Status,
    number: u8,
}

/// Serves with a new counter of steps.
fn run<R: Threads + Sync, F: Folder, S: Source, K: Sink, L: Ledger>(
    rt: &R,
    alloc: Global,
    words: &[String],
    folder: &mut F,
    input: &mut S,
    output: &mut K,
    blank: Blank,
) -> Ended
    requires name { blank.name ≡ L.name }
    requires parts { blank.parts ≡ L.parts }
    requires some { 0 < blank.parts }
    ensures number { result.number ≡ exit_code result.status }
    ensures says { (counted : ℕ) × Says (record {
      words = texts_of words.now;
      folder = record { files = F.files folder.old; faults = F.fault_count folder.old; faults_after = F.fault_count folder.new };
      input = record { left = S.left input.old; left_after = S.left input.new; faults = S.fault_count input.old; faults_after = S.fault_count input.new; ends_in_one_read = EndsInOneRead S.left S.reads_once input.old input.new };
      output = record { held = K.held output.old; held_after = K.held output.new; faults = K.fault_count output.old; faults_after = K.fault_count output.new };
      steps = record { count = 0; count_after = counted };
      status = result.status;
    }) (F.is_steady folder.old) (folder.new ≡ folder.old) (input.new ≡ input.old) (output.new ≡ output.old) }
{
    let mut steps = Steps::<L>::new(blank);
    let status = serve(rt, alloc, words, folder, input, output, &NoGate, &mut steps);
    Ended {
        status,
        number: status.number(),
    }
}

/// Tells on standard error how a run ended, where it did not end well.
fn tell<R: Eprint>(rt: &R, message: Result<String, AllocError>) -> io::Result<()> {
    match message {
        Ok(text) if text.is_empty() => Ok(()),
        Ok(text) => eprintln!(rt; "{text}"),
        Err(_) => eprintln!(rt; "apply_serve: out of memory"),
    }
}

/// Why the words were not read: how the program ends, and what standard error is told.
#[derive(Clone, Copy)]
struct Unread {
    status: Status,
    words: &'static str,
}

/// The words behind the program's name; or why they were not read.
fn words_of<R: Env + Alloc<A = Global>>(rt: &R) -> Result<Vec<String>, Unread> {
    let out_of_memory = Unread {
        status: Status::Memory,
        words: "out of memory",
    };
    let args = match env::args(rt) {
        Ok(args) => args,
        Err(e) => match e.kind() {
            io::ErrorKind::InvalidData => {
                return Err(Unread {
                    status: Status::Usage,
                    words: "a word is no UTF-8 text",
                });
            }
            _ => return Err(out_of_memory),
        },
    };
    match args.skip(1).collect(rt.alloc()) {
        Ok(words) => Ok(words),
        Err(_) => Err(out_of_memory),
    }
}

/// Whether a name is that of a regular file. A pipe or a device gives what it has once, and may be waited for.
fn is_regular<R: HostFiles>(rt: &R, name: &str) -> bool {
    match fs::metadata(rt, name) {
        Ok(found) => found.is_file(),
        Err(_) => false,
    }
}

/// Whether what a refusal is about can be read again: of a refused model file this file, of a refused data file both. For
/// any other status no file is looked at.
fn can_read_again<R: HostFiles>(rt: &R, alloc: Global, status: Status, words: &[String]) -> bool {
    if !matches!(status, Status::ModelRefused | Status::DataRefused) {
        return false;
    }
    let Ok(options) = read_options(alloc, words) else {
        return false;
    };
    match &options.mode {
        Mode::Serve(files) | Mode::Check(files) => {
            is_regular(rt, files.model.as_str())
                && (status == Status::ModelRefused || is_regular(rt, files.entities.as_str()))
        }
        Mode::Gen(_) => false,
    }
}

/// What standard error is told of a run.
fn message_of<R: HostFiles>(
    rt: &R,
    alloc: Global,
    status: Status,
    words: &[String],
    failed_name: Option<&str>,
    is_input_failed: bool,
) -> Result<String, AllocError> {
    if can_read_again(rt, alloc, status, words) {
        let mut anew = DiskFolder::new(rt);
        return run_message(
            alloc,
            status,
            words,
            Some(&mut anew),
            failed_name,
            is_input_failed,
        );
    }
    let none: Option<&mut MemFolder> = None;
    run_message(alloc, status, words, none, failed_name, is_input_failed)
}

/// Serves over the real objects, and tells on standard error what was wrong. The room of the stack is taken first, since the
/// stack could not grow once the heap has all memory that a limit leaves.
fn main(rt: HostRuntime) -> ExitCode {
    let alloc = rt.alloc();
    if !has_stack_room(alloc, 1) || !take_stack_room(STACK_ROOM / STACK_PAGE, 1) {
        let _ = eprintln!(&rt; "apply_serve: out of memory");
        return ExitCode::from(Status::Memory.number());
    }
    let words = match words_of(&rt) {
        Ok(words) => words,
        Err(unread) => {
            let _ = eprintln!(&rt; "apply_serve: {}", unread.words);
            return ExitCode::from(unread.status.number());
        }
    };
    let mut folder = DiskFolder::new(&rt);
    let mut input = StdSource::new(rt.reader());
    let mut output = StdSink::new(io::writer(&rt));
    let ended = run::<_, _, _, _, Brand>(
        &rt,
        alloc,
        words.as_slice(),
        &mut folder,
        &mut input,
        &mut output,
        Blank::new(1),
    );
    let message = message_of(
        &rt,
        alloc,
        ended.status,
        words.as_slice(),
        folder.failed_name(),
        input.faults() > 0,
    );
    let _ = tell(&rt, message);
    ExitCode::from(ended.number)
}
