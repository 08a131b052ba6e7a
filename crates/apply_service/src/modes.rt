//! What each mode does.
ghost use Rattle.std.specs.Prelude.{◌≡◌, ℕ, ◌<◌, ◌≤◌, ◌^◌, length};
ghost use Rattle.apply_io.specs.Files.{KeepsFiles};
ghost use Rattle.apply_io.specs.Reads.{EndsInOneRead};
ghost use Rattle.apply_grammar.specs.Frames.{line_limit};
ghost use Rattle.line_stream.specs.Buffers.{nothing_kept};
ghost use Rattle.apply_service.specs.Runs.{FolderSeen, SourceSeen, SinkSeen, StepsSeen};
ghost use Rattle.apply_service.specs.Outcomes.{ServeSays, CheckSays, GenSays, read_limit};
ghost use Rattle.apply_service.specs.Parts.{InputSays, SamplesSay, StopSays, ToldSays};

use crate::samples::answer_samples;
use crate::status::Status;
use crate::stream::{Stop, answer_stream};
use apply_grammar::LINE_MAX;
use apply_io::{Folder, Sink, Source};
use apply_load::{FileNames, LoadStop, check, load, load_generated};
use apply_meaning::Steps;
use apply_replies::Replies;
use apply_store::Store;
use line_stream::{LineBuffer, write_output, write_whole};
use par_stages::Gate;
use std::alloc::Global;
use std::sync::ledger::Ledger;
use std::thread::Threads;

/// How many bytes a read offers.
const BUFFER: usize = 4096;

/// Writes the line of a file that is refused, and says how that ended.
fn tell_stop<K: Sink>(stop: &LoadStop, output: &mut K) -> Status
    ensures later_out { K.fault_count output.old ≤ K.fault_count output.new }
    ensures says { StopSays
        (record { held = K.held output.old; held_after = K.held output.new; faults = K.fault_count output.old; faults_after = K.fault_count output.new })
        (output.new ≡ output.old) stop.now result }
{
    match stop {
        LoadStop::Fault => Status::ReadFault,
        LoadStop::Memory => Status::Memory,
        LoadStop::Model(line) => match write_output(output, line) {
            Ok(()) => Status::ModelRefused,
            Err(_) => Status::WriteFault,
        },
        LoadStop::Data(line) => match write_whole(output, line.as_slice()) {
            Ok(()) => Status::DataRefused,
            Err(_) => Status::WriteFault,
        },
    }
}

/// Answers the lines of the input, at most `limit` bytes, and says how that ended.
fn serve_input<R: Threads + Sync, G: Gate, L: Ledger, S: Source, K: Sink>(
    replies: &Replies<'_, R, G>,
    steps: &mut Steps<L>,
    limit: u64,
    buffer: &mut [u8],
    line: &mut LineBuffer,
    input: &mut S,
    output: &mut K,
) -> Status
    requires room { length buffer.old ≡ read_limit }
    requires limit { line.old.limit ≡ line_limit }
    requires empty { line.old ≡ nothing_kept line.old.limit }
    ensures later_in { S.fault_count input.old ≤ S.fault_count input.new }
    ensures later_out { K.fault_count output.old ≤ K.fault_count output.new }
    ensures says { InputSays replies.now.is_optimised replies.now.store.now
        (record { left = S.left input.old; left_after = S.left input.new; faults = S.fault_count input.old; faults_after = S.fault_count input.new; ends_in_one_read = EndsInOneRead S.left S.reads_once input.old input.new })
        (record { held = K.held output.old; held_after = K.held output.new; faults = K.fault_count output.old; faults_after = K.fault_count output.new })
        (record { count = steps.old; count_after = steps.new })
        limit result }
{
    match answer_stream(replies, steps, limit, buffer, line, input, output) {
        Ok(()) => Status::Served,
        Err(Stop::Read) => Status::ReadFault,
        Err(Stop::Write) => Status::WriteFault,
        Err(Stop::Limit) => Status::InputLimit,
    }
}

/// Answers the lines of the input over two files, at most `limit` bytes, by plans or by the pipelines as they were written.
pub(crate) fn serve_files<R: Threads + Sync, F: Folder, S: Source, K: Sink, G: Gate, L: Ledger>(
    rt: &R,
    alloc: Global,
    names: FileNames<'_>,
    is_optimised: bool,
    workers: u32,
    limit: u64,
    folder: &mut F,
    input: &mut S,
    output: &mut K,
    gate: &G,
    steps: &mut Steps<L>,
) -> Status
    ensures keeps { KeepsFiles (F.files folder.old) (F.files folder.new) }
    ensures steady_still { F.is_steady folder.old → F.is_steady folder.new }
    ensures later_folder { F.fault_count folder.old ≤ F.fault_count folder.new }
    ensures later_in { S.fault_count input.old ≤ S.fault_count input.new }
    ensures later_out { K.fault_count output.old ≤ K.fault_count output.new }
    ensures says { ServeSays is_optimised
        (record { files = F.files folder.old; faults = F.fault_count folder.old; faults_after = F.fault_count folder.new })
        (record { left = S.left input.old; left_after = S.left input.new; faults = S.fault_count input.old; faults_after = S.fault_count input.new; ends_in_one_read = EndsInOneRead S.left S.reads_once input.old input.new })
        (record { held = K.held output.old; held_after = K.held output.new; faults = K.fault_count output.old; faults_after = K.fault_count output.new })
        (record { count = steps.old; count_after = steps.new })
        (record { model = names.entry.model.now; entities = names.entry.entities.now })
        limit (F.is_steady folder.old) (input.new ≡ input.old) (output.new ≡ output.old) result }
{
    let Ok(mut line) = LineBuffer::new(alloc, LINE_MAX) else {
        return Status::Memory;
    };
    let Ok(mut buffer) = vec![in alloc; 0u8; BUFFER] else {
        return Status::Memory;
    };
    let store = match load(alloc, folder, names, buffer.as_mut_slice()) {
        Ok(store) => store,
        Err(stop) => return tell_stop(&stop, output),
    };
    let replies = Replies::new(rt, alloc, &store, is_optimised, workers, gate);
    serve_input(
        &replies,
        steps,
        limit,
        buffer.as_mut_slice(),
        &mut line,
        input,
        output,
    )
}

/// Writes what is told of loaded data, and says how that ended.
fn tell_store<K: Sink>(alloc: Global, store: &Store, output: &mut K) -> Status
    ensures later_out { K.fault_count output.old ≤ K.fault_count output.new }
    ensures says { ToldSays store.now
        (record { held = K.held output.old; held_after = K.held output.new; faults = K.fault_count output.old; faults_after = K.fault_count output.new })
        (output.new ≡ output.old) result }
{
    let Ok(text) = check(alloc, store) else {
        return Status::Memory;
    };
    match write_whole(output, text.as_slice()) {
        Ok(()) => Status::Served,
        Err(_) => Status::WriteFault,
    }
}

/// Tells of two files whether they make a world, how many entities it has, and which hierarchies are cyclic.
pub(crate) fn check_files<F: Folder, K: Sink>(
    alloc: Global,
    names: FileNames<'_>,
    folder: &mut F,
    output: &mut K,
) -> Status
    ensures keeps { KeepsFiles (F.files folder.old) (F.files folder.new) }
    ensures steady_still { F.is_steady folder.old → F.is_steady folder.new }
    ensures later_folder { F.fault_count folder.old ≤ F.fault_count folder.new }
    ensures later_out { K.fault_count output.old ≤ K.fault_count output.new }
    ensures says { CheckSays
        (record { files = F.files folder.old; faults = F.fault_count folder.old; faults_after = F.fault_count folder.new })
        (record { held = K.held output.old; held_after = K.held output.new; faults = K.fault_count output.old; faults_after = K.fault_count output.new })
        (record { model = names.entry.model.now; entities = names.entry.entities.now })
        (F.is_steady folder.old) (output.new ≡ output.old) result }
{
    let Ok(mut buffer) = vec![in alloc; 0u8; BUFFER] else {
        return Status::Memory;
    };
    let store = match load(alloc, folder, names, buffer.as_mut_slice()) {
        Ok(store) => store,
        Err(stop) => return tell_stop(&stop, output),
    };
    tell_store(alloc, &store, output)
}

/// Answers the sample requests, and says how that ended.
fn serve_samples<R: Threads + Sync, G: Gate, L: Ledger, K: Sink>(
    replies: &Replies<'_, R, G>,
    steps: &mut Steps<L>,
    output: &mut K,
) -> Status
    ensures later_out { K.fault_count output.old ≤ K.fault_count output.new }
    ensures says { SamplesSay replies.now.is_optimised replies.now.store.now
        (record { held = K.held output.old; held_after = K.held output.new; faults = K.fault_count output.old; faults_after = K.fault_count output.new })
        (record { count = steps.old; count_after = steps.new })
        result }
{
    match answer_samples(replies, steps, output) {
        Ok(()) => Status::Served,
        Err(_) => Status::WriteFault,
    }
}

/// Answers the sample requests over the generated world of so many sales, by plans or by the pipelines as they were written.
pub(crate) fn answer_generated<R: Threads + Sync, K: Sink, G: Gate, L: Ledger>(
    rt: &R,
    alloc: Global,
    count: u32,
    is_optimised: bool,
    workers: u32,
    output: &mut K,
    gate: &G,
    steps: &mut Steps<L>,
) -> Status
    requires some { 1 ≤ count }
    requires few { count ≤ 200000 }
    ensures later_out { K.fault_count output.old ≤ K.fault_count output.new }
    ensures says { GenSays is_optimised
        (record { held = K.held output.old; held_after = K.held output.new; faults = K.fault_count output.old; faults_after = K.fault_count output.new })
        (record { count = steps.old; count_after = steps.new })
        count (output.new ≡ output.old) result }
{
    let Ok(store) = load_generated(alloc, count) else {
        return Status::Memory;
    };
    let replies = Replies::new(rt, alloc, &store, is_optimised, workers, gate);
    serve_samples(&replies, steps, output)
}
