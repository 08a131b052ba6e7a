//! The top call: from the words to the status.
ghost use Rattle.std.specs.Prelude.{◌≡◌, ◌≤◌};
ghost use Rattle.apply_io.specs.Files.{KeepsFiles};
ghost use Rattle.apply_io.specs.Reads.{EndsInOneRead};
ghost use Rattle.serve_options.specs.Command.{texts_of};
ghost use Rattle.apply_service.specs.Runs.{Run, FolderSeen, SourceSeen, SinkSeen, StepsSeen};
ghost use Rattle.apply_service.specs.Service.{Says};

use crate::modes::{answer_generated, check_files, serve_files};
use crate::status::Status;
use apply_io::{Folder, Sink, Source};
use apply_load::FileNames;
use apply_meaning::Steps;
use par_stages::Gate;
use serve_options::{Mode, OptionsRefused, read_options};
use std::alloc::Global;
use std::sync::ledger::Ledger;
use std::thread::Threads;

/// Does what the words ask for, and says how it ended.
///
/// In mode serve the two files are loaded and judged, the model file first, then its custom aggregates, then the data file;
/// then the input is read and its lines are answered one by one, each as soon as it is read. In mode check the files are
/// loaded, and what is told of them is written; the input is not read. In mode gen neither files nor input are read, and the
/// sample requests are answered over a generated world. A refused file writes its one line to the output. The gate is told
/// of each piece of a fold that begins.
#[tactic(auto, using(crate::proofs::Folders::folders))]
pub fn serve<R: Threads + Sync, F: Folder, S: Source, K: Sink, G: Gate, L: Ledger>(
    rt: &R,
    alloc: Global,
    words: &[String],
    folder: &mut F,
    input: &mut S,
    output: &mut K,
    gate: &G,
    steps: &mut Steps<L>,
) -> Status
    ensures keeps { KeepsFiles (F.files folder.old) (F.files folder.new) }
    ensures steady_still { F.is_steady folder.old → F.is_steady folder.new }
    ensures later_folder { F.fault_count folder.old ≤ F.fault_count folder.new }
    ensures later_in { S.fault_count input.old ≤ S.fault_count input.new }
    ensures later_out { K.fault_count output.old ≤ K.fault_count output.new }
    ensures says { Says (record {
      words = texts_of words.now;
      folder = record { files = F.files folder.old; faults = F.fault_count folder.old; faults_after = F.fault_count folder.new };
      input = record { left = S.left input.old; left_after = S.left input.new; faults = S.fault_count input.old; faults_after = S.fault_count input.new; ends_in_one_read = EndsInOneRead S.left S.reads_once input.old input.new };
      output = record { held = K.held output.old; held_after = K.held output.new; faults = K.fault_count output.old; faults_after = K.fault_count output.new };
      steps = record { count = steps.old; count_after = steps.new };
      status = result;
    }) (F.is_steady folder.old) (folder.new ≡ folder.old) (input.new ≡ input.old) (output.new ≡ output.old) }
{
    let options = match read_options(alloc, words) {
        Ok(options) => options,
        Err(OptionsRefused::Usage) => return Status::Usage,
        Err(OptionsRefused::Memory) => return Status::Memory,
    };
    match &options.mode {
        Mode::Serve(files) => {
            let names = FileNames {
                model: files.model.as_str(),
                entities: files.entities.as_str(),
            };
            serve_files(
                rt,
                alloc,
                names,
                options.is_optimised,
                options.workers,
                options.max_bytes,
                folder,
                input,
                output,
                gate,
                steps,
            )
        }
        Mode::Check(files) => {
            let names = FileNames {
                model: files.model.as_str(),
                entities: files.entities.as_str(),
            };
            check_files(alloc, names, folder, output)
        }
        Mode::Gen(count) => answer_generated(
            rt,
            alloc,
            *count,
            options.is_optimised,
            options.workers,
            output,
            gate,
            steps,
        ),
    }
}
