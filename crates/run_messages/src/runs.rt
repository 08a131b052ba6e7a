//! The line of a run.
ghost use Rattle.std.specs.Prelude.{◌≡◌, ◌<◌, ◌^◌, ◌++◌, [], IfOk, None, Some, codes, option_map, string_bytes};
ghost use Rattle.quoted_text.specs.Quoted.{IsPrintable};
ghost use Rattle.serve_options.specs.Command.{AsksHelp, settings_in, texts_of};
ghost use Rattle.serve_options.specs.Options.{Settings};
ghost use Rattle.serve_options.specs.Seen.{settings_seen};
ghost use Rattle.serve_options.specs.Usage.{IsUsageText};
ghost use Rattle.run_messages.specs.RunLines as spec;
ghost use Rattle.run_messages.specs.RunLines.{BeginsWith, IsLineThatBegins};

use crate::data_file::data_reason;
use crate::model_file::model_reason;
use apply_io::Folder;
use apply_load::{FileFault, FileNames, read_file};
use apply_service::Status;
use edm_data::DATA_LIMIT;
use edm_model::MODEL_LIMIT;
use quoted_text::{printable, quoted};
use serve_options::{Mode, Options, OptionsRefused, read_options, usage_text};
use std::alloc::{AllocError, Global};

/// How many bytes a read offers.
const BUFFER: usize = 4096;

/// Reads a file again; nothing where that fails.
fn read_again<F: Folder>(
    alloc: Global,
    folder: &mut F,
    name: &str,
    limit: usize,
) -> Result<Option<Vec<u8>>, AllocError>
    requires { limit < 2 ^ 32 }
{
    let mut buffer = vec![in alloc; 0u8; BUFFER]?;
    match read_file(alloc, folder, name, limit, buffer.as_mut_slice()) {
        Ok(bytes) => Ok(Some(bytes)),
        Err(FileFault::Fault) => Ok(None),
        Err(FileFault::Memory) => Err(AllocError),
    }
}

/// What is wrong with a model file, if that is found.
fn model_file_reason<F: Folder>(
    alloc: Global,
    folder: &mut F,
    names: FileNames<'_>,
) -> Result<Option<String>, AllocError> {
    match read_again(alloc, folder, names.model, MODEL_LIMIT)? {
        Some(bytes) => model_reason(alloc, bytes.as_slice()),
        None => Ok(None),
    }
}

/// What is wrong with a data file, if that is found.
fn data_file_reason<F: Folder>(
    alloc: Global,
    folder: &mut F,
    names: FileNames<'_>,
) -> Result<Option<String>, AllocError> {
    let Some(model) = read_again(alloc, folder, names.model, MODEL_LIMIT)? else {
        return Ok(None);
    };
    match read_again(alloc, folder, names.entities, DATA_LIMIT)? {
        Some(bytes) => data_reason(alloc, model.as_slice(), bytes.as_slice()),
        None => Ok(None),
    }
}

/// A file by its kind and its name.
fn called(alloc: Global, kind: &str, name: &str) -> Result<String, AllocError>
    ensures { IfOk result (λ t. string_bytes t ≡ spec.file_called kind.now name.now) }
{
    let name = quoted(alloc, name)?;
    format!(in alloc; "{kind} file {name}")
}

/// The line of a refused file. Where the reason is not found, or memory is wanting for it, it names the file alone.
fn refused_text(
    alloc: Global,
    kind: &str,
    name: &str,
    reason: Result<Option<String>, AllocError>,
) -> Result<String, AllocError>
    ensures { IfOk result (λ t. BeginsWith (spec.file_called kind.now name.now) (string_bytes t)) }
{
    let mut text = called(alloc, kind, name)?;
    match reason {
        Ok(Some(reason)) => {
            text.push_str(": ")?;
            text.push_str(reason.as_str())?;
        }
        _ => text.push_str(" is refused; standard output has the class of the fault")?,
    }
    Ok(text)
}

/// The line of a refused file that can not be read again, as a pipe.
fn pipe_text(alloc: Global, kind: &str, name: &str) -> Result<String, AllocError>
    ensures { IfOk result (λ t. BeginsWith (spec.file_called kind.now name.now) (string_bytes t)) }
{
    let mut text = called(alloc, kind, name)?;
    text.push_str(
        " is refused; standard output has the class of the fault (a pipe or a device is not read again to say more)",
    )?;
    Ok(text)
}

/// The names of the two files, where the words have them.
fn file_names(options: &Options) -> FileNames<'_>
    ensures model { result.model.now ≡ spec.model_name (settings_seen options.now).mode }
    ensures entities { result.entities.now ≡ spec.entities_name (settings_seen options.now).mode }
{
    match &options.mode {
        Mode::Serve(files) | Mode::Check(files) => FileNames {
            model: files.model.as_str(),
            entities: files.entities.as_str(),
        },
        Mode::Gen(_) => FileNames {
            model: "",
            entities: "",
        },
    }
}

/// What is told of a model file that is refused; with no folder to ask again, its name alone.
fn model_file_text<F: Folder>(
    alloc: Global,
    names: FileNames<'_>,
    folder: Option<&mut F>,
) -> Result<String, AllocError>
    ensures { IfOk result (λ t. BeginsWith (spec.file_called (codes "model") names.entry.model.now) (string_bytes t)) }
{
    match folder {
        Some(folder) => {
            let reason = model_file_reason(alloc, folder, names);
            refused_text(alloc, "model", names.model, reason)
        }
        None => pipe_text(alloc, "model", names.model),
    }
}

/// What is told of a data file that is refused; with no folder to ask again, its name alone.
fn data_file_text<F: Folder>(
    alloc: Global,
    names: FileNames<'_>,
    folder: Option<&mut F>,
) -> Result<String, AllocError>
    ensures { IfOk result (λ t. BeginsWith (spec.file_called (codes "data") names.entry.entities.now) (string_bytes t)) }
{
    match folder {
        Some(folder) => {
            let reason = data_file_reason(alloc, folder, names);
            refused_text(alloc, "data", names.entities, reason)
        }
        None => pipe_text(alloc, "data", names.entities),
    }
}

/// What is told of the file that a status refuses.
fn file_text<F: Folder>(
    alloc: Global,
    status: Status,
    options: &Options,
    folder: Option<&mut F>,
) -> Result<String, AllocError>
    ensures { IfOk result (λ t. BeginsWith (spec.refused_file status (settings_seen options.now).mode) (string_bytes t)) }
{
    let names = file_names(options);
    match status {
        Status::ModelRefused => model_file_text(alloc, names, folder),
        _ => data_file_text(alloc, names, folder),
    }
}

/// What is told of a read that failed.
fn read_text(
    alloc: Global,
    failed_name: Option<&str>,
    is_input_failed: bool,
) -> Result<String, AllocError>
    ensures { IfOk result (λ t. string_bytes t ≡ spec.read_text (option_map (λ n. n.now) failed_name.entry) is_input_failed) }
{
    match failed_name {
        Some(name) => {
            let name = quoted(alloc, name)?;
            format!(in alloc;
                "file {name} could not be read: it is not there, is a directory, or may not be read"
            )
        }
        None if is_input_failed => String::from_str(alloc, "standard input could not be read"),
        None => String::from_str(alloc, "a file could not be read"),
    }
}

/// A text behind the name of the program.
fn with_name(alloc: Global, text: &str) -> Result<String, AllocError>
    ensures { IfOk result (λ t. string_bytes t ≡ codes "apply_serve: " ++ text.now) }
{
    format!(in alloc; "apply_serve: {text}")
}

/// The line of a text.
fn line(alloc: Global, text: &str) -> Result<String, AllocError>
    ensures value { IfOk result (λ t. string_bytes t ≡ spec.run_line text.now) }
    ensures printable { IfOk result (λ t. IsPrintable (string_bytes t)) }
{
    let text = printable(alloc, text)?;
    with_name(alloc, text.as_str())
}

/// What is told of a refused file.
fn refused_file_text<F: Folder>(
    alloc: Global,
    status: Status,
    words: &[String],
    folder: Option<&mut F>,
) -> Result<String, AllocError>
    ensures { (s : Settings) → settings_in (texts_of words.now) ≡ Some s → IfOk result (λ t. BeginsWith (spec.refused_file status s.mode) (string_bytes t)) }
{
    match read_options(alloc, words) {
        Ok(options) => file_text(alloc, status, &options, folder),
        Err(OptionsRefused::Usage) => String::from_str(
            alloc,
            "a file is refused; standard output has the class of the fault",
        ),
        Err(OptionsRefused::Memory) => Err(AllocError),
    }
}

/// What standard error is told of a run that ended with this status, without the end of the line; nothing of one that was
/// served. Of a refused file the folder is asked again, if one is given, as it is where the files can be read twice. The name
/// is that of the file whose read failed, if that is known. For a call for help it is the help text.
pub fn run_message<F: Folder>(
    alloc: Global,
    status: Status,
    words: &[String],
    folder: Option<&mut F>,
    failed_name: Option<&str>,
    is_input_failed: bool,
) -> Result<String, AllocError>
    ensures served { status ≡ Status.Served → IfOk result (λ t. string_bytes t ≡ []) }
    ensures read { status ≡ Status.ReadFault → IfOk result (λ t. string_bytes t ≡ spec.run_line (spec.read_text (option_map (λ n. n.now) failed_name.entry) is_input_failed)) }
    ensures write { status ≡ Status.WriteFault → IfOk result (λ t. string_bytes t ≡ spec.run_line (codes "standard output could not be written")) }
    ensures memory { status ≡ Status.Memory → IfOk result (λ t. string_bytes t ≡ spec.run_line (codes "out of memory")) }
    ensures limit { status ≡ Status.InputLimit → IfOk result (λ t. string_bytes t ≡ spec.run_line (codes "the input has more bytes than --max-bytes allows")) }
    ensures model { (s : Settings) → status ≡ Status.ModelRefused → settings_in (texts_of words.now) ≡ Some s → IfOk result (λ t. IsLineThatBegins (spec.refused_file Status.ModelRefused s.mode) (string_bytes t)) }
    ensures entities { (s : Settings) → status ≡ Status.DataRefused → settings_in (texts_of words.now) ≡ Some s → IfOk result (λ t. IsLineThatBegins (spec.refused_file Status.DataRefused s.mode) (string_bytes t)) }
    ensures usage { status ≡ Status.Usage → settings_in (texts_of words.now) ≡ None → ¬ (AsksHelp (texts_of words.now)) → IfOk result (λ t. IsUsageText (texts_of words.now) (string_bytes t)) }
    ensures printable { (status ≡ Status.Usage → ¬ (AsksHelp (texts_of words.now))) → IfOk result (λ t. IsPrintable (string_bytes t)) }
{
    match status {
        Status::Served => Ok(String::new(alloc)),
        Status::Usage => usage_text(alloc, words),
        Status::ModelRefused | Status::DataRefused => {
            let text = refused_file_text(alloc, status, words, folder)?;
            line(alloc, text.as_str())
        }
        Status::ReadFault => {
            let text = read_text(alloc, failed_name, is_input_failed)?;
            line(alloc, text.as_str())
        }
        Status::WriteFault => line(alloc, "standard output could not be written"),
        Status::Memory => line(alloc, "out of memory"),
        Status::InputLimit => line(alloc, "the input has more bytes than --max-bytes allows"),
    }
}
