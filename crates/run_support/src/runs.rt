//! Runs of the service over objects in memory.
ghost use Rattle.std.specs.Prelude.{◌≡◌, ℕ, ◌<◌, IfOk, map, string_bytes};
ghost use Rattle.apply_io.specs.Files.{files_of};
ghost use Rattle.apply_io.specs.Reads.{EndsInOneRead};
ghost use Rattle.apply_service.specs.Service.{Says};
ghost use Rattle.run_support.specs.Cases.{failing_calls, case_words, case_files};
ghost use Rattle.run_support.specs.Outcomes.{Ends, EndsOver};

use apply_io::{Folder, MemFolder, MemSink, MemSource, Sink, Source};
use apply_meaning::Steps;
use apply_service::{Status, serve};
use par_stages::{Gate, NoGate};
use std::alloc::Global;
use std::marker::Brand;
use std::sync::ledger::{Blank, Ledger};
use std::test::Fail;
use std::thread::Threads;

/// What a run is given: further words behind those that name the two files, and the calls on the folder, the source and the
/// sink with these numbers fail, where they are not 0.
#[derive(Clone, Copy)]
pub struct Case<'a> {
    pub words: &'a [&'a str],
    pub model: &'a str,
    pub data: &'a str,
    pub input: &'a [u8],
    pub most: usize,
    pub folder_fails: u64,
    pub input_fails: u64,
    pub output_fails: u64,
}

/// How a run ended, what it wrote, and how often the folder failed.
#[derive(Drop)]
pub struct RunResult {
    pub status: Status,
    pub output: Vec<u8>,
    pub folder_faults: u64,
}

/// The number alone, or nothing for 0.
pub fn only(alloc: Global, number: u64) -> Result<Vec<u64>, Fail>
    ensures value { IfOk result (λ v. v.items ≡ failing_calls number) }
{
    let mut numbers = Vec::new(alloc);
    if number > 0 {
        numbers.push(number)?;
    }
    Ok(numbers)
}

/// Words as texts.
pub fn texts(alloc: Global, words: &[&str]) -> Result<Vec<String>, Fail>
    ensures value { IfOk result (λ v. map string_bytes v.items ≡ map (λ w. w.now) words.now) }
{
    let mut texts = Vec::new(alloc);
    for word in words {
        texts.push(String::from_str(alloc, word)?)?;
    }
    Ok(texts)
}

/// The words that name the two files, and those of the case.
pub fn words(alloc: Global, case: &Case<'_>) -> Result<Vec<String>, Fail>
    ensures value { IfOk result (λ v. map string_bytes v.items ≡ case_words case.now) }
{
    let mut words = texts(alloc, &["--model", "m", "--data", "d"])?;
    for word in case.words {
        words.push(String::from_str(alloc, word)?)?;
    }
    Ok(words)
}

/// The two files of a case.
pub fn files(alloc: Global, case: &Case<'_>) -> Result<Vec<(String, Vec<u8>)>, Fail>
    ensures value { IfOk result (λ v. files_of v.items ≡ case_files case.now) }
{
    let mut files = Vec::new(alloc);
    files.push((
        String::from_str(alloc, "m")?,
        case.model.as_bytes().to_vec(alloc)?,
    ))?;
    files.push((
        String::from_str(alloc, "d")?,
        case.data.as_bytes().to_vec(alloc)?,
    ))?;
    Ok(files)
}

/// Serves with a new counter of steps.
fn serve_counted<R: Threads + Sync, F: Folder, S: Source, K: Sink, G: Gate, L: Ledger>(
    rt: &R,
    alloc: Global,
    words: &[String],
    folder: &mut F,
    input: &mut S,
    output: &mut K,
    gate: &G,
    blank: Blank,
) -> Status
    requires name { blank.name ≡ L.name }
    requires parts { blank.parts ≡ L.parts }
    requires some { 0 < blank.parts }
    ensures { (counted : ℕ) × Says (record {
      words = map string_bytes words.now;
      folder = record { files = F.files folder.old; faults = F.fault_count folder.old; faults_after = F.fault_count folder.new };
      input = record { left = S.left input.old; left_after = S.left input.new; faults = S.fault_count input.old; faults_after = S.fault_count input.new; ends_in_one_read = EndsInOneRead S.left S.reads_once input.old input.new };
      output = record { held = K.held output.old; held_after = K.held output.new; faults = K.fault_count output.old; faults_after = K.fault_count output.new };
      steps = record { count = 0; count_after = counted };
      status = result;
    }) (F.is_steady folder.old) (folder.new ≡ folder.old) (input.new ≡ input.old) (output.new ≡ output.old) }
{
    let mut steps = Steps::<L>::new(blank);
    serve(rt, alloc, words, folder, input, output, gate, &mut steps)
}

/// Runs the service over a source. The gate is told of each piece of a fold.
fn outcome_with<R: Threads + Sync, S: Source, G: Gate>(
    rt: &R,
    alloc: Global,
    case: &Case,
    words: &[String],
    input: &mut S,
    gate: &G,
) -> Result<RunResult, Fail>
    ensures { IfOk result (λ r. EndsOver (map string_bytes words.now) case.now
        (record { left = S.left input.old; left_after = S.left input.new; faults = S.fault_count input.old; faults_after = S.fault_count input.new; ends_in_one_read = EndsInOneRead S.left S.reads_once input.old input.new })
        (input.new ≡ input.old) r) }
{
    let mut folder = MemFolder::new(files(alloc, case)?, only(alloc, case.folder_fails)?);
    let most = case.most.max(1);
    let mut output = MemSink::new(alloc, 16_384, most, only(alloc, case.output_fails)?)?;
    let status = serve_counted::<_, _, _, _, _, Brand>(
        rt,
        alloc,
        words,
        &mut folder,
        input,
        &mut output,
        gate,
        Blank::new(1),
    );
    Ok(RunResult {
        status,
        output: output.bytes().to_vec(alloc)?,
        folder_faults: folder.faults(),
    })
}

/// Runs the service over a source.
pub fn outcome_over<R: Threads + Sync, S: Source>(
    rt: &R,
    alloc: Global,
    case: &Case,
    words: &[String],
    input: &mut S,
) -> Result<RunResult, Fail>
    ensures value { IfOk result (λ r. EndsOver (map string_bytes words.now) case.now
        (record { left = S.left input.old; left_after = S.left input.new; faults = S.fault_count input.old; faults_after = S.fault_count input.new; ends_in_one_read = EndsInOneRead S.left S.reads_once input.old input.new })
        (input.new ≡ input.old) r) }
{
    outcome_with(rt, alloc, case, words, input, &NoGate)
}

/// Runs the service over the case's input. The gate is told of each piece of a fold.
pub fn outcome_at<R: Threads + Sync, G: Gate>(
    rt: &R,
    alloc: Global,
    case: &Case<'_>,
    gate: &G,
) -> Result<RunResult, Fail>
    ensures value { IfOk result (λ r. Ends (case_words case.now) case.now case.now.input.now r) }
{
    let words = words(alloc, case)?;
    let bytes = case.input.to_vec(alloc)?;
    let mut input = MemSource::new(bytes, case.most.max(1), only(alloc, case.input_fails)?);
    outcome_with(rt, alloc, case, words.as_slice(), &mut input, gate)
}

/// Runs the service over bytes of the input.
pub fn outcome_of<R: Threads + Sync>(
    rt: &R,
    alloc: Global,
    case: &Case<'_>,
    words: &[String],
    input: Vec<u8>,
) -> Result<RunResult, Fail>
    ensures value { IfOk result (λ r. Ends (map string_bytes words.now) case.now input.items r) }
{
    let mut input = MemSource::new(input, case.most.max(1), only(alloc, case.input_fails)?);
    outcome_over(rt, alloc, case, words, &mut input)
}

/// Runs the service over the case's input.
pub fn outcome<R: Threads + Sync>(rt: &R, alloc: Global, case: &Case<'_>) -> Result<RunResult, Fail>
    ensures value { IfOk result (λ r. Ends (case_words case.now) case.now case.now.input.now r) }
{
    let words = words(alloc, case)?;
    outcome_of(rt, alloc, case, words.as_slice(), case.input.to_vec(alloc)?)
}
