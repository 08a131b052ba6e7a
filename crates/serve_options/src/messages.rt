//! The texts for words that are refused.
ghost use Rattle.std.specs.Prelude.{◌≡◌, ◌≢◌, ◌++◌, IfOk, IsErr, chars, codes, string_bytes};
ghost use Rattle.clap.specs.Values.{kind_of};
ghost use Rattle.clap.specs.declared.error.kind.ErrorKind.TheVariants.{DisplayHelp, OutOfMemory};
ghost use Rattle.quoted_text.specs.Quoted.{quote};
ghost use Rattle.serve_options.specs.Seen.{problem_seen};
ghost use Rattle.serve_options.specs.Usage.{IsUsageLine, files_told, limits_told, mode_told, number_told, plan_told, usage_line};

use crate::rules::Problem;
use crate::words::given_values;
use clap::Error;
use clap::error::ErrorKind;
use quoted_text::{escaped, printable, quoted};
use std::alloc::{AllocError, Global};

/// A line that says what is wrong with the words.
fn line(alloc: Global, problem: &str) -> Result<String, AllocError>
    ensures { IfOk result (λ t. string_bytes t ≡ usage_line problem.now) }
{
    let problem = printable(alloc, problem)?;
    format!(in alloc; "apply_serve: {problem}; see apply_serve --help")
}

/// The limits of a number.
fn limits_text(alloc: Global, least: u64, most: u64) -> Result<String, AllocError>
    ensures { IfOk result (λ t. string_bytes t ≡ limits_told least most) }
{
    format!(in alloc; "{least} to {most}")
}

/// What a value would have to be, and the value.
fn against_text(alloc: Global, wanted: &str, given: &str) -> Result<String, AllocError>
    ensures { IfOk result (λ t. string_bytes t ≡ wanted.now ++ (codes ", not " ++ quote (chars given.now))) }
{
    let given = quoted(alloc, given)?;
    format!(in alloc; "{wanted}, not {given}")
}

/// A value that is no number within its option's limits.
fn number_text(
    alloc: Global,
    option: &str,
    least: u64,
    most: u64,
    given: &str,
) -> Result<String, AllocError>
    ensures { IfOk result (λ t. string_bytes t ≡ number_told option.now least most given.now) }
{
    let limits = limits_text(alloc, least, most)?;
    let rest = against_text(alloc, limits.as_str(), given)?;
    format!(in alloc; "{option} takes a whole number from {rest}")
}

/// A value that is no plan.
fn plan_text(alloc: Global, given: &str) -> Result<String, AllocError>
    ensures { IfOk result (λ t. string_bytes t ≡ plan_told given.now) }
{
    let given = quoted(alloc, given)?;
    format!(in alloc; "--plan takes written or optimised, not {given}")
}

/// A value that is no mode.
fn mode_text(alloc: Global, given: &str) -> Result<String, AllocError>
    ensures { IfOk result (λ t. string_bytes t ≡ mode_told given.now) }
{
    let given = quoted(alloc, given)?;
    format!(in alloc; "--mode takes serve, check or gen, not {given}")
}

/// A mode that lacks a file.
fn files_text(alloc: Global, mode: &str) -> Result<String, AllocError>
    ensures { IfOk result (λ t. string_bytes t ≡ files_told mode.now) }
{
    format!(in alloc; "mode {mode} wants --model FILE and --data FILE")
}

/// Which rule a value breaks.
fn rule_text(alloc: Global, problem: &Problem<'_>) -> Result<String, AllocError>
    ensures { IfOk result (λ t. string_bytes t ≡ problem_seen problem.now) }
{
    match problem {
        Problem::Number {
            option,
            least,
            most,
            given,
        } => number_text(alloc, option, *least, *most, given),
        Problem::Plan(given) => plan_text(alloc, given),
        Problem::Mode(given) => mode_text(alloc, given),
        Problem::Files(mode) => files_text(alloc, mode),
    }
}

/// The line that says which rule a value breaks.
pub(crate) fn problem_text(alloc: Global, problem: &Problem<'_>) -> Result<String, AllocError>
    ensures { IfOk result (λ t. string_bytes t ≡ usage_line (problem_seen problem.now)) }
{
    let text = rule_text(alloc, problem)?;
    line(alloc, text.as_str())
}

/// The words as they may be shown on a terminal. No option has a name that this changes, so what is wrong with the words is
/// wrong with these.
fn shown_words(alloc: Global, words: &[String]) -> Result<Vec<String>, AllocError> {
    let mut shown = Vec::with_capacity(alloc, words.len())?;
    for word in words {
        shown.push(escaped(alloc, word.as_str())?)?;
    }
    Ok(shown)
}

/// What stands in a text of `clap` before the usage and the hint at `--help`, in one line without the word `error`.
fn joined(alloc: Global, text: &str) -> Result<String, AllocError> {
    let mut out = String::new(alloc);
    for line in text.lines() {
        let line = line.trim();
        if line.starts_with("Usage:") || line.starts_with("For more information") {
            break;
        }
        if line.is_empty() {
            continue;
        }
        if !out.is_empty() {
            out.push_str("; ")?;
        }
        out.push_str(line.strip_prefix("error: ").unwrap_or(line))?;
    }
    Ok(out)
}

/// What `clap` says of words that do not meet the command; for a call for help the help text.
pub(crate) fn refusal_text(
    alloc: Global,
    words: &[String],
    error: &Error,
) -> Result<String, AllocError>
    ensures line { kind_of error.now ≢ DisplayHelp → IfOk result (λ t. IsUsageLine (string_bytes t)) }
    ensures memory { kind_of error.now ≡ OutOfMemory → IsErr result }
{
    match error.kind() {
        ErrorKind::OutOfMemory => return Err(AllocError),
        ErrorKind::DisplayHelp => return format!(in alloc; "{error}"),
        _ => {}
    }
    let shown = shown_words(alloc, words)?;
    let text = match given_values(alloc, shown.as_slice()) {
        Ok(_) => String::from_str(alloc, "the words do not meet the command")?,
        Err(error) => format!(in alloc; "{error}")?,
    };
    let problem = joined(alloc, text.as_str())?;
    line(alloc, problem.as_str())
}
