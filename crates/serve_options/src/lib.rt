//! The words of the command line, read as the options of a run.
//!
//! [`read_options`] reads the words after the program's name: `--model FILE`, `--data FILE`, `--workers N`,
//! `--max-bytes N`, `--plan written|optimised`, `--mode serve|check|gen` and `--count N`, each at most once.
//! [`usage_text`] says what is wrong with words that it refuses.
//!
//! The crate stands on `clap`, which reads the words as one command without subcommands, on `edm_values` for texts and
//! digits, and on `quoted_text` for words that are shown. It promises that the answer is the one of `settings_in` in
//! `specs/Command.antt`: options come exactly where `clap`'s statement of the command takes the words and their values keep
//! the rules of `settings_of` in `specs/Options.antt`, and only want of memory may come in place of an answer. Of wrong words
//! that do not ask for help [`usage_text`] has one line, in which nothing is left that a terminal would obey: that of the first
//! rule that a value breaks, as `specs/Usage.antt` has it, and where the words do not meet the command a line of the same form
//! with what `clap` says, which is shown by tests only.
//!
//! `words` has the command and the values in the words, `rules` the rules on the values, `messages` the texts.
#![tactic(auto)]

ghost use Rattle.std.specs.Prelude.{◌≡◌, ◌≢◌, [], IfOk, IsErrOf, Some, None, string_bytes};
ghost use Rattle.clap.specs.Values.{kind_of};
ghost use Rattle.quoted_text.specs.Quoted.{IsPrintable};
ghost use Rattle.serve_options.specs.Command.{AsksHelp, settings_in, texts_of};
ghost use Rattle.serve_options.specs.Seen.{settings_seen};
ghost use Rattle.serve_options.specs.Usage.{IsUsageText};

mod messages;
mod rules;
mod words;

use crate::messages::{problem_text, refusal_text};
use crate::rules::check_values;
use crate::words::given_values;
use clap::Error;
use clap::error::ErrorKind;
use std::alloc::{AllocError, Global};

/// The names of the model file and of the data file.
#[derive(Drop)]
pub struct FileNames {
    pub model: String,
    pub entities: String,
}

/// What a run is to do.
#[derive(Drop)]
pub enum Mode {
    /// Answer requests over two files.
    Serve(FileNames),
    /// Check two files.
    Check(FileNames),
    /// Answer the sample requests over a generated world with this many sales.
    Gen(u32),
}

/// The options of a run.
#[derive(Drop)]
pub struct Options {
    pub mode: Mode,
    /// How many threads work on a request.
    pub workers: u32,
    /// How many bytes of the input are taken.
    pub max_bytes: u64,
    /// Whether a request's pipeline is rewritten before it runs.
    pub is_optimised: bool,
}

/// Why the words gave no options.
#[derive(Clone, Copy, Debug, PartialEq, Eq)]
pub enum OptionsRefused {
    /// They do not meet the command, or a value breaks a rule.
    Usage,
    Memory,
}

impl From<AllocError> for OptionsRefused {
    ghost use Rattle.serve_options.specs.declared.OptionsRefused.TheVariants.{Memory};

    ghost from_gives = { λ _ e. e ≡ Memory };

    fn from(_: AllocError) -> OptionsRefused {
        OptionsRefused::Memory
    }
}

/// Want of memory, or else words that do not meet the command.
fn refusal(error: &Error) -> OptionsRefused
    ensures { result ≡ OptionsRefused.Usage → kind_of error.now ≢ ErrorKind.OutOfMemory }
{
    match error.kind() {
        ErrorKind::OutOfMemory => OptionsRefused::Memory,
        _ => OptionsRefused::Usage,
    }
}

/// Reads the words after the program's name.
pub fn read_options(alloc: Global, words: &[String]) -> Result<Options, OptionsRefused>
    ensures ok { IfOk result (λ o. settings_in (texts_of words.now) ≡ Some (settings_seen o)) }
    ensures usage { IsErrOf result OptionsRefused.Usage → settings_in (texts_of words.now) ≡ None }
{
    let given = match given_values(alloc, words) {
        Ok(given) => given,
        Err(error) => return Err(refusal(&error)),
    };
    let Ok(asked) = check_values(given) else {
        return Err(OptionsRefused::Usage);
    };
    Ok(asked.own(alloc)?)
}

/// What is wrong with words that [`read_options`] refuses by `Usage`, in one line without an end: what `clap` says, or which
/// rule a value breaks; for a call for help the help text. For words that name a run it is empty. Characters of the words that
/// a terminal would obey stand there by their numbers. What `clap` says is shown by tests only.
pub fn usage_text(alloc: Global, words: &[String]) -> Result<String, AllocError>
    ensures named { settings_in (texts_of words.now) ≢ None → IfOk result (λ t. string_bytes t ≡ []) }
    ensures told { settings_in (texts_of words.now) ≡ None → ¬ (AsksHelp (texts_of words.now)) → IfOk result (λ t. IsUsageText (texts_of words.now) (string_bytes t)) }
    ensures printable { ¬ (AsksHelp (texts_of words.now)) → IfOk result (λ t. IsPrintable (string_bytes t)) }
{
    match given_values(alloc, words) {
        Ok(given) => match check_values(given) {
            Ok(_) => Ok(String::new(alloc)),
            Err(problem) => problem_text(alloc, &problem),
        },
        Err(error) => refusal_text(alloc, words, &error),
    }
}
