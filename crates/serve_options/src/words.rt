//! The command, and the values in the words.
ghost use Rattle.std.specs.Prelude.{◌≡◌, ◌≢◌, IfOk, IfErr, Some, None};
ghost use Rattle.clap.specs.Walk.{rows_of, rule_of};
ghost use Rattle.clap.specs.Simple.{app_of, with_rule};
ghost use Rattle.clap.specs.Matches.{found_of};
ghost use Rattle.clap.specs.Values.{kind_of};
ghost use Rattle.clap.specs.declared.error.kind.ErrorKind.TheVariants.{DisplayHelp, OutOfMemory};
ghost use Rattle.serve_options.specs.Command.{AsksHelp, option_rule, option_values, serve_app, texts_of, values_in};
ghost use Rattle.serve_options.specs.Seen.{values_seen};

use clap::{Arg, ArgMatches, Command, Error};
use std::alloc::{AllocError, Global};

/// The values of the options, each none where the option was not given.
#[derive(Clone, Copy)]
pub(crate) struct Given<'a> {
    pub(crate) model: Option<&'a str>,
    pub(crate) entities: Option<&'a str>,
    pub(crate) workers: Option<&'a str>,
    pub(crate) max_bytes: Option<&'a str>,
    pub(crate) plan: Option<&'a str>,
    pub(crate) mode: Option<&'a str>,
    pub(crate) count: Option<&'a str>,
}

/// The command with one more option `--name`, which takes one value.
fn with_option<'a>(
    alloc: Global,
    command: Command<'a>,
    name: &'a str,
    value_name: &'a str,
    help: &'a str,
) -> Result<Command<'a>, AllocError>
    ensures { IfOk result (λ c. app_of c ≡ with_rule (app_of command.entry) (option_rule name.entry.now)) }
{
    let option = Arg::new(alloc, name)
        .long(name)
        .value_name(value_name)
        .help(help);
    command.arg(option)
}

/// The command, whose words are those after the program's name.
pub(crate) fn command<'a>(alloc: Global) -> Result<Command<'a>, AllocError>
    ensures { IfOk result (λ c. app_of c ≡ serve_app) }
{
    let bare = Command::new(alloc, "apply_serve")
        .no_binary_name(true)
        .about("Answers $apply requests over a model file and a data file");
    let model = "The model file, for modes serve and check";
    let with_model = with_option(alloc, bare, "model", "FILE", model)?;
    let entities = "The data file, for modes serve and check";
    let with_entities = with_option(alloc, with_model, "data", "FILE", entities)?;
    let workers = "How many workers a request may have, from 1 to 64 [default: 4]";
    let with_workers = with_option(alloc, with_entities, "workers", "N", workers)?;
    let max_bytes =
        "How many bytes of input are taken, from 0 to 9223372036854775807 [default: 1073741824]";
    let with_max_bytes = with_option(alloc, with_workers, "max-bytes", "N", max_bytes)?;
    let plan =
        "How a pipeline runs: written, as it stands, or optimised, by its plan [default: optimised]";
    let with_plan = with_option(alloc, with_max_bytes, "plan", "PLAN", plan)?;
    let mode = "What is done: serve, check or gen [default: serve]";
    let with_mode = with_option(alloc, with_plan, "mode", "MODE", mode)?;
    let count = "How many sales mode gen makes, from 1 to 200000 [default: 1000]";
    let with_count = with_option(alloc, with_mode, "count", "N", count)?;
    Ok(with_count)
}

/// The values that were found.
fn found_values<'a>(matches: &ArgMatches<'a>) -> Given<'a>
    ensures { values_seen result ≡ values_in (rows_of (found_of matches.now)) }
{
    Given {
        model: matches.get_str("model"),
        entities: matches.get_str("data"),
        workers: matches.get_str("workers"),
        max_bytes: matches.get_str("max-bytes"),
        plan: matches.get_str("plan"),
        mode: matches.get_str("mode"),
        count: matches.get_str("count"),
    }
}

/// The values of the options in the words.
pub(crate) fn given_values<'a>(alloc: Global, words: &'a [String]) -> Result<Given<'a>, Error>
    ensures ok { IfOk result (λ g. option_values (texts_of words.entry.now) ≡ Some (values_seen g)) }
    ensures err { IfErr result (λ e. kind_of e ≢ OutOfMemory → option_values (texts_of words.entry.now) ≡ None) }
    ensures help { IfErr result (λ e. kind_of e ≡ DisplayHelp → AsksHelp (texts_of words.entry.now)) }
{
    let command = command(alloc)?;
    match command.try_get_matches_from(words) {
        Ok(matches) => Ok(found_values(&matches)),
        Err(error) => Err(error),
    }
}
