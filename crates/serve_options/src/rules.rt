//! The rules on the values of the options.
ghost use Rattle.std.specs.Prelude.{◌≡◌, ◌≤◌, IfOk, codes, option_map, unwrap_or, string_bytes};
ghost use Rattle.std.specs.Char.{is_digit};
ghost use Rattle.std.specs.List.{list_all};
ghost use Rattle.std.specs.Result.{result_err, result_ok};
ghost use Rattle.edm_values.specs.Literals.{is_digits};
ghost use Rattle.serve_options.specs.Options as spec;
ghost use Rattle.serve_options.specs.Seen.{lent_mode_seen, lent_settings_seen, mode_seen, names_seen, problem_seen, settings_seen, values_seen};
ghost use Rattle.serve_options.specs.Usage.{files_told, mode_problem, number_problem, plan_problem, problem_of, told_unless};

use crate::words::Given;
use crate::{FileNames, Mode, Options};
use std::alloc::{AllocError, Global};

/// Which rule a value breaks.
#[derive(Clone, Copy)]
pub(crate) enum Problem<'a> {
    /// The option takes a number within its limits.
    Number {
        option: &'static str,
        least: u64,
        most: u64,
        given: &'a str,
    },
    /// There is no such plan.
    Plan(&'a str),
    /// There is no such mode.
    Mode(&'a str),
    /// The mode needs both files.
    Files(&'static str),
}

/// The names of the two files, as they were given.
#[derive(Clone, Copy)]
pub(crate) struct Names<'a> {
    pub(crate) model: &'a str,
    pub(crate) entities: &'a str,
}

/// A mode, with the names as they were given.
#[derive(Clone, Copy)]
pub(crate) enum AskedMode<'a> {
    Serve(Names<'a>),
    Check(Names<'a>),
    Gen(u32),
}

/// The options, with the names as they were given.
#[derive(Clone, Copy)]
pub(crate) struct Asked<'a> {
    pub(crate) mode: AskedMode<'a>,
    pub(crate) workers: u32,
    pub(crate) max_bytes: u64,
    pub(crate) is_optimised: bool,
}

/// Whether the text is one or more decimal digits.
fn is_numeral(text: &[u8]) -> bool
    ensures { result ≡ is_digits text.now }
{
    !text.is_empty() && are_digits(text)
}

fn are_digits(text: &[u8]) -> bool
    ensures { result ≡ list_all (λ b. is_digit b 10) text.now }
{
    text.iter().all(|byte| char::from(*byte).is_digit(10))
}

/// The number of digits alone, within its limits.
fn number_within(text: &str, least: u64, most: u64) -> Option<u64>
    ensures { result ≡ spec.number_within least most text.now }
{
    if !is_numeral(text.as_bytes()) {
        return None;
    }
    let Ok(number) = text.parse::<u64>() else {
        return None;
    };
    if least <= number && number <= most {
        return Some(number);
    }
    None
}

/// The number of an option, or its default where it was not given.
fn number<'a>(
    option: &'static str,
    given: Option<&'a str>,
    least: u64,
    most: u64,
    default: u64,
) -> Result<u64, Problem<'a>>
    requires { default ≤ most }
    ensures value { result_ok result ≡ spec.number_or default least most (option_map (λ s. s.now) given.entry) }
    ensures problem { option_map problem_seen (result_err result) ≡ number_problem option.entry.now least most (option_map (λ s. s.now) given.entry) }
    ensures within { IfOk result (λ n. n ≤ most) }
{
    let Some(given) = given else {
        return Ok(default);
    };
    match number_within(given, least, most) {
        Some(number) => Ok(number),
        None => Err(Problem::Number {
            option,
            least,
            most,
            given,
        }),
    }
}

/// Whether the plan is optimised.
fn is_optimised<'a>(plan: Option<&'a str>) -> Result<bool, Problem<'a>>
    ensures value { result_ok result ≡ spec.plan_named (unwrap_or (option_map (λ s. s.now) plan.entry) (codes "optimised")) }
    ensures problem { option_map problem_seen (result_err result) ≡ plan_problem (unwrap_or (option_map (λ s. s.now) plan.entry) (codes "optimised")) }
{
    match plan.unwrap_or("optimised") {
        "optimised" => Ok(true),
        "written" => Ok(false),
        other => Err(Problem::Plan(other)),
    }
}

/// The names of both files, for a mode that needs them.
fn file_names<'a>(given: Given<'a>, mode: &'static str) -> Result<Names<'a>, Problem<'a>>
    ensures value { option_map names_seen (result_ok result) ≡ spec.both_files (values_seen given.entry) }
    ensures problem { option_map problem_seen (result_err result) ≡ told_unless (spec.both_files (values_seen given.entry)) (files_told mode.entry.now) }
{
    match (given.model, given.entities) {
        (Some(model), Some(entities)) => Ok(Names { model, entities }),
        _ => Err(Problem::Files(mode)),
    }
}

/// The mode, which is to serve where none was given.
fn mode<'a>(given: Given<'a>, count: u32) -> Result<AskedMode<'a>, Problem<'a>>
    ensures value { option_map lent_mode_seen (result_ok result) ≡ spec.mode_named (values_seen given.entry) count (unwrap_or (option_map (λ s. s.now) given.entry.mode) (codes "serve")) }
    ensures problem { option_map problem_seen (result_err result) ≡ mode_problem (values_seen given.entry) (unwrap_or (option_map (λ s. s.now) given.entry.mode) (codes "serve")) }
{
    match given.mode.unwrap_or("serve") {
        "serve" => Ok(AskedMode::Serve(file_names(given, "serve")?)),
        "check" => Ok(AskedMode::Check(file_names(given, "check")?)),
        "gen" => Ok(AskedMode::Gen(count)),
        other => Err(Problem::Mode(other)),
    }
}

/// What the values ask for, or a rule that one of them breaks.
pub(crate) fn check_values<'a>(given: Given<'a>) -> Result<Asked<'a>, Problem<'a>>
    ensures value { option_map lent_settings_seen (result_ok result) ≡ spec.settings_of (values_seen given.entry) }
    ensures problem { option_map problem_seen (result_err result) ≡ problem_of (values_seen given.entry) }
{
    let workers = number("--workers", given.workers, 1, 64, 4)?;
    let max_bytes = number(
        "--max-bytes",
        given.max_bytes,
        0,
        9_223_372_036_854_775_807,
        1_073_741_824,
    )?;
    let count = number("--count", given.count, 1, 200_000, 1_000)?;
    let is_optimised = is_optimised(given.plan)?;
    let mode = mode(given, count as u32)?;
    Ok(Asked {
        mode,
        workers: workers as u32,
        max_bytes,
        is_optimised,
    })
}

impl<'a> Names<'a> {
    fn own(self, alloc: Global) -> Result<FileNames, AllocError>
        ensures { IfOk result (λ n. (string_bytes n.model ≡ self.entry.model.now) × (string_bytes n.entities ≡ self.entry.entities.now)) }
    {
        let model = String::from_str(alloc, self.model)?;
        let entities = String::from_str(alloc, self.entities)?;
        Ok(FileNames { model, entities })
    }
}

impl<'a> AskedMode<'a> {
    fn own(self, alloc: Global) -> Result<Mode, AllocError>
        ensures { IfOk result (λ m. mode_seen m ≡ lent_mode_seen self.entry) }
    {
        match self {
            AskedMode::Serve(names) => Ok(Mode::Serve(names.own(alloc)?)),
            AskedMode::Check(names) => Ok(Mode::Check(names.own(alloc)?)),
            AskedMode::Gen(count) => Ok(Mode::Gen(count)),
        }
    }
}

impl<'a> Asked<'a> {
    /// The options with names of their own.
    pub(crate) fn own(self, alloc: Global) -> Result<Options, AllocError>
        ensures { IfOk result (λ o. settings_seen o ≡ lent_settings_seen self.entry) }
    {
        let mode = self.mode.own(alloc)?;
        Ok(Options {
            mode,
            workers: self.workers,
            max_bytes: self.max_bytes,
            is_optimised: self.is_optimised,
        })
    }
}
