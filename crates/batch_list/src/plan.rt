//! The plan that a batch's words give.

ghost use Rattle.std.specs.Prelude.{◌≡◌, ◌≤◌, false, IfOk, IfSome, map, option_map};
ghost use Rattle.std.specs.String.{string_bytes};
ghost use Rattle.clap.specs.Words.{app_of, first_of, found_of, rows_of, rule_of};
ghost use Rattle.batch_list.specs.Plan as spec;
ghost use Rattle.batch_list.specs.Plans as plans;
ghost use Rattle.batch_list.specs.Plans.{Plans};

use clap::error::ErrorKind;
use clap::{Arg, ArgAction, ArgMatches, Command};
use ds_base::NoMemory;
use std::alloc::{AllocError, Global};
use thiserror::Error;

/// What a batch is to do.
#[derive(Debug, Drop)]
pub struct BatchPlan {
    /// The file that lists its programs.
    pub list: String,
    /// How many programs are linked at the same time, from 1 to 8.
    pub workers: u32,
    /// Whether types of one name are merged.
    pub odr: bool,
    /// Whether a missing object file is passed over.
    pub keep_going: bool,
}

/// Why words give no plan.
#[derive(Clone, Copy, Debug, Error)]
pub enum PlanError {
    /// They are not those of the command.
    #[error("the words are not those of the command")]
    Usage,
    /// Memory ran out.
    #[error("memory ran out")]
    NoMemory,
}

impl From<NoMemory> for PlanError {
    ghost use Rattle.std.specs.Prelude.{◌≡◌};
    ghost use Rattle.batch_list.specs.declared.plan.PlanError.TheVariants as errors;

    ghost from_gives = { λ _ error. error ≡ errors.NoMemory };

    fn from(_error: NoMemory) -> PlanError {
        PlanError::NoMemory
    }
}

/// The plan that a batch's words give. The program's own name is none of them.
///
/// They are read by `clap`. `Usage` comes exactly where it refuses them, or the number of programs that are linked at the
/// same time is none from 1 to 8.
pub fn plan_of_words(alloc: Global, words: &[String]) -> Result<BatchPlan, PlanError>
    ensures plan { Plans result (spec.plan_of (map string_bytes words.now)) }
    ensures workers { IfOk result (λ plan. spec.HasWorkers plan.workers) }
{
    let Ok(command) = command(alloc) else {
        return Err(PlanError::NoMemory);
    };
    match command.try_get_matches_from(words) {
        Ok(matches) => plan_in(alloc, &matches),
        Err(error) => Err(refusal(error.kind())),
    }
}

/// The command.
fn command<'a>(alloc: Global) -> Result<Command<'a>, AllocError>
    ensures { IfOk result (λ command. app_of command ≡ spec.command) }
{
    plain_command(alloc)
        .arg(letter(alloc, "j", 'j'))?
        .arg(flag(alloc, "no-odr"))?
        .arg(flag(alloc, "keep-going"))?
        .arg(list_word(alloc))
}

/// The command without its options.
fn plain_command<'a>(alloc: Global) -> Command<'a>
    ensures { app_of result ≡ spec.plain_command }
{
    Command::new(alloc, "dsymbatch")
        .no_binary_name(true)
        .disable_help_flag(true)
        .disable_version_flag(true)
}

/// An option with a value, by its letter.
fn letter<'a>(alloc: Global, id: &'a str, letter: char) -> Arg<'a>
    ensures rule { rule_of result ≡ spec.letter id.entry.now letter }
    ensures local { result.global ≡ false }
{
    Arg::new(alloc, id).short(letter)
}

/// An option without a value, by its name.
fn flag<'a>(alloc: Global, name: &'a str) -> Arg<'a>
    ensures rule { rule_of result ≡ spec.flag name.entry.now }
    ensures local { result.global ≡ false }
{
    Arg::new(alloc, name).long(name).action(ArgAction::SetTrue)
}

/// The one word that is no option, and has to be there.
fn list_word<'a>(alloc: Global) -> Arg<'a>
    ensures rule { rule_of result ≡ spec.list_word }
    ensures local { result.global ≡ false }
{
    Arg::new(alloc, "LIST").required(true)
}

/// Why words that the command refuses give no plan.
fn refusal(kind: ErrorKind) -> PlanError
    ensures { result ≡ plans.refusal kind }
{
    match kind {
        ErrorKind::OutOfMemory => PlanError::NoMemory,
        _ => PlanError::Usage,
    }
}

/// The plan of what the command found in the words.
fn plan_in(alloc: Global, matches: &ArgMatches) -> Result<BatchPlan, PlanError>
    ensures plan { Plans result (spec.plan_in (rows_of (found_of matches.now))) }
    ensures workers { IfOk result (λ plan. spec.HasWorkers plan.workers) }
{
    let Some(list) = value(matches, "LIST") else {
        return Err(PlanError::Usage);
    };
    let Some(workers) = workers_of(value(matches, "j")) else {
        return Err(PlanError::Usage);
    };
    let list = text(alloc, list)?;
    Ok(BatchPlan {
        list,
        workers,
        odr: !is_set(value(matches, "no-odr")),
        keep_going: is_set(value(matches, "keep-going")),
    })
}

/// The value that an option or the list's word has.
fn value<'a>(matches: &ArgMatches<'a>, id: &str) -> Option<&'a str>
    ensures { option_map (λ value. value.now) result ≡ first_of id.now (rows_of (found_of matches.now)) }
{
    matches.get_str(id)
}

/// A copy of a text.
fn text(alloc: Global, text: &str) -> Result<String, NoMemory>
    ensures { IfOk result (λ made. string_bytes made ≡ text.now) }
{
    Ok(String::from_str(alloc, text)?)
}

/// Whether a flag is among the words: its value is then `true`.
fn is_set(value: Option<&str>) -> bool
    ensures { result ≡ spec.is_set (option_map (λ value. value.now) value.entry) }
{
    match value {
        Some(text) => text == "true",
        None => false,
    }
}

/// How many programs are linked at the same time: 2 where no number is named.
fn workers_of(named: Option<&str>) -> Option<u32>
    ensures number { result ≡ spec.workers_of (option_map (λ value. value.now) named.entry) }
    ensures workers { IfSome result spec.HasWorkers }
{
    match named {
        Some(text) => digit_up_to_eight(text.as_bytes()),
        None => Some(2),
    }
}

/// The number from 1 to 8 that a text is: its decimal digit.
fn digit_up_to_eight(text: &[u8]) -> Option<u32>
    ensures number { result ≡ spec.digit_up_to_eight text.now }
    ensures workers { IfSome result spec.HasWorkers }
{
    match text {
        [digit @ b'1'..=b'8'] => Some(u32::from(*digit - b'0')),
        _ => None,
    }
}
