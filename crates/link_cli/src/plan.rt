//! The plan that the command's words give.

ghost use Rattle.std.specs.Prelude.{◌≡◌, ◌≤◌, ◌++◌, codes, false, IfOk, IfSome, map, option_map};
ghost use Rattle.std.specs.String.{string_bytes};
ghost use Rattle.clap.specs.Words.{app_of, first_of, found_of, rows_of, rule_of};
ghost use Rattle.link_cli.specs.Plan as spec;
ghost use Rattle.link_cli.specs.Plans as plans;
ghost use Rattle.link_cli.specs.Plans.{Outs, Plans};

use crate::words::names_file;
use clap::error::ErrorKind;
use clap::{Arg, ArgAction, ArgMatches, Command};
use ds_base::NoMemory;
use std::alloc::{AllocError, Global};
use thiserror::Error;

/// What the command is to do.
#[derive(Debug, Drop)]
pub struct Plan {
    /// The program.
    pub exe: String,
    /// The bundle.
    pub out: String,
    /// How many threads work, from 1 to 64.
    pub workers: u32,
    /// Whether types of one name are merged.
    pub odr: bool,
    /// Whether a missing object file is passed over.
    pub keep_going: bool,
    /// Whether the message tells what was counted.
    pub statistics: bool,
    pub mode: Mode,
}

/// What is done with the program.
#[derive(Clone, Copy, Debug)]
pub enum Mode {
    /// It is linked, and its bundle is written.
    Link,
    /// Its debug map is told.
    Map,
    /// A program of so many objects is generated in its place and linked, and what was counted is told.
    Generate(u32),
}

/// Why words give no plan.
#[derive(Clone, Copy, Debug, Error)]
pub enum PlanError {
    /// They are not those of the command.
    #[error("the words are not those of the command")]
    Usage,
    /// Memory ran out.
    #[error("memory ran out")]
    NoMemory,
}

impl From<NoMemory> for PlanError {
    ghost use Rattle.std.specs.Prelude.{◌≡◌};
    ghost use Rattle.link_cli.specs.declared.plan.PlanError.TheVariants as errors;

    ghost from_gives = { λ _ error. error ≡ errors.NoMemory };

    fn from(_error: NoMemory) -> PlanError {
        PlanError::NoMemory
    }
}

/// The plan that the command's words give. The program's own name is none of them.
///
/// They are read by `clap`. `Usage` comes exactly where it refuses them, the program names no file, the bundle's name is
/// empty, the number of workers is none from 1 to 64, or of objects none from 1 to 1000, or both the map and a generated
/// program are asked.
pub fn plan_of_words(alloc: Global, words: &[String]) -> Result<Plan, PlanError>
    ensures plan { Plans result (spec.plan_of (map string_bytes words.now)) }
    ensures workers { IfOk result (λ plan. spec.HasWorkers plan.workers) }
    ensures count { IfOk result (λ plan. spec.HasCount plan.mode) }
{
    let Ok(command) = command(alloc) else {
        return Err(PlanError::NoMemory);
    };
    match command.try_get_matches_from(words) {
        Ok(matches) => plan_in(alloc, &matches),
        Err(error) => Err(refusal(error.kind())),
    }
}

/// The command.
fn command<'a>(alloc: Global) -> Result<Command<'a>, AllocError>
    ensures { IfOk result (λ command. app_of command ≡ spec.command) }
{
    plain_command(alloc)
        .arg(letter(alloc, "o", 'o'))?
        .arg(letter(alloc, "j", 'j'))?
        .arg(flag(alloc, "no-odr"))?
        .arg(flag(alloc, "keep-going"))?
        .arg(flag(alloc, "statistics"))?
        .arg(flag(alloc, "dump-map"))?
        .arg(named(alloc, "generate"))?
        .arg(program_word(alloc))
}

/// The command without its options.
fn plain_command<'a>(alloc: Global) -> Command<'a>
    ensures { app_of result ≡ spec.plain_command }
{
    Command::new(alloc, "dsymlink")
        .no_binary_name(true)
        .disable_help_flag(true)
        .disable_version_flag(true)
}

/// An option with a value, by its letter.
fn letter<'a>(alloc: Global, id: &'a str, letter: char) -> Arg<'a>
    ensures rule { rule_of result ≡ spec.letter id.entry.now letter }
    ensures local { result.global ≡ false }
{
    Arg::new(alloc, id).short(letter)
}

/// An option without a value, by its name.
fn flag<'a>(alloc: Global, name: &'a str) -> Arg<'a>
    ensures rule { rule_of result ≡ spec.flag name.entry.now }
    ensures local { result.global ≡ false }
{
    Arg::new(alloc, name).long(name).action(ArgAction::SetTrue)
}

/// An option with a value, by its name.
fn named<'a>(alloc: Global, name: &'a str) -> Arg<'a>
    ensures rule { rule_of result ≡ spec.named name.entry.now }
    ensures local { result.global ≡ false }
{
    Arg::new(alloc, name).long(name)
}

/// The one word that is no option, and has to be there.
fn program_word<'a>(alloc: Global) -> Arg<'a>
    ensures rule { rule_of result ≡ spec.program_word }
    ensures local { result.global ≡ false }
{
    Arg::new(alloc, "EXE").required(true)
}

/// Why words that the command refuses give no plan.
fn refusal(kind: ErrorKind) -> PlanError
    ensures { result ≡ plans.refusal kind }
{
    match kind {
        ErrorKind::OutOfMemory => PlanError::NoMemory,
        _ => PlanError::Usage,
    }
}

/// The plan of what the command found in the words.
fn plan_in(alloc: Global, matches: &ArgMatches) -> Result<Plan, PlanError>
    ensures plan { Plans result (spec.plan_in (rows_of (found_of matches.now))) }
    ensures workers { IfOk result (λ plan. spec.HasWorkers plan.workers) }
    ensures count { IfOk result (λ plan. spec.HasCount plan.mode) }
{
    let Some(exe) = exe_of(value(matches, "EXE")) else {
        return Err(PlanError::Usage);
    };
    let Some(workers) = workers_of(value(matches, "j")) else {
        return Err(PlanError::Usage);
    };
    let dump_map = is_set(value(matches, "dump-map"));
    let Some(mode) = mode_of(dump_map, value(matches, "generate")) else {
        return Err(PlanError::Usage);
    };
    let out = out_of(alloc, exe, value(matches, "o"))?;
    let exe = text(alloc, exe)?;
    Ok(Plan {
        exe,
        out,
        workers,
        odr: !is_set(value(matches, "no-odr")),
        keep_going: is_set(value(matches, "keep-going")),
        statistics: is_set(value(matches, "statistics")),
        mode,
    })
}

/// The value that an option or the program's word has.
fn value<'a>(matches: &ArgMatches<'a>, id: &str) -> Option<&'a str>
    ensures { option_map (λ value. value.now) result ≡ first_of id.now (rows_of (found_of matches.now)) }
{
    matches.get_str(id)
}

/// The program, which has the name of a file.
fn exe_of<'a>(word: Option<&'a str>) -> Option<&'a str>
    ensures { option_map (λ exe. exe.now) result ≡ spec.exe_of (option_map (λ exe. exe.now) word.entry) }
{
    match word {
        Some(exe) if names_file(exe) => Some(exe),
        _ => None,
    }
}

/// The bundle of a program: the one that is named, which isn't empty, or that beside the program.
fn out_of(alloc: Global, exe: &str, named: Option<&str>) -> Result<String, PlanError>
    ensures { Outs result (spec.out_of exe.now (option_map (λ value. value.now) named.entry)) }
{
    let Some(out) = named else {
        return Ok(beside(alloc, exe)?);
    };
    if out.is_empty() {
        return Err(PlanError::Usage);
    }
    Ok(text(alloc, out)?)
}

/// The bundle beside a program.
fn beside(alloc: Global, exe: &str) -> Result<String, NoMemory>
    ensures { IfOk result (λ out. string_bytes out ≡ exe.now ++ codes ".dSYM") }
{
    let mut out = text(alloc, exe)?;
    out.push_str(".dSYM")?;
    Ok(out)
}

/// A copy of a text.
fn text(alloc: Global, text: &str) -> Result<String, NoMemory>
    ensures { IfOk result (λ made. string_bytes made ≡ text.now) }
{
    Ok(String::from_str(alloc, text)?)
}

/// Whether a flag is among the words: its value is then `true`.
fn is_set(value: Option<&str>) -> bool
    ensures { result ≡ spec.is_set (option_map (λ value. value.now) value.entry) }
{
    match value {
        Some(text) => text == "true",
        None => false,
    }
}

/// The number of workers, which is 4 where none is named.
fn workers_of(named: Option<&str>) -> Option<u32>
    ensures number { result ≡ spec.workers_of (option_map (λ value. value.now) named.entry) }
    ensures workers { IfSome result spec.HasWorkers }
{
    match named {
        Some(text) => number_up_to(64, text),
        None => Some(4),
    }
}

/// The number from 1 to `most` that decimal digits write, without a sign and without a leading zero.
fn number_up_to(most: u32, text: &str) -> Option<u32>
    ensures number { result ≡ spec.number_up_to most text.now }
    ensures within { IfSome result (λ n. (1 ≤ n) × (n ≤ most)) }
{
    let first = text.as_bytes().first();
    if first == Some(&b'+') || first == Some(&b'0') {
        return None;
    }
    match text.parse::<u32>() {
        Ok(number) => up_to(most, number),
        Err(_) => None,
    }
}

/// A number from 1 to `most`.
fn up_to(most: u32, number: u32) -> Option<u32>
    ensures number { result ≡ spec.up_to most number }
    ensures within { IfSome result (λ n. (1 ≤ n) × (n ≤ most)) }
{
    if 1 <= number && number <= most {
        Some(number)
    } else {
        None
    }
}

/// What is done with the program. Nothing is where two modes are asked, or the number of objects is none from 1 to 1000.
fn mode_of(dump_map: bool, generate: Option<&str>) -> Option<Mode>
    ensures mode { result ≡ spec.mode_of dump_map (option_map (λ value. value.now) generate.entry) }
    ensures count { IfSome result spec.HasCount }
{
    let Some(count) = generate else {
        return Some(if dump_map { Mode::Map } else { Mode::Link });
    };
    if dump_map {
        return None;
    }
    match number_up_to(1000, count) {
        Some(count) => Some(Mode::Generate(count)),
        None => None,
    }
}
