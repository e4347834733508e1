//! The programs that a list names.

ghost use Rattle.std.specs.Prelude.{◌≡◌, ◌<◌, ◌≤◌, ◌^◌, length, map, IfOk};
ghost use Rattle.std.specs.List.{slice_split};
ghost use Rattle.std.specs.Option.{option_copied};
ghost use Rattle.stab_map.specs.Origin.{text_in};
ghost use Rattle.batch_list.specs.Lines as spec;
ghost use Rattle.batch_list.specs.Listed.{Adds, Lists, line_seen};

use ds_base::{List, NoMemory};
use link_status::last_part;
use std::alloc::Global;

/// A line of a list that names a program.
#[derive(Clone, Copy)]
pub struct Line<'a> {
    /// Its number: lines are counted from 1, and empty ones are counted.
    pub number: u32,
    /// The program.
    pub exe: &'a str,
}

/// Why a list gives no programs.
#[derive(Clone, Copy, Debug)]
pub enum ListError {
    /// The first line that is not UTF-8, or that neither is empty nor names a program.
    BadLine { line: u32 },
    /// Memory ran out.
    NoMemory,
}

impl From<NoMemory> for ListError {
    ghost use Rattle.std.specs.Prelude.{◌≡◌};
    ghost use Rattle.batch_list.specs.declared.lines.ListError.TheVariants as errors;

    ghost from_gives = { λ _ error. error ≡ errors.NoMemory };

    fn from(_error: NoMemory) -> ListError {
        ListError::NoMemory
    }
}

/// The programs of a list, in the order of its lines: each line that is not empty names one.
///
/// A line ends with a newline or with the list. A program is named by UTF-8 that does not begin with `-` and whose part
/// behind the last slash is neither empty nor `.` or `..`.
pub fn programs_of(alloc: Global, list: &[u8]) -> Result<List<Line<'_>>, ListError>
    requires short { length list.now ≤ 2 ^ 20 }
    ensures { Lists result (spec.programs_of list.now) }
{
    let lines = lines_of(alloc, list)?;
    programs_among(alloc, lines.as_slice())
}

/// The lines of a list.
fn lines_of(alloc: Global, list: &[u8]) -> Result<Vec<&[u8]>, NoMemory>
    ensures { IfOk result (λ lines. map (λ line. line.now) lines.items ≡ slice_split spec.is_newline list.now) }
{
    Ok(list.split(|b| *b == b'\n').collect(alloc)?)
}

/// The programs of these lines of a list.
fn programs_among<'a>(alloc: Global, lines: &[&'a [u8]]) -> Result<List<Line<'a>>, ListError>
    requires few { length lines.now < 2 ^ 32 }
    ensures { Lists result (spec.programs_among (map (λ line. line.now) lines.now)) }
{
    let mut programs = List::new(alloc);
    for (i, line) in lines.iter().enumerate() {
        add_line(&mut programs, i as u32 + 1, line)?;
    }
    Ok(programs)
}

/// Adds the program of a line of this number, where the line is not empty.
fn add_line<'a>(programs: &mut List<Line<'a>>, number: u32, line: &'a [u8]) -> Result<(), ListError>
    ensures { Adds result (map line_seen programs.old) (map line_seen programs.new) (number, line.now) }
{
    if line.is_empty() {
        return Ok(());
    }
    let Some(exe) = program_in(line) else {
        return Err(ListError::BadLine { line: number });
    };
    programs.push(Line { number, exe })?;
    Ok(())
}

/// The program that a line names, if it names one.
fn program_in(line: &[u8]) -> Option<&str>
    ensures { option_copied result ≡ spec.program_in line.now }
{
    let text = as_text(line)?;
    if names_program(text) {
        Some(text)
    } else {
        None
    }
}

/// Bytes as text, where they are UTF-8.
fn as_text(bytes: &[u8]) -> Option<&str>
    ensures { option_copied result ≡ text_in bytes.now }
{
    str::from_utf8(bytes).ok()
}

/// Whether a text names a program: it is no option, and its last part is not empty and not that of a folder.
fn names_program(text: &str) -> bool
    ensures { result ≡ spec.names_program text.now }
{
    let part = last_part(text);
    text.as_bytes().first() != Some(&b'-') && part != "" && part != "." && part != ".."
}
