//! The directories and files of version 4 (DWARF 4, section 6.2.4), whose texts stand in the table.

ghost use Rattle.std.specs.Prelude.{◌≡◌, ◌++◌, OnOk};
ghost use Rattle.std.specs.List.{flat_map};
ghost use Rattle.ds_base.specs.Texts.{ended};
ghost use Rattle.dwarf_types.specs.LineTable.{file_bytes, tables_bytes};
ghost use Rattle.dwarf_types.specs.SeenLines.{file_seen};
ghost use Rattle.patches.specs.Filling.{Filling, filled};

use ds_base::NoMemory;
use dwarf_types::{FileNameRef, FileNames, OutLines, Paths};
use patches::Buffer;

/// Puts last the directories and the files, each table ended by an empty text.
pub(crate) fn append_tables(out: &mut Buffer, lines: &OutLines) -> Result<(), NoMemory>
    ensures { OnOk result ((f : Filling) → filled out.new f ≡ filled out.old f ++ tables_bytes lines.now) }
{
    append_dirs(out, &lines.dirs)?;
    out.push(0)?;
    append_files(out, &lines.files)?;
    out.push(0)?;
    Ok(())
}

/// Puts the directories last.
fn append_dirs(out: &mut Buffer, dirs: &Paths) -> Result<(), NoMemory>
    ensures { OnOk result ((f : Filling) → filled out.new f ≡ filled out.old f ++ flat_map ended dirs.now) }
{
    for i in 0..dirs.len() {
        append_text(out, dirs.path(i))?;
    }
    Ok(())
}

/// Puts the files last.
fn append_files(out: &mut Buffer, files: &FileNames) -> Result<(), NoMemory>
    ensures { OnOk result ((f : Filling) → filled out.new f ≡ filled out.old f ++ flat_map file_bytes files.now) }
{
    for i in 0..files.len() {
        append_file(out, files.file(i))?;
    }
    Ok(())
}

/// Puts a file last: its path, the number of its directory, when it was changed, and its size.
fn append_file(out: &mut Buffer, file: FileNameRef<'_>) -> Result<(), NoMemory>
    ensures { OnOk result ((f : Filling) → filled out.new f ≡ filled out.old f ++ file_bytes (file_seen file.entry)) }
{
    append_text(out, file.name)?;
    out.extend_uleb(file.dir)?;
    out.extend_uleb(file.time)?;
    out.extend_uleb(file.size)?;
    Ok(())
}

/// Puts a text last, which a zero byte ends.
fn append_text(out: &mut Buffer, text: &[u8]) -> Result<(), NoMemory>
    ensures { OnOk result ((f : Filling) → filled out.new f ≡ filled out.old f ++ ended text.now) }
{
    out.extend(text)?;
    out.push(0)?;
    Ok(())
}
