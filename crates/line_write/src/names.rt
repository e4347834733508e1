//! The directories and files of version 5 (DWARF 5, section 6.2.4.1), whose texts stand in `__debug_line_str`.

ghost use Rattle.std.specs.Prelude.{◌≡◌, ◌++◌, ◌∷◌, [], if◌then◌else◌, is_some, map, OnOk};
ghost use Rattle.std.specs.List.{flat_map, list_all};
ghost use Rattle.std.specs.Option.{option_copied, unwrap_or};
ghost use Rattle.byteorder.specs.Endian.{little_bytes};
ghost use Rattle.ds_base.specs.Leb.{uleb};
ghost use Rattle.dwarf_types.specs.LineTable.{digest_bytes, digest_format, directories_bytes, directory_entry, directory_format, entries_bytes, file_entry, file_format, files_bytes, format, have_digests};
ghost use Rattle.dwarf_types.specs.SeenLines.{file_seen};
ghost use Rattle.line_write.specs.Named.{AppendsNamed};
ghost use Rattle.patches.specs.Filling.{Filling, filled};

use ds_base::NoMemory;
use ds_base::dwarf::{
    DW_FORM_data16, DW_FORM_line_strp, DW_FORM_udata, DW_LNCT_MD5, DW_LNCT_directory_index,
    DW_LNCT_path, DW_LNCT_size, DW_LNCT_timestamp,
};
use dwarf_types::{FileNameRef, FileNames, OutLines, Paths};
use patches::{Buffer, Outer};
use text_pool::Naming;

/// How many content types a directory has.
const DIRECTORY_CONTENT_TYPES: u8 = 1;

/// How many content types a file has without a digest.
const FILE_CONTENT_TYPES: u8 = 4;

/// How many content types a file has with its digest.
const DIGESTED_FILE_CONTENT_TYPES: u8 = FILE_CONTENT_TYPES + 1;

/// Puts the directories and the files last, and their texts among those with numbers.
pub(crate) fn append_entries<'a>(
    out: &mut Buffer,
    names: &mut Naming<'a>,
    lines: &'a OutLines,
) -> Result<(), NoMemory>
    ensures { OnOk result (AppendsNamed out.old out.new names.old names.new (λ text. entries_bytes text lines.now) (lines.now.dirs ++ map (λ file. file.name) lines.now.files)) }
{
    append_directories(out, names, &lines.dirs)?;
    append_files(out, names, &lines.files)?;
    Ok(())
}

// ---- directories

/// Puts last directory_entry_format, directories_count and the directories.
fn append_directories<'a>(
    out: &mut Buffer,
    names: &mut Naming<'a>,
    dirs: &'a Paths,
) -> Result<(), NoMemory>
    ensures { OnOk result (AppendsNamed out.old out.new names.old names.new (λ text. directories_bytes text dirs.now) dirs.now) }
{
    append_directory_format(out)?;
    out.extend_uleb(dirs.len() as u64)?;
    append_each_directory(out, names, dirs)?;
    Ok(())
}

/// Puts last what a directory has: its path.
fn append_directory_format(out: &mut Buffer) -> Result<(), NoMemory>
    ensures { OnOk result ((f : Filling) → filled out.new f ≡ filled out.old f ++ directory_format) }
{
    out.push(DIRECTORY_CONTENT_TYPES)?;
    append_format(out, DW_LNCT_path, DW_FORM_line_strp)?;
    Ok(())
}

/// Puts the directories last.
fn append_each_directory<'a>(
    out: &mut Buffer,
    names: &mut Naming<'a>,
    dirs: &'a Paths,
) -> Result<(), NoMemory>
    ensures { OnOk result (AppendsNamed out.old out.new names.old names.new (λ text. flat_map (directory_entry text) dirs.now) dirs.now) }
{
    for i in 0..dirs.len() {
        append_place(out, names, dirs.path(i))?;
    }
    Ok(())
}

// ---- files

/// Puts last file_name_entry_format, file_names_count and the files.
fn append_files<'a>(
    out: &mut Buffer,
    names: &mut Naming<'a>,
    files: &'a FileNames,
) -> Result<(), NoMemory>
    ensures { OnOk result (AppendsNamed out.old out.new names.old names.new (λ text. files_bytes text files.now) (map (λ file. file.name) files.now)) }
{
    let digests = are_with_digests(files);
    append_file_format(out, digests)?;
    out.extend_uleb(files.len() as u64)?;
    append_each_file(out, names, digests, files)?;
    Ok(())
}

/// Whether digests are written: there is a file, and each has one.
fn are_with_digests(files: &FileNames) -> bool
    ensures { result ≡ have_digests files.now }
{
    files.len() != 0 && each_has_digest(files)
}

/// Whether no file is without a digest.
fn each_has_digest(files: &FileNames) -> bool
    ensures { result ≡ list_all (λ file. is_some file.digest) files.now }
{
    for i in 0..files.len() {
        if files.file(i).digest.is_none() {
            return false;
        }
    }
    true
}

/// Puts last what a file has: its path, the number of its directory, when it was changed, its size, and its digest.
fn append_file_format(out: &mut Buffer, digests: bool) -> Result<(), NoMemory>
    ensures { OnOk result ((f : Filling) → filled out.new f ≡ filled out.old f ++ file_format digests) }
{
    out.push(pairs_in(digests))?;
    append_format(out, DW_LNCT_path, DW_FORM_line_strp)?;
    append_format(out, DW_LNCT_directory_index, DW_FORM_udata)?;
    append_format(out, DW_LNCT_timestamp, DW_FORM_udata)?;
    append_format(out, DW_LNCT_size, DW_FORM_udata)?;
    append_digest_format(out, digests)?;
    Ok(())
}

/// How many content types a file has.
fn pairs_in(digests: bool) -> u8
    ensures { result ≡ (if digests then 5 else 4) }
{
    if digests {
        DIGESTED_FILE_CONTENT_TYPES
    } else {
        FILE_CONTENT_TYPES
    }
}

/// Puts last that a file has its digest, where digests are written.
fn append_digest_format(out: &mut Buffer, digests: bool) -> Result<(), NoMemory>
    ensures { OnOk result ((f : Filling) → filled out.new f ≡ filled out.old f ++ digest_format digests) }
{
    if digests {
        append_format(out, DW_LNCT_MD5, DW_FORM_data16)?;
    }
    Ok(())
}

/// Puts the files last.
fn append_each_file<'a>(
    out: &mut Buffer,
    names: &mut Naming<'a>,
    digests: bool,
    files: &'a FileNames,
) -> Result<(), NoMemory>
    ensures { OnOk result (AppendsNamed out.old out.new names.old names.new (λ text. flat_map (file_entry text digests) files.now) (map (λ file. file.name) files.now)) }
{
    for i in 0..files.len() {
        append_file(out, names, digests, files.file(i))?;
    }
    Ok(())
}

/// Puts a file last.
fn append_file<'a>(
    out: &mut Buffer,
    names: &mut Naming<'a>,
    digests: bool,
    file: FileNameRef<'a>,
) -> Result<(), NoMemory>
    ensures { OnOk result (AppendsNamed out.old out.new names.old names.new (λ text. file_entry text digests (file_seen file.entry)) (file.entry.name.now ∷ [])) }
{
    append_place(out, names, file.name)?;
    append_numbers(out, digests, file)?;
    Ok(())
}

/// Puts last what follows the path of a file.
fn append_numbers(out: &mut Buffer, digests: bool, file: FileNameRef<'_>) -> Result<(), NoMemory>
    ensures { OnOk result ((f : Filling) → filled out.new f ≡ filled out.old f ++ (uleb file.entry.dir ++ (uleb file.entry.time ++ (uleb file.entry.size ++ digest_bytes digests (file_seen file.entry))))) }
{
    out.extend_uleb(file.dir)?;
    out.extend_uleb(file.time)?;
    out.extend_uleb(file.size)?;
    append_digest(out, digests, file.digest)?;
    Ok(())
}

/// Puts a digest last, where digests are written.
fn append_digest(out: &mut Buffer, digests: bool, digest: Option<&[u8]>) -> Result<(), NoMemory>
    ensures { OnOk result ((f : Filling) → filled out.new f ≡ filled out.old f ++ (if digests then unwrap_or (option_copied digest.entry) [] else [])) }
{
    if !digests {
        return Ok(());
    }
    match digest {
        Some(bytes) => out.extend(bytes),
        None => Ok(()),
    }
}

// ---- both

/// Puts a content type and its form last.
fn append_format(out: &mut Buffer, content: u16, form: u16) -> Result<(), NoMemory>
    ensures { OnOk result ((f : Filling) → filled out.new f ≡ filled out.old f ++ format content form) }
{
    out.extend_uleb(u64::from(content))?;
    out.extend_uleb(u64::from(form))?;
    Ok(())
}

/// Puts the place of a text last.
fn append_place<'a>(
    out: &mut Buffer,
    names: &mut Naming<'a>,
    text: &'a [u8],
) -> Result<(), NoMemory>
    ensures { OnOk result (AppendsNamed out.old out.new names.old names.new (λ place. little_bytes 4 (place text.now)) (text.now ∷ [])) }
{
    let number = names.number_of(text)?;
    out.leave(Outer::LineText(number))?;
    Ok(())
}
