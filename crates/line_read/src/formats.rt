//! What entries of the tables of directories and files are made of in version 5, as tables from content types and forms
//! (DWARF 5, section 6.2.4.1; section 7.22, table 7.27).

ghost use Rattle.std.specs.Prelude.{◌≡◌};
ghost use Rattle.line_read.specs.Formats;
ghost use Rattle.line_read.specs.Formats.{content_of, form_of};

use ds_base::dwarf::{
    DW_FORM_block, DW_FORM_data1, DW_FORM_data2, DW_FORM_data4, DW_FORM_data8, DW_FORM_data16,
    DW_FORM_line_strp, DW_FORM_string, DW_FORM_strp, DW_FORM_udata, DW_LNCT_MD5,
    DW_LNCT_directory_index, DW_LNCT_path, DW_LNCT_size, DW_LNCT_timestamp,
};

/// Where a text stands.
#[derive(Clone, Copy)]
pub(crate) enum TextForm {
    /// In the entry, ended by a zero byte.
    Inline,
    /// In `__debug_str`, at a place of four bytes.
    Str,
    /// In `__debug_line_str`, at a place of four bytes.
    LineStr,
}

/// How a number is spelled.
#[derive(Clone, Copy)]
pub(crate) enum NumberForm {
    /// In one byte.
    One,
    /// In two bytes, here and below the lowest first.
    Two,
    Four,
    Eight,
    /// As a LEB number without a sign.
    Leb,
}

/// The forms that an entry's values may have.
#[derive(Clone, Copy)]
pub(crate) enum EntryForm {
    Text(TextForm),
    Number(NumberForm),
    /// 16 bytes.
    Wide,
    /// Bytes behind their length, a LEB number.
    Block,
}

/// A value of an entry: what it tells, and its form.
#[derive(Clone, Copy)]
pub(crate) enum EntryItem {
    Path(TextForm),
    Directory(NumberForm),
    Timestamp(NumberForm),
    /// A time that is a block, of which the standard says nothing.
    TimestampBlock,
    Size(NumberForm),
    /// The MD5 digest, in 16 bytes.
    Digest,
    /// A content that is not known here, and passed over.
    Other(EntryForm),
}

/// The value of a content type and a form, or `None` where the content may not have the form.
pub(crate) fn item_of(content: u64, form: u64) -> Option<EntryItem>
    ensures { result ≡ Formats.item_of content form }
{
    match form_in(form) {
        Some(form) => content_in(content, form),
        None => None,
    }
}

/// Whether a value is a path.
pub(crate) fn is_path(item: EntryItem) -> bool
    ensures { result ≡ Formats.is_path item }
{
    match item {
        EntryItem::Path(_) => true,
        _ => false,
    }
}

/// The form of a number, or `None` where no content may have it.
#[tactic(auto, unfolding(crate::specs::Formats::form_of))]
fn form_in(form: u64) -> Option<EntryForm>
    ensures { result ≡ form_of form }
{
    if form == u64::from(DW_FORM_string) {
        Some(EntryForm::Text(TextForm::Inline))
    } else if form == u64::from(DW_FORM_strp) {
        Some(EntryForm::Text(TextForm::Str))
    } else if form == u64::from(DW_FORM_line_strp) {
        Some(EntryForm::Text(TextForm::LineStr))
    } else if form == u64::from(DW_FORM_data1) {
        Some(EntryForm::Number(NumberForm::One))
    } else if form == u64::from(DW_FORM_data2) {
        Some(EntryForm::Number(NumberForm::Two))
    } else if form == u64::from(DW_FORM_data4) {
        Some(EntryForm::Number(NumberForm::Four))
    } else if form == u64::from(DW_FORM_data8) {
        Some(EntryForm::Number(NumberForm::Eight))
    } else if form == u64::from(DW_FORM_udata) {
        Some(EntryForm::Number(NumberForm::Leb))
    } else if form == u64::from(DW_FORM_data16) {
        Some(EntryForm::Wide)
    } else if form == u64::from(DW_FORM_block) {
        Some(EntryForm::Block)
    } else {
        None
    }
}

/// The value of a content type in a form.
#[tactic(auto, unfolding(crate::specs::Formats::content_of))]
fn content_in(content: u64, form: EntryForm) -> Option<EntryItem>
    ensures { result ≡ content_of content form }
{
    if content == u64::from(DW_LNCT_path) {
        path_in(form)
    } else if content == u64::from(DW_LNCT_directory_index) {
        directory_in(form)
    } else if content == u64::from(DW_LNCT_timestamp) {
        timestamp_in(form)
    } else if content == u64::from(DW_LNCT_size) {
        size_in(form)
    } else if content == u64::from(DW_LNCT_MD5) {
        digest_in(form)
    } else {
        Some(EntryItem::Other(form))
    }
}

/// A path is a text.
fn path_in(form: EntryForm) -> Option<EntryItem>
    ensures { result ≡ Formats.path_in form }
{
    match form {
        EntryForm::Text(form) => Some(EntryItem::Path(form)),
        _ => None,
    }
}

/// The number of a directory has one byte, two bytes or as many as it needs.
fn directory_in(form: EntryForm) -> Option<EntryItem>
    ensures { result ≡ Formats.directory_in form }
{
    match form {
        EntryForm::Number(NumberForm::One) => Some(EntryItem::Directory(NumberForm::One)),
        EntryForm::Number(NumberForm::Two) => Some(EntryItem::Directory(NumberForm::Two)),
        EntryForm::Number(NumberForm::Leb) => Some(EntryItem::Directory(NumberForm::Leb)),
        _ => None,
    }
}

/// A time has four bytes, eight bytes or as many as it needs, or is a block.
fn timestamp_in(form: EntryForm) -> Option<EntryItem>
    ensures { result ≡ Formats.timestamp_in form }
{
    match form {
        EntryForm::Number(NumberForm::Leb) => Some(EntryItem::Timestamp(NumberForm::Leb)),
        EntryForm::Number(NumberForm::Four) => Some(EntryItem::Timestamp(NumberForm::Four)),
        EntryForm::Number(NumberForm::Eight) => Some(EntryItem::Timestamp(NumberForm::Eight)),
        EntryForm::Block => Some(EntryItem::TimestampBlock),
        _ => None,
    }
}

/// A size is a number.
fn size_in(form: EntryForm) -> Option<EntryItem>
    ensures { result ≡ Formats.size_in form }
{
    match form {
        EntryForm::Number(form) => Some(EntryItem::Size(form)),
        _ => None,
    }
}

/// A digest has 16 bytes.
fn digest_in(form: EntryForm) -> Option<EntryItem>
    ensures { result ≡ Formats.digest_in form }
{
    match form {
        EntryForm::Wide => Some(EntryItem::Digest),
        _ => None,
    }
}
