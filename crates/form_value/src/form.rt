//! The forms of attribute values, as one table from their numbers (DWARF 5, section 7.5.6, table 7.6).

ghost use Rattle.std.specs.Prelude.{◌≡◌};
ghost use Rattle.form_value.specs.Forms.{form_row, since_4, since_5};

use ds_base::dwarf::{
    DW_FORM_addr, DW_FORM_addrx, DW_FORM_addrx1, DW_FORM_addrx2, DW_FORM_addrx3, DW_FORM_addrx4,
    DW_FORM_block, DW_FORM_block1, DW_FORM_block2, DW_FORM_block4, DW_FORM_data1, DW_FORM_data2,
    DW_FORM_data4, DW_FORM_data8, DW_FORM_data16, DW_FORM_exprloc, DW_FORM_flag,
    DW_FORM_flag_present, DW_FORM_implicit_const, DW_FORM_indirect, DW_FORM_line_strp,
    DW_FORM_loclistx, DW_FORM_ref_addr, DW_FORM_ref_sig8, DW_FORM_ref_sup4, DW_FORM_ref_sup8,
    DW_FORM_ref_udata, DW_FORM_ref1, DW_FORM_ref2, DW_FORM_ref4, DW_FORM_ref8, DW_FORM_rnglistx,
    DW_FORM_sdata, DW_FORM_sec_offset, DW_FORM_string, DW_FORM_strp, DW_FORM_strp_sup,
    DW_FORM_strx, DW_FORM_strx1, DW_FORM_strx2, DW_FORM_strx3, DW_FORM_strx4, DW_FORM_udata,
};

/// How a number without a sign is spelled.
#[derive(Clone, Copy)]
pub enum Coding {
    /// In one byte.
    One,
    /// In two bytes, here and below the lowest first.
    Two,
    Three,
    Four,
    Eight,
    /// As a LEB number (DWARF 4, section 7.6).
    Leb,
}

/// How the values of a form are spelled, and what they are.
#[derive(Clone, Copy)]
pub enum FormClass {
    /// An address of eight bytes.
    Address,
    /// A text, ended by a zero byte.
    Text,
    /// The place of a text in `__debug_str`, in four bytes.
    StrText,
    /// The place of a text in `__debug_line_str`, in four bytes.
    LineStrText,
    /// A constant or a flag.
    Number(Coding),
    /// A constant with a sign, as a LEB number.
    Signed,
    /// A flag that is there, in no bytes.
    Present,
    /// A constant that stands in the abbreviation table, in no bytes.
    Implicit,
    /// A constant of 16 bytes.
    Wide,
    /// Bytes behind their length, of which this is the coding.
    Block(Coding),
    /// A reference, an offset into a section, or an index into a table.
    Offset(Coding),
    /// A form that this project does not read.
    Outside,
}

/// What the standard says of a form.
#[derive(Clone, Copy)]
pub struct FormRow {
    /// The least version of a unit that may use the form; 4 stands for it and all before.
    pub since: u16,
    pub class: FormClass,
}

/// The row of a form, or `None` where the standard has no such form.
///
/// Sections: DWARF 4, section 7.5.4 and figure 21, for the forms up to `DW_FORM_ref_sig8`; DWARF 5,
/// section 7.5.6 and table 7.6, for all. The forms of type units, of supplementary files and the
/// indirect form are outside of this project's profile.
#[tactic(auto, unfolding(crate::specs::Forms::form_row))]
pub(crate) fn form_class(form: u16) -> Option<FormRow>
    ensures { result ≡ form_row form }
{
    match form {
        DW_FORM_addr => old(FormClass::Address),
        DW_FORM_string => old(FormClass::Text),
        DW_FORM_strp => old(FormClass::StrText),
        DW_FORM_line_strp => new(FormClass::LineStrText),
        DW_FORM_data1 | DW_FORM_flag => old(FormClass::Number(Coding::One)),
        DW_FORM_data2 => old(FormClass::Number(Coding::Two)),
        DW_FORM_data4 => old(FormClass::Number(Coding::Four)),
        DW_FORM_data8 => old(FormClass::Number(Coding::Eight)),
        DW_FORM_udata => old(FormClass::Number(Coding::Leb)),
        DW_FORM_sdata => old(FormClass::Signed),
        DW_FORM_flag_present => old(FormClass::Present),
        DW_FORM_implicit_const => new(FormClass::Implicit),
        DW_FORM_data16 => new(FormClass::Wide),
        DW_FORM_block1 => old(FormClass::Block(Coding::One)),
        DW_FORM_block2 => old(FormClass::Block(Coding::Two)),
        DW_FORM_block4 => old(FormClass::Block(Coding::Four)),
        DW_FORM_block | DW_FORM_exprloc => old(FormClass::Block(Coding::Leb)),
        DW_FORM_ref1 => old(FormClass::Offset(Coding::One)),
        DW_FORM_ref2 => old(FormClass::Offset(Coding::Two)),
        DW_FORM_ref4 | DW_FORM_ref_addr | DW_FORM_sec_offset => {
            old(FormClass::Offset(Coding::Four))
        }
        DW_FORM_ref8 => old(FormClass::Offset(Coding::Eight)),
        DW_FORM_ref_udata => old(FormClass::Offset(Coding::Leb)),
        DW_FORM_addrx1 | DW_FORM_strx1 => new(FormClass::Offset(Coding::One)),
        DW_FORM_addrx2 | DW_FORM_strx2 => new(FormClass::Offset(Coding::Two)),
        DW_FORM_addrx3 | DW_FORM_strx3 => new(FormClass::Offset(Coding::Three)),
        DW_FORM_addrx4 | DW_FORM_strx4 => new(FormClass::Offset(Coding::Four)),
        DW_FORM_addrx | DW_FORM_strx | DW_FORM_loclistx | DW_FORM_rnglistx => {
            new(FormClass::Offset(Coding::Leb))
        }
        DW_FORM_indirect => old(FormClass::Outside),
        DW_FORM_ref_sig8 => old(FormClass::Outside),
        DW_FORM_ref_sup4 | DW_FORM_strp_sup | DW_FORM_ref_sup8 => old(FormClass::Outside),
        _ => None,
    }
}

/// The row of a form of DWARF 4.
fn old(class: FormClass) -> Option<FormRow>
    ensures { result ≡ since_4 class }
{
    Some(FormRow { since: 4, class })
}

/// The row of a form that DWARF 5 has first.
fn new(class: FormClass) -> Option<FormRow>
    ensures { result ≡ since_5 class }
{
    Some(FormRow { since: 5, class })
}
