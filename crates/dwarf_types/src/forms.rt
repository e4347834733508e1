//! Forms of values.

ghost use Rattle.std.specs.Prelude.{◌≡◌};
ghost use Rattle.dwarf_types.specs.Forms;

use ds_base::dwarf::{DW_FORM_flag, DW_FORM_flag_present};

/// Whether a form is that of a flag, which is no constant (DWARF 4, section 7.5.4).
pub fn is_flag(form: u16) -> bool
    ensures { result ≡ Forms.is_flag form }
{
    form == DW_FORM_flag || form == DW_FORM_flag_present
}
