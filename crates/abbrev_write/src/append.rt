//! A table in bytes (DWARF 4, section 7.5.3).

ghost use Rattle.std.specs.Prelude.{◌≡◌, ◌++◌, ℕ, OnOk, if◌then◌else◌};
ghost use Rattle.std.specs.List.{flat_map};
ghost use Rattle.ds_base.specs.Leb.{uleb};
ghost use Rattle.dwarf_types.specs.Abbreviations.{declaration_bytes, declarations_bytes};
ghost use Rattle.abbrev_write.specs.Keys.{all_declared, declared_by};

use crate::declarations::Declared;
use crate::key::Key;
use appending::append_uleb;
use ds_base::{Bytes, NoMemory};

/// Puts the table of the declarations last: each with its code, and the zero byte that ends them.
pub fn append_table(out: &mut Bytes, declared: &Declared) -> Result<(), NoMemory>
    ensures { OnOk result (out.new ≡ out.old ++ declarations_bytes declared.now) }
{
    append_declarations(out, declared.as_slice())?;
    Ok(())
}

/// Puts declarations last, with the codes from 1, and what ends them.
fn append_declarations(out: &mut Bytes, declarations: &[Key]) -> Result<(), NoMemory>
    ensures { OnOk result (out.new ≡ out.old ++ declarations_bytes (all_declared declarations.now)) }
{
    for (i, declared) in declarations.iter().enumerate() {
        append_declaration(out, i as u64 + 1, declared)?;
    }
    out.push(0)?;
    Ok(())
}

/// Puts a declaration last, with its code.
fn append_declaration(out: &mut Bytes, code: u64, declared: &Key) -> Result<(), NoMemory>
    ensures { OnOk result (out.new ≡ out.old ++ declaration_bytes code (declared_by declared.now)) }
{
    append_uleb(out, code)?;
    append_uleb(out, u64::from(declared.tag))?;
    out.push(children_byte(declared.children))?;
    append_pairs(out, declared.attributes.as_slice())?;
    out.extend(&[0, 0])?;
    Ok(())
}

/// `DW_CHILDREN_yes` or `DW_CHILDREN_no`.
fn children_byte(children: bool) -> u8
    ensures { result ≡ (if children then 1 else 0) }
{
    if children { 1 } else { 0 }
}

/// Puts pairs of name and form last.
fn append_pairs(out: &mut Bytes, pairs: &[(u16, u16)]) -> Result<(), NoMemory>
    ensures { OnOk result (out.new ≡ out.old ++ flat_map (λ (p : ℕ × ℕ). uleb p.0 ++ uleb p.1) pairs.now) }
{
    for (name, form) in pairs {
        append_uleb(out, u64::from(*name))?;
        append_uleb(out, u64::from(*form))?;
    }
    Ok(())
}
