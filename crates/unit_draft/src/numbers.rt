//! Constants, flags and blocks (DWARF 4, section 7.5.4).

ghost use Rattle.std.specs.Prelude.{◌≡◌, ◌++◌, length, OnOk, replicate};
ghost use Rattle.dwarf_types.specs.Values.{block_prefix, number_bytes};
ghost use Rattle.patches.specs.Filling.{Filling, filled};

use ds_base::NoMemory;
use ds_base::dwarf::{
    ADDRESS_SIZE, DW_FORM_block1, DW_FORM_block2, DW_FORM_block4, DW_FORM_data1, DW_FORM_data2,
    DW_FORM_data4, DW_FORM_data8, DW_FORM_flag, DW_FORM_sdata, DW_FORM_udata,
};
use patches::Buffer;

/// The bytes of an address.
pub(crate) const ADDRESS_LEN: usize = ADDRESS_SIZE as usize;

#[tactic(auto, unfolding(dwarf_types::specs::Values::number_bytes))]
pub(crate) fn append_number(out: &mut Buffer, form: u16, bits: u64) -> Result<(), NoMemory>
    ensures { OnOk result ((f : Filling) → filled out.new f ≡ filled out.old f ++ number_bytes form bits) }
{
    match form {
        DW_FORM_data1 => out.extend_lowest(bits, 1),
        DW_FORM_data2 => out.extend_lowest(bits, 2),
        DW_FORM_data4 => out.extend_lowest(bits, 4),
        DW_FORM_data8 => out.extend_lowest(bits, 8),
        DW_FORM_flag => out.extend_lowest(bits, 1),
        DW_FORM_udata => out.extend_uleb(bits),
        DW_FORM_sdata => out.extend_sleb(bits.cast_signed()),
        _ => Ok(()),
    }
}

pub(crate) fn append_block(out: &mut Buffer, form: u16, bytes: &[u8]) -> Result<(), NoMemory>
    ensures { OnOk result ((f : Filling) → filled out.new f ≡ filled out.old f ++ (block_prefix form (length bytes.now) ++ bytes.now)) }
{
    append_block_prefix(out, form, bytes.len() as u64)?;
    out.extend(bytes)?;
    Ok(())
}

#[tactic(auto, unfolding(dwarf_types::specs::Values::block_prefix))]
fn append_block_prefix(out: &mut Buffer, form: u16, len: u64) -> Result<(), NoMemory>
    ensures { OnOk result ((f : Filling) → filled out.new f ≡ filled out.old f ++ block_prefix form len) }
{
    match form {
        DW_FORM_block1 => out.extend_lowest(len, 1),
        DW_FORM_block2 => out.extend_lowest(len, 2),
        DW_FORM_block4 => out.extend_lowest(len, 4),
        _ => out.extend_uleb(len),
    }
}

pub(crate) fn append_zeros(out: &mut Buffer, count: u32) -> Result<(), NoMemory>
    ensures { OnOk result ((f : Filling) → filled out.new f ≡ filled out.old f ++ replicate count 0) }
{
    for _ in 0..count {
        out.push(0)?;
    }
    Ok(())
}
