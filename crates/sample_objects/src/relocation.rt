//! Relocations (mach-o/reloc.h, `relocation_info`).

ghost use Rattle.std.specs.Prelude.{◌≡◌, ◌<◌, ◌^◌, ◌++◌, OnOk};
ghost use Rattle.std.specs.List.{All};
ghost use Rattle.macho_read.specs.Spelling.{spelled};
ghost use Rattle.sample_objects.specs.ObjectFile;
ghost use Rattle.sample_objects.specs.ObjectFile.{relocs_bytes, reloc_fields};

use ds_base::macho::RELOC_LENGTH_8;
use ds_base::{Bytes, NoMemory};
use macho_write::append_words;
use reloc_table::Reloc;

/// Puts relocations last, in their order.
pub(crate) fn append_relocs(out: &mut Bytes, relocs: &[Reloc]) -> Result<(), NoMemory>
    requires { All (λ r. r.symbol < 2 ^ 24) relocs.now }
    ensures { OnOk result (out.new ≡ out.old ++ relocs_bytes relocs.now) }
{
    for reloc in relocs {
        append_reloc(out, *reloc)?;
    }
    Ok(())
}

/// Puts a relocation of a number of eight bytes last.
fn append_reloc(out: &mut Bytes, reloc: Reloc) -> Result<(), NoMemory>
    requires { reloc.symbol < 2 ^ 24 }
    ensures { OnOk result (out.new ≡ out.old ++ spelled (reloc_fields reloc)) }
{
    let info = u64::from(reloc.symbol) + (u64::from(RELOC_LENGTH_8) << 25) + extern_bit(reloc);
    append_words(out, &[u128::from(reloc.place), u128::from(info)])
}

/// The bit that says that a symbol is named, and not a section.
fn extern_bit(reloc: Reloc) -> u64
    ensures { result ≡ ObjectFile.extern_bit reloc }
{
    if reloc.outer { 1 << 27 } else { 0 }
}
