//! The numbers of source files.

ghost use Rattle.std.specs.Prelude.{◌≡◌};
ghost use Rattle.std.specs.Option.{option_map};
ghost use Rattle.clone_values.specs.Files.{number_in};
ghost use Rattle.dwarf_types.specs.declared.graph.OutValue.TheVariants as out;
ghost use Rattle.unit_source.specs.Given.{value_given};

use ds_base::dwarf::DW_FORM_udata;
use unit_source::OutValueRef;

/// How an output unit numbers the source files of an entry that it has.
#[derive(Clone, Copy)]
pub enum Files<'a> {
    /// As the entry's own unit does: it has that unit's line table.
    Own,
    /// By other numbers, each at the number that the entry's unit has; none where its line table lacks that file.
    Others(&'a [Option<u64>]),
}

/// A number of a source file, where it has another.
pub(crate) fn renumbered<'a>(numbers: &[Option<u64>], n: u64) -> Option<OutValueRef<'a>>
    ensures { option_map value_given result ≡ option_map (λ m. out.Number DW_FORM_udata m) (number_in numbers.now n) }
{
    let number = number_in(numbers, n)?;
    Some(OutValueRef::Number {
        form: DW_FORM_udata,
        bits: number,
    })
}

fn number_in(numbers: &[Option<u64>], n: u64) -> Option<u64>
    ensures { result ≡ number_in numbers.now n }
{
    let index = usize::try_from(n).ok()?;
    *numbers.get(index)?
}
