//! What the definition of an analysis says of its faults.

ghost use Rattle.std.specs.Prelude.{◌≡◌, ℕ, List as Listed, Err};
ghost use Rattle.std.specs.List.{Contains};
ghost use Rattle.ds_base.specs.declared.fault.Fault.{Fault};
ghost use Rattle.stab_map.specs.declared.object.MapObject.{MapObject};
ghost use Rattle.object_view.specs.Analysis.{analysis_of};
ghost use Rattle.object_view.specs.Faults.{object_kinds};

use expr_resolve::kinds_of_expression_faults;
use frame_table::kinds_of_frame_faults;
use line_read::kinds_of_line_faults;
use loc_lists::kinds_of_location_faults;
use macho_read::{kinds_of_image_faults, kinds_of_section_faults};
use range_lists::kinds_of_range_faults;
use reloc_table::kinds_of_reloc_faults;
use unit_tree::kinds_of_unit_faults;

/// Each fault of an object is of one of its kinds (`specs/Faults.antt`), by the laws of the readers of its parts.
pub fn kinds_of_object_faults()
    ensures { (bytes : Listed ℕ) (object : MapObject) (cpu : ℕ) (f : Fault) → analysis_of bytes object cpu ≡ Err f → Contains object_kinds f.kind }
{
    kinds_of_image_faults();
    kinds_of_section_faults();
    kinds_of_reloc_faults();
    kinds_of_unit_faults();
    kinds_of_expression_faults();
    kinds_of_line_faults();
    kinds_of_range_faults();
    kinds_of_location_faults();
    kinds_of_frame_faults();
}
