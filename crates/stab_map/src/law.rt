//! The laws of why there is no map, and of the files that a map names.

ghost use Rattle.std.specs.Prelude.{◌≡◌, List as Listed, map, Ok, Err};
ghost use Rattle.std.specs.List.{filter_map};
ghost use Rattle.macho_read.specs.declared.image.Image.{Image};
ghost use Rattle.stab_map.specs.declared.object.MapError.{MapError};
ghost use Rattle.stab_map.specs.declared.object.MapObject.{MapObject};
ghost use Rattle.stab_map.specs.DebugMap.{IsRefusal, map_of};
ghost use Rattle.stab_map.specs.Origin.{opened_file};

/// Where a program has no map, there is a fault of two kinds, or there are too many objects.
pub fn kinds_of_map_faults()
    ensures { (image : Image) (error : MapError) → map_of image ≡ Err error → IsRefusal error }
{}

/// Where a program has a map, the files that its symbols open are those of the map's objects, in the same order.
pub fn opened_files_are_those_of_the_map()
    ensures { (image : Image) (objects : Listed MapObject) → map_of image ≡ Ok objects → filter_map opened_file image.symbols ≡ map (λ object. object.file) objects }
{}
