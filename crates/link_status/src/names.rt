//! The names of a bundle's files.

ghost use Rattle.std.specs.Prelude.{◌≡◌, ◌++◌, IfOk};
ghost use Rattle.std.specs.String.{string_bytes};
ghost use Rattle.link_status.specs.Names as spec;

use ds_base::NoMemory;
use std::alloc::Global;

/// The part of a path behind its last slash, or all of it.
pub fn last_part(path: &str) -> &str
    ensures { result.now ≡ spec.last_part path.now }
{
    match path.rsplit_once('/') {
        Some((_folder, part)) => part,
        None => path,
    }
}

/// The name of the property list in a bundle: in `tool.dSYM` it is `tool.dSYM/Contents/Info.plist`.
pub fn plist_name(alloc: Global, out: &str) -> Result<String, NoMemory>
    ensures { IfOk result (λ name. string_bytes name ≡ spec.plist_name out.now) }
{
    joined(alloc, out, "/Contents/Info.plist")
}

/// The name of the image in the bundle of a program: in `tool.dSYM`, for `bin/tool`, it is
/// `tool.dSYM/Contents/Resources/DWARF/tool`.
pub fn image_name(alloc: Global, out: &str, exe: &str) -> Result<String, NoMemory>
    ensures { IfOk result (λ name. string_bytes name ≡ spec.image_name out.now exe.now) }
{
    let mut name = joined(alloc, out, "/Contents/Resources/DWARF/")?;
    name.push_str(last_part(exe))?;
    Ok(name)
}

/// Two texts, one behind the other.
fn joined(alloc: Global, first: &str, second: &str) -> Result<String, NoMemory>
    ensures { IfOk result (λ name. string_bytes name ≡ first.now ++ second.now) }
{
    let mut name = String::from_str(alloc, first)?;
    name.push_str(second)?;
    Ok(name)
}
