//! The pool's unit: a root, the nodes of merged entries, and a line table with the files that they name.

ghost use Rattle.std.specs.Prelude.{◌≡◌, ◌<◌, ◌++◌, ◌∷◌, List as Listed, Some, All, drop, length, map, slice_get, IfOk, OnOk};
ghost use Rattle.std.specs.List.{filter_map};
ghost use Rattle.clone_units.specs.Sourced.{ArePooled, IsMadeFor, IsPooled, files_seen, image_in, numbers_of_all, source_seen};
ghost use Rattle.link_graph.specs.Graph.{files_of, pool_node, pool_root_node, pool_unit};
ghost use Rattle.link_graph.specs.PoolFiles.{SourceFile};
ghost use Rattle.unit_source.specs.Given.{attr_given, node_given};

use crate::entry_sources::source_of;
use crate::file_table::table_of;
use crate::nodes::{origin_at, row_of};
use crate::source_files::files_of;
use crate::source_numbers::{numbers_at, numbers_of_all};
use clone_values::{Files, add_attrs};
use ds_base::dwarf::{
    DW_AT_language, DW_AT_name, DW_AT_stmt_list, DW_FORM_data2, DW_LANG_C_plus_plus,
    DW_TAG_compile_unit,
};
use ds_base::{List, NoMemory};
use dwarf_types::{Analysis, Origin, OutLines, Span, Target};
use std::alloc::Global;
use std::marker::Model;
use unit_source::{NodeHead, OutAttrRef, OutValueRef, UnitSource};

/// The unit of merged entries, which contracts see as the unit that is written.
#[derive(Drop)]
pub struct PoolClone<'a> {
    version: u16,
    seen: &'a [Analysis],
    /// Of each object, where references to its entries lead, entry by entry.
    images: &'a [List<Option<Target>>],
    /// The root, and behind it the entries for which the other nodes stand.
    origins: &'a [Origin],
    /// The numbers of the files of all units of all objects.
    numbers: List<List<List<Option<u64>>>>,
    lines: OutLines,
    /// Empty: it has no code.
    ranges: List<Span>,
}

impl<'a> Model for PoolClone<'a> {
    ghost use Rattle.dwarf_types.specs.declared.graph.OutUnit.{OutUnit as AUnit};

    ghost Value = { AUnit };

    ghost use Rattle.clone_units.specs.Sourced.{ArePooled, IsMadeFor, image_in};
    ghost use Rattle.link_graph.specs.Graph.{pool_unit};

    ghost view = { λ c. pool_unit (image_in c.images.now) c.seen.now c.version c.origins.now };

    ghost invariant = { λ c. ArePooled c.seen.now c.images.now c.origins.now × IsMadeFor c.seen.now c.version c.origins.now c.numbers c.lines c.ranges };
}

impl<'a> PoolClone<'a> {
    /// The unit of merged entries in a version: its root, and behind it the nodes that stand for entries.
    pub(crate) fn new(
        alloc: Global,
        seen: &'a [Analysis],
        images: &'a [List<Option<Target>>],
        version: u16,
        origins: &'a [Origin],
    ) -> Result<PoolClone<'a>, NoMemory>
        requires { ArePooled seen.now images.now origins.now }
        ensures { IfOk result (λ it. it ≡ pool_unit (image_in images.now) seen.now version origins.now) }
    {
        let files = files_of(alloc, seen, below_root(origins))?;
        let numbers = numbers_of_all(alloc, &files, seen)?;
        let lines = table_of(alloc, version, &files)?;
        Ok(PoolClone {
            version,
            seen,
            images,
            origins,
            numbers,
            lines,
            ranges: List::new(alloc),
        })
    }
}

impl<'a> UnitSource for PoolClone<'a> {
    ghost unit = { λ unit. unit };

    fn version(&self) -> u16 {
        self.version
    }

    fn len(&self) -> usize {
        self.origins.len()
    }

    fn parent(&self, k: usize) -> Option<u32> {
        let origin = origin_at(self.origins, k);
        if k == 0 {
            return None;
        }
        origin.parent
    }

    fn node<'s>(
        &'s self,
        alloc: Global,
        k: usize,
        attrs: &mut Vec<OutAttrRef<'s>>,
    ) -> Result<NodeHead, NoMemory> {
        let origin = origin_at(self.origins, k);
        if k == 0 {
            return root_node(attrs);
        }
        let numbers = self.numbers.as_slice();
        merged_node(alloc, self.seen, self.images, numbers, origin, attrs)
    }

    fn lines(&self) -> Option<&OutLines> {
        Some(&self.lines)
    }

    fn ranges(&self) -> &[Span] {
        self.ranges.as_slice()
    }
}

/// The entries for which the nodes below the root stand.
fn below_root(origins: &[Origin]) -> &[Origin]
    requires { 0 < length origins.now }
    ensures { result.now ≡ drop 1 origins.now }
{
    &origins[1..]
}

/// The root of the pool's unit: its name, its language, and its line table. They take the place of what is in `attrs`.
fn root_node<'a>(attrs: &mut Vec<OutAttrRef<'a>>) -> Result<NodeHead, NoMemory>
    ensures { IfOk result (λ head. node_given head attrs.new.items ≡ pool_root_node) }
{
    attrs.clear();
    attrs.push(OutAttrRef {
        name: DW_AT_name,
        value: OutValueRef::Text(b"__artificial_type_unit"),
    })?;
    attrs.push(OutAttrRef {
        name: DW_AT_language,
        value: OutValueRef::Number {
            form: DW_FORM_data2,
            bits: u64::from(DW_LANG_C_plus_plus),
        },
    })?;
    attrs.push(OutAttrRef {
        name: DW_AT_stmt_list,
        value: OutValueRef::Lines,
    })?;
    Ok(NodeHead {
        parent: None,
        tag: DW_TAG_compile_unit,
    })
}

/// The node of a merged entry, whose attributes take the place of those in `attrs`. The numbers of files are those that
/// each unit's become.
fn merged_node<'a>(
    alloc: Global,
    seen: &'a [Analysis],
    images: &[List<Option<Target>>],
    numbers: &[List<List<Option<u64>>>],
    origin: Origin,
    attrs: &mut Vec<OutAttrRef<'a>>,
) -> Result<NodeHead, NoMemory>
    requires pooled { IsPooled seen.now images.now origin }
    requires numbers { (files : Listed SourceFile) × (numbers.now ≡ numbers_of_all files seen.now) }
    ensures { (files : Listed SourceFile) → numbers.now ≡ numbers_of_all files seen.now → IfOk result (λ head. pool_node (image_in images.now) seen.now files origin ≡ Some (node_given head attrs.new.items)) }
{
    let source = source_of(seen, origin);
    let row = row_of(images, source.object);
    let unit = source.entry.unit();
    let files = Files::Others(numbers_at(numbers, source.object, unit));
    attrs.clear();
    add_attrs(alloc, row, &files, &source.entry, attrs)?;
    Ok(NodeHead {
        parent: origin.parent,
        tag: source.entry.tag(),
    })
}
