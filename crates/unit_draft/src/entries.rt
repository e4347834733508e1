//! Entries (DWARF 4, section 7.5.2), appended in preorder, stretch by stretch.

ghost use Rattle.std.specs.Prelude.{◌≡◌, ◌++◌, ◌+◌, ◌<◌, ◌^◌, ◌≤◌, List as Listed, drop, length, take, IfOk, OnOk};
ghost use Rattle.std.specs.List.{sum_by};
ghost use Rattle.dwarf_types.specs.Entries.{OutEntry, entry_len};
ghost use Rattle.patches.specs.Filling.{Filling, filled};
ghost use Rattle.unit_source.specs.declared.source.NodeHead.{NodeHead as AHead};
ghost use Rattle.unit_source.specs.Given.{node_given};
ghost use Rattle.unit_draft.specs.Appends.{AppendsEntry, len_of, nowhere};
ghost use Rattle.unit_draft.specs.Long.{RefusesLong};
ghost use Rattle.unit_draft.specs.Stretches.{GoesOn, HoldsStretch, IsStretch};

use crate::drafting::Drafting;
use crate::error::DraftError;
use crate::numbers::append_zeros;
use crate::stretch::Stretch;
use crate::task::Task;
use crate::values::append_values;
use ds_base::limits::UNIT_BYTES;
use ds_base::{List, NoMemory};
use patches::Buffer;
use unit_source::OutAttrRef;

/// What appends the entries of a unit to its draft.
#[derive(Drop)]
pub(crate) struct Appender<'a> {
    pub(crate) drafting: Drafting<'a>,
    /// Where each node stands, counted from the header.
    pub(crate) places: List<u32>,
    /// The number of the unit in the graph.
    pub(crate) number: u32,
    pub(crate) version: u16,
    /// The nodes that are appended next.
    pub(crate) stretch: Stretch<'a>,
}

impl<'a> Task for Appender<'a> {
    type Out = Result<(), DraftError>;

    ghost use Rattle.unit_draft.specs.Stretches.{AppendsStretch, HoldsStretch};

    ghost can_run = { λ it. HoldsStretch it.stretch };

    ghost run_gives = { AppendsStretch };

    /// The stretch is let go here, since whoever prepares the next one has more to do.
    fn run(&mut self) -> Result<(), DraftError> {
        let appended = append_stretch(
            &mut self.drafting,
            &mut self.places,
            self.number,
            self.version,
            &self.stretch,
        );
        self.stretch.clear();
        appended
    }
}

/// Appends the entries of a stretch, and tells where each stands.
fn append_stretch<'a>(
    drafting: &mut Drafting<'a>,
    places: &mut List<u32>,
    number: u32,
    version: u16,
    stretch: &Stretch<'a>,
) -> Result<(), DraftError>
    requires { HoldsStretch stretch.now }
    ensures appended { (es rest : Listed OutEntry) → IsStretch es stretch.now → OnOk result (GoesOn number version drafting.old drafting.new places.old places.new (es ++ rest) rest) }
    ensures long { (es rest : Listed OutEntry) → IsStretch es stretch.now → RefusesLong result (len_of drafting.old + sum_by entry_len (es ++ rest)) }
{
    let all = stretch.attrs.as_slice();
    let mut at = 0;
    for node in stretch.nodes.as_slice() {
        places.push(end_of(&drafting.info)?)?;
        let attrs = attrs_at(all, at, node.attrs);
        append_entry(drafting, number, version, node.code, attrs, node.ended)?;
        at += node.attrs;
    }
    Ok(())
}

/// So many attributes, from a place on.
fn attrs_at<'a, 'b>(all: &'b [OutAttrRef<'a>], at: usize, count: usize) -> &'b [OutAttrRef<'a>]
    requires { at + count ≤ length all.now }
    ensures { result.now ≡ take count (drop at all.now) }
{
    &all[at..at + count]
}

/// The place behind what there is of a unit.
pub(crate) fn end_of(info: &Buffer) -> Result<u32, DraftError>
    ensures end { IfOk result (λ end. (f : Filling) → length (filled info.now f) ≡ end) }
    ensures small { IfOk result (λ end. end < 2 ^ 28) }
    ensures long { RefusesLong result (length (filled info.now nowhere)) }
{
    let len = info.len();
    if len as u64 >= UNIT_BYTES {
        return Err(DraftError::Unit);
    }
    Ok(len as u32)
}

/// Appends the entry of a node of these attributes, behind which lists of siblings end.
fn append_entry<'a>(
    drafting: &mut Drafting<'a>,
    number: u32,
    version: u16,
    code: u32,
    attrs: &[OutAttrRef<'a>],
    ended: u32,
) -> Result<(), NoMemory>
    ensures { OnOk result ((head : AHead) → AppendsEntry number version drafting.old drafting.new (record { code = code; node = node_given head attrs.now; ended = ended })) }
{
    drafting.info.extend_uleb(u64::from(code))?;
    append_values(drafting, number, version, attrs)?;
    append_zeros(&mut drafting.info, ended)?;
    Ok(())
}
