//! Expressions that are cut from their front.

ghost use Rattle.std.specs.Prelude.{◌≡◌, ◌++◌, length, IfOk, OnOk, None};
ghost use Rattle.clone_values.specs.Cut.{HasMoved, ended, with_part, with_plain};
ghost use Rattle.clone_values.specs.Images.{BaseAmong, image_at};
ghost use Rattle.dwarf_types.specs.LinkedExpressions.{plain_part};
ghost use Rattle.dwarf_types.specs.Seen.{inner_seen};

use crate::part::Part;
use crate::stretch::longer_stretch;
use crate::typed::cut_typed;
use ds_base::{Bytes, List, NoMemory};
use dwarf_types::{InnerOpRef, PlainPart, Target};
use std::alloc::Global;

/// The parts of an expression so far, and a stretch of bytes behind them that may go on.
#[derive(Drop)]
pub(crate) struct Cutting<P> {
    parts: List<P>,
    stretch: Option<Bytes>,
}

impl<P: Part> Cutting<P> {
    /// Begins behind some parts.
    pub(crate) fn behind(parts: List<P>) -> Cutting<P>
        ensures parts { result.parts ≡ parts }
        ensures stretch { result.stretch ≡ None }
    {
        Cutting {
            parts,
            stretch: None,
        }
    }

    /// Cuts one operation more, which is no entry value.
    pub(crate) fn add(
        &mut self,
        alloc: Global,
        images: &[Option<Target>],
        op: &InnerOpRef,
    ) -> Result<(), NoMemory>
        requires moved { HasMoved (inner_seen op.now).address }
        requires among { BaseAmong (length images.now) op.now.base }
        ensures { OnOk result (self.new ≡ with_plain P.of_plain (plain_part (image_at images.now) (inner_seen op.now)) self.old) }
    {
        let Some(base) = op.base else {
            let stretch = self.stretch.take();
            let longer = longer_stretch(alloc, stretch, op.code, op.bytes, op.address)?;
            self.stretch = Some(longer);
            return Ok(());
        };
        let typed = cut_typed(alloc, images, op.code, op.bytes, base)?;
        self.push(P::from_plain(typed))
    }

    /// Puts a part that is no stretch behind all.
    pub(crate) fn push(&mut self, part: P) -> Result<(), NoMemory>
        ensures { OnOk result (self.new ≡ with_part P.of_plain part self.old) }
    {
        self.end_stretch()?;
        self.parts.push(part)?;
        Ok(())
    }

    /// All parts, of which the stretch is the last one, if there is one.
    pub(crate) fn end(mut self) -> Result<List<P>, NoMemory>
        ensures { IfOk result (λ parts. parts ≡ self.parts ++ ended P.of_plain self.stretch) }
    {
        self.end_stretch()?;
        Ok(self.parts)
    }

    /// Makes a part of the stretch, if there is one.
    fn end_stretch(&mut self) -> Result<(), NoMemory>
        ensures parts { OnOk result (self.new.parts ≡ self.old.parts ++ ended P.of_plain self.old.stretch) }
        ensures stretch { OnOk result (self.new.stretch ≡ None) }
    {
        if let Some(bytes) = self.stretch.take() {
            self.parts.push(P::from_plain(PlainPart::Plain(bytes)))?;
        }
        Ok(())
    }
}
