//! Expressions (DWARF 4, section 7.7.1).

ghost use Rattle.std.specs.Prelude.{OnOk};
ghost use Rattle.dwarf_types.specs.declared.parts.ExprPart.TheVariants as expr_parts;
ghost use Rattle.dwarf_types.specs.Expressions.{base_bytes, expression_bytes, inner_bytes, part_bytes, plain_part_bytes, typed_bytes};
ghost use Rattle.unit_draft.specs.Based.{AppendsBased, IsBased};

use crate::drafting::Scratch;
use ds_base::NoMemory;
use dwarf_types::{ExprPart, PlainPart};
use patches::{Buffer, Own};

/// Writes an expression into the scratch buffer, in place of what stood there.
pub(crate) fn write_expression(scratch: &mut Scratch, parts: &[ExprPart]) -> Result<(), NoMemory>
    ensures { OnOk result (IsBased scratch.new.expression (λ place. expression_bytes place parts.now)) }
{
    scratch.expression.clear();
    append_expression(&mut scratch.expression, &mut scratch.inner, parts)?;
    Ok(())
}

fn append_expression(
    out: &mut Buffer,
    inner: &mut Buffer,
    parts: &[ExprPart],
) -> Result<(), NoMemory>
    ensures { OnOk result (AppendsBased out.old out.new (λ place. expression_bytes place parts.now)) }
{
    for part in parts {
        append_part(out, inner, part)?;
    }
    Ok(())
}

fn append_part(out: &mut Buffer, inner: &mut Buffer, part: &ExprPart) -> Result<(), NoMemory>
    ensures { OnOk result (AppendsBased out.old out.new (λ place. part_bytes place part.now)) }
{
    match part {
        ExprPart::Plain(bytes) => out.extend(bytes.as_slice()),
        ExprPart::Typed {
            code,
            before,
            base,
            after,
        } => { append_typed(out, *code, before.as_slice(), *base, after.as_slice()) }
        ExprPart::Nested { code, parts } => append_nested(out, inner, *code, parts.as_slice()),
    }
}

/// An entry value: its code, the length of the expression inside, that expression.
fn append_nested(
    out: &mut Buffer,
    inner: &mut Buffer,
    code: u8,
    parts: &[PlainPart],
) -> Result<(), NoMemory>
    ensures { OnOk result (AppendsBased out.old out.new (λ place. part_bytes place (expr_parts.Nested code parts.now))) }
{
    inner.clear();
    append_inner(inner, parts)?;
    out.push(code)?;
    out.append_prefixed(inner)?;
    Ok(())
}

fn append_inner(out: &mut Buffer, parts: &[PlainPart]) -> Result<(), NoMemory>
    ensures { OnOk result (AppendsBased out.old out.new (λ place. inner_bytes place parts.now)) }
{
    for part in parts {
        append_plain_part(out, part)?;
    }
    Ok(())
}

fn append_plain_part(out: &mut Buffer, part: &PlainPart) -> Result<(), NoMemory>
    ensures { OnOk result (AppendsBased out.old out.new (λ place. plain_part_bytes place part.now)) }
{
    match part {
        PlainPart::Plain(bytes) => out.extend(bytes.as_slice()),
        PlainPart::Typed {
            code,
            before,
            base,
            after,
        } => { append_typed(out, *code, before.as_slice(), *base, after.as_slice()) }
    }
}

/// An operation that names a base type.
fn append_typed(
    out: &mut Buffer,
    code: u8,
    before: &[u8],
    base: Option<u32>,
    after: &[u8],
) -> Result<(), NoMemory>
    ensures { OnOk result (AppendsBased out.old out.new (λ place. typed_bytes place code before.now base after.now)) }
{
    out.push(code)?;
    out.extend(before)?;
    append_base(out, base)?;
    out.extend(after)?;
    Ok(())
}

/// The place of a base type in four LEB digits; 0 for the generic type.
fn append_base(out: &mut Buffer, base: Option<u32>) -> Result<(), NoMemory>
    ensures { OnOk result (AppendsBased out.old out.new (λ place. base_bytes place base)) }
{
    match base {
        Some(node) => out.leave_own(Own::Base(node)),
        None => out.extend(&[128, 128, 128, 0]),
    }
}
