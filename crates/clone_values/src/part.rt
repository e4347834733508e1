//! The parts of expressions, and of those inside an entry value.

ghost use Rattle.dwarf_types.specs.LinkedExpressions.{as_part};

use dwarf_types::{ExprPart, PlainPart};

/// What an expression is cut into: plain parts alone, or others too.
pub(crate) trait Part: Drop {
    ghost use Rattle.std.specs.Prelude.{◌≡◌};
    ghost use Rattle.dwarf_types.specs.declared.parts.PlainPart.{PlainPart as APlainPart};

    /// What a plain part is among them.
    ghost of_plain: { APlainPart → Self };

    /// A plain part as one of them.
    fn from_plain(part: PlainPart) -> Self
        ensures { result ≡ of_plain part };
}

impl Part for PlainPart {
    ghost of_plain = { λ part. part };

    fn from_plain(part: PlainPart) -> PlainPart {
        part
    }
}

impl Part for ExprPart {
    ghost of_plain = { as_part };

    fn from_plain(part: PlainPart) -> ExprPart {
        match part {
            PlainPart::Plain(bytes) => ExprPart::Plain(bytes),
            PlainPart::Typed {
                code,
                before,
                base,
                after,
            } => ExprPart::Typed {
                code,
                before,
                base,
                after,
            },
        }
    }
}
