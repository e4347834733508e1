//! An operation as it is kept.

ghost use Rattle.std.specs.Prelude.{◌≡◌, ◌+◌, ◌-◌, ◌^◌, ◌<◌, IfSome, SomeIff, true, false};
ghost use Rattle.dwarf_types.specs.PackedOps.{IsLow, IsNarrow, IsPlain, IsShort, RowWithin, address_of, narrow, row_of, stored, wide_at};

use crate::runs::Run;
use crate::sides::OpRow;

/// An operation in 16 bytes: its numbers, or where they do not fit its place among the wide ones, which are kept whole.
#[derive(Clone, Copy)]
pub(crate) struct PackedOp {
    /// The place of its first byte. Of a wide operation its place among them, counted from 0.
    from: u64,
    /// One more than the place of its address, or 0 where it has none.
    address: u32,
    /// How many bytes it has.
    len: u16,
    code: u8,
    is_wide: bool,
}

const _: () = prove!(size_of::<PackedOp>() == 16);

impl PackedOp {
    /// An operation, packed, if its numbers fit.
    pub(crate) fn narrow(row: OpRow) -> Option<PackedOp>
        ensures fits { SomeIff result (IsNarrow row) (narrow row) }
        ensures ends { IfSome result (λ p. p.from + p.len < 2 ^ 64) }
    {
        if !is_plain(row) {
            return None;
        }
        Some(PackedOp {
            from: row.bytes.from as u64,
            address: stored(row.address)?,
            len: length_of(row.bytes)?,
            code: row.code,
            is_wide: false,
        })
    }

    /// What stands for the wide operation at a place.
    pub(crate) fn wide_at(place: u64) -> PackedOp
        ensures { result ≡ wide_at place }
    {
        PackedOp {
            from: place,
            address: 0,
            len: 0,
            code: 0,
            is_wide: true,
        }
    }

    /// The operation that it stands for.
    pub(crate) fn row(self, wide: &[OpRow]) -> OpRow
        requires { RowWithin wide.now self }
        ensures { result ≡ row_of wide.now self }
    {
        let from = self.from as usize;
        if self.is_wide {
            return wide[from];
        }
        OpRow {
            code: self.code,
            bytes: Run {
                from,
                to: from + usize::from(self.len),
            },
            address: address_of(self.address),
            base: None,
            inner: Run { from: 0, to: 0 },
        }
    }
}

/// Whether an operation names no base type and has no operations inside.
fn is_plain(row: OpRow) -> bool
    ensures plain { result ≡ true → IsPlain row }
    ensures other { result ≡ false → IsPlain row → ⊥ }
{
    match row.base {
        Some(_) => false,
        None => row.inner.from == 0 && row.inner.to == 0,
    }
}

/// How many bytes a run has, if 16 bits hold that.
fn length_of(bytes: Run) -> Option<u16>
    ensures { SomeIff result (IsShort bytes) (bytes.to - bytes.from) }
{
    if bytes.to < bytes.from {
        return None;
    }
    u16::try_from(bytes.to - bytes.from).ok()
}

/// The place of an address as it is kept, if 32 bits hold that.
fn stored(address: Option<usize>) -> Option<u32>
    ensures { SomeIff result (IsLow address) (stored address) }
{
    match address {
        Some(i) => {
            if i < 0xffff_ffff {
                Some(i as u32 + 1)
            } else {
                None
            }
        }
        None => Some(0),
    }
}

/// The place of an address that is kept.
fn address_of(stored: u32) -> Option<usize>
    ensures { result ≡ address_of stored }
{
    if stored == 0 {
        None
    } else {
        Some(stored as usize - 1)
    }
}
