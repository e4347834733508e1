//! The cursor: items from the front of some bytes, or the first fault.

ghost use Rattle.std.specs.Prelude.{◌≡◌, ◌≤◌, ◌-◌, ◌<◌, length, Ok, IfSome, IfOk};
ghost use Rattle.ds_base.specs.Spot.{Spot, fault_at};
ghost use Rattle.ds_base.specs.Reading.{Moves, bytes_at, number_at, placed_text_at, text_at, uleb_at, sleb_at, index_below};

use crate::fault::{Fault, Kind, Part};
use crate::leb::{signed_value_of, value_of};
use crate::pieces::text_in;
use byteorder::{ByteOrder, LittleEndian};
use memchr::memchr;
use std::marker::Model;

/// A place in the bytes of a part of a file, from which items are read.
///
/// Places count bytes from the start of `bytes`, and nothing from `end` on is read. A fault is placed
/// at the first byte of the item that was asked for, and a cursor that answers a fault is unchanged.
#[derive(Drop)]
pub struct Cursor<'a> {
    bytes: &'a [u8],
    part: Part,
    place: u64,
    end: u64,
}

impl<'a> Model for Cursor<'a> {
    ghost use Rattle.ds_base.specs.Spot.{Spot, IsSpot};

    ghost Value = { Spot };

    ghost view = { λ c. record { bytes = c.bytes.now; part = c.part; place = c.place; end = c.end } };

    ghost invariant = { λ c. IsSpot (record { bytes = c.bytes.now; part = c.part; place = c.place; end = c.end }) };
}

/// The index of the first byte below `limit`.
fn first_below(limit: u8, bytes: &[u8]) -> Option<usize>
    ensures is { result ≡ index_below limit bytes.now }
    ensures within { IfSome result (λ i. i < length bytes.now) }
{
    for (i, b) in bytes.iter().enumerate() {
        if *b < limit {
            return Some(i);
        }
    }
    None
}

/// The first zero byte of some bytes.
fn first_zero(bytes: &[u8]) -> Option<usize>
    ensures is { result ≡ index_below 1 bytes.now }
    ensures within { IfSome result (λ i. i < length bytes.now) }
{
    memchr(0, bytes)
}

impl<'a> Cursor<'a> {
    /// A cursor at `place` that reads up to `end`. Faults name `part`.
    pub fn new(bytes: &'a [u8], part: Part, place: u64, end: u64) -> Cursor<'a>
        requires before_end { place ≤ end }
        requires in_bytes { end ≤ length bytes.now }
        ensures { result ≡ record { bytes = bytes.now; part = part; place = place; end = end } }
    {
        Cursor {
            bytes,
            part,
            place,
            end,
        }
    }

    /// A second cursor at the same place.
    pub fn fork(&self) -> Cursor<'a>
        ensures { result ≡ self.now }
    {
        Cursor {
            bytes: self.bytes,
            part: self.part,
            place: self.place,
            end: self.end,
        }
    }

    /// Where it stands, in bytes from the start of the part.
    pub fn place(&self) -> u64
        ensures { result ≡ self.now.place }
    {
        self.place
    }

    /// How many bytes are left before the end.
    pub fn left(&self) -> u64
        ensures { result ≡ self.now.end - self.now.place }
    {
        self.end - self.place
    }

    /// A fault that is placed where the cursor stands.
    pub fn fault(&self, kind: Kind) -> Fault
        ensures { result ≡ fault_at self.now kind }
    {
        Fault {
            kind,
            section: self.part,
            place: self.place,
        }
    }

    /// The next `count` bytes.
    #[tactic(auto, unfolding(crate::specs::Reading::bytes_at))]
    pub fn skip(&mut self, count: u64) -> Result<&'a [u8], Fault>
        ensures read { Moves (λ bytes. bytes.now) result self.old self.new (bytes_at count self.old) }
        ensures len { IfOk result (λ bytes. length bytes.now ≡ count) }
    {
        if self.end - self.place < count {
            return Err(self.fault(Kind::Truncated));
        }
        let rest = &self.bytes[self.place as usize..self.end as usize];
        let bytes = &rest[..count as usize];
        self.place += count;
        Ok(bytes)
    }

    /// The next byte.
    #[tactic(auto, unfolding(crate::specs::Reading::number_at))]
    pub fn u8(&mut self) -> Result<u8, Fault>
        ensures { Moves (λ n. n) result self.old self.new (number_at 1 self.old) }
    {
        if self.end - self.place < 1 {
            return Err(self.fault(Kind::Truncated));
        }
        let rest = &self.bytes[self.place as usize..self.end as usize];
        let n = rest[0];
        self.place += 1;
        Ok(n)
    }

    /// The number in the next two bytes, the lowest byte first.
    #[tactic(auto, unfolding(crate::specs::Reading::number_at))]
    pub fn u16(&mut self) -> Result<u16, Fault>
        ensures { Moves (λ n. n) result self.old self.new (number_at 2 self.old) }
    {
        if self.end - self.place < 2 {
            return Err(self.fault(Kind::Truncated));
        }
        let rest = &self.bytes[self.place as usize..self.end as usize];
        let n = LittleEndian::read_u16(rest);
        self.place += 2;
        Ok(n)
    }

    /// The number in the next four bytes, the lowest byte first.
    #[tactic(auto, unfolding(crate::specs::Reading::number_at))]
    pub fn u32(&mut self) -> Result<u32, Fault>
        ensures { Moves (λ n. n) result self.old self.new (number_at 4 self.old) }
    {
        if self.end - self.place < 4 {
            return Err(self.fault(Kind::Truncated));
        }
        let rest = &self.bytes[self.place as usize..self.end as usize];
        let n = LittleEndian::read_u32(rest);
        self.place += 4;
        Ok(n)
    }

    /// The number in the next eight bytes, the lowest byte first.
    #[tactic(auto, unfolding(crate::specs::Reading::number_at))]
    pub fn u64(&mut self) -> Result<u64, Fault>
        ensures { Moves (λ n. n) result self.old self.new (number_at 8 self.old) }
    {
        if self.end - self.place < 8 {
            return Err(self.fault(Kind::Truncated));
        }
        let rest = &self.bytes[self.place as usize..self.end as usize];
        let n = LittleEndian::read_u64(rest);
        self.place += 8;
        Ok(n)
    }

    /// The next LEB number without a sign (DWARF 4, section 7.6). Padded numbers are read.
    #[tactic(auto, unfolding(crate::specs::Reading::uleb_at, crate::specs::Reading::leb_at))]
    pub fn uleb(&mut self) -> Result<u64, Fault>
        ensures { Moves (λ n. n) result self.old self.new (uleb_at self.old) }
    {
        let rest = &self.bytes[self.place as usize..self.end as usize];
        if !rest.is_empty() && rest[0] < 128 {
            self.place += 1;
            return Ok(u64::from(rest[0]));
        }
        let Some(last) = first_below(128, rest) else {
            return Err(self.fault(Kind::Truncated));
        };
        let Some(value) = value_of(&rest[..last + 1], false) else {
            return Err(self.fault(Kind::LebTooWide));
        };
        self.place += last as u64 + 1;
        Ok(value)
    }

    /// The next LEB number with a sign (DWARF 4, section 7.6). Padded numbers are read.
    #[tactic(auto, unfolding(crate::specs::Reading::sleb_at, crate::specs::Reading::leb_at))]
    pub fn sleb(&mut self) -> Result<i64, Fault>
        ensures { Moves (λ n. n) result self.old self.new (sleb_at self.old) }
    {
        let rest = &self.bytes[self.place as usize..self.end as usize];
        let Some(last) = first_below(128, rest) else {
            return Err(self.fault(Kind::Truncated));
        };
        let Some(value) = signed_value_of(&rest[..last + 1]) else {
            return Err(self.fault(Kind::LebTooWide));
        };
        self.place += last as u64 + 1;
        Ok(value)
    }

    /// The bytes before the next zero byte, which is passed over.
    #[tactic(auto, unfolding(crate::specs::Reading::text_at))]
    pub fn text(&mut self) -> Result<&'a [u8], Fault>
        ensures { Moves (λ text. text.now) result self.old self.new (text_at self.old) }
    {
        let rest = &self.bytes[self.place as usize..self.end as usize];
        let Some(len) = first_zero(rest) else {
            return Err(self.fault(Kind::Truncated));
        };
        let text = &rest[..len];
        self.place += len as u64 + 1;
        Ok(text)
    }

    /// The text of `section` whose place stands next, in four bytes; that place comes first. Where no text begins and
    /// ends there, the place is at fault.
    #[tactic(auto, unfolding(crate::specs::Reading::placed_text_at))]
    pub fn placed_text<'s>(&mut self, section: &'s [u8]) -> Result<(u32, &'s [u8]), Fault>
        ensures text { Moves (λ text. text.1.now) result self.old self.new (placed_text_at section.now self.old) }
        ensures place { IfOk result (λ text. number_at 4 self.old ≡ Ok (text.0, self.new)) }
    {
        let mut next = self.fork();
        let place = next.u32()?;
        let Some(text) = text_in(section, place) else {
            return Err(self.fault(Kind::BadOffset));
        };
        *self = next;
        Ok((place, text))
    }
}
