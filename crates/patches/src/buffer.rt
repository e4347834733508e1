//! Bytes that grow, with holes.

ghost use Rattle.std.specs.Prelude.{ℕ, ◌≡◌, ◌++◌, ◌∷◌, ◌<◌, ◌≤◌, ◌^◌, [], ◌+◌, length, map, OnErr, OnOk};
ghost use Rattle.std.specs.Vec.{vec_capacity, vec_len};
ghost use Rattle.std.specs.List.{All};
ghost use Rattle.byteorder.specs.Endian.{little_bytes};
ghost use Rattle.ds_base.specs.Leb.{sleb, uleb};
ghost use Rattle.patches.specs.Filling.{Filling, filled, own_behind, own_bytes, outer_behind, outer_bytes};
ghost use Rattle.patches.specs.Numbers.{patched, settled};

use crate::fill::{fill_all_outer, fill_all_own};
use crate::hole::{OFFSET_LEN, Outer, OuterPatch, Own, OwnPatch};
use crate::numbers::OuterNumbers;
use ds_base::{Bytes, NoMemory, put_sleb, put_uleb, sleb_len, uleb_len};
use std::alloc::Global;
use std::marker::Model;

/// The most bytes of a LEB number of 64 bits.
const MOST_DIGITS: usize = 10;

/// Bytes with holes. A contract sees what they are, once each hole has its number. Places count from the first byte.
///
/// Where there is no memory for what is put last, the bytes stay, and their holes.
#[derive(Drop)]
pub struct Buffer {
    bytes: Vec<u8>,
    own: Vec<OwnPatch>,
    outer: Vec<OuterPatch>,
}

impl Model for Buffer {
    ghost use Rattle.patches.specs.Filling.{AreInside, Holey};

    ghost Value = { Holey };

    ghost view = { λ a. record { bytes = a.bytes.items; own = a.own.items; outer = a.outer.items } };

    ghost invariant = { λ a. AreInside (record { bytes = a.bytes.items; own = a.own.items; outer = a.outer.items }) };
}

impl Buffer {
    /// No bytes. It asks the allocator for nothing.
    pub fn new(alloc: Global) -> Buffer
        ensures { (f : Filling) → filled result f ≡ [] }
    {
        Buffer {
            bytes: Vec::new(alloc),
            own: Vec::new(alloc),
            outer: Vec::new(alloc),
        }
    }

    /// Makes room for so many bytes more, and for so many holes of each kind. Nothing that is seen changes.
    pub fn reserve(&mut self, bytes: usize, holes: usize) -> Result<(), NoMemory>
        ensures { self.new ≡ self.old }
    {
        self.bytes.reserve(bytes)?;
        self.own.reserve(holes)?;
        self.outer.reserve(holes)?;
        Ok(())
    }

    /// Makes the buffer as a new one, which keeps its memory.
    pub fn clear(&mut self)
        ensures { (f : Filling) → filled self.new f ≡ [] }
    {
        self.outer.clear();
        self.own.clear();
        self.bytes.clear();
    }

    /// How many bytes there are, those of holes with them.
    pub fn len(&self) -> usize
        ensures { (f : Filling) → length (filled self.now f) ≡ result }
    {
        self.bytes.len()
    }

    /// Puts a byte last.
    pub fn push(&mut self, byte: u8) -> Result<(), NoMemory>
        ensures ok { OnOk result ((f : Filling) → filled self.new f ≡ filled self.old f ++ byte ∷ []) }
        ensures unchanged { OnErr result (self.new ≡ self.old) }
    {
        self.bytes.push(byte)?;
        Ok(())
    }

    /// Puts bytes last.
    pub fn extend(&mut self, bytes: &[u8]) -> Result<(), NoMemory>
        ensures ok { OnOk result ((f : Filling) → filled self.new f ≡ filled self.old f ++ bytes.now) }
        ensures unchanged { OnErr result (self.new ≡ self.old) }
    {
        self.bytes.extend_from_slice(bytes)?;
        Ok(())
    }

    /// Puts the lowest bytes of a number last, the lowest first.
    pub fn extend_lowest(&mut self, n: u64, count: usize) -> Result<(), NoMemory>
        requires few { count ≤ 8 }
        ensures ok { OnOk result ((f : Filling) → filled self.new f ≡ filled self.old f ++ little_bytes count n) }
        ensures unchanged { OnErr result (self.new ≡ self.old) }
    {
        self.extend(&n.to_le_bytes()[..count])?;
        Ok(())
    }

    /// Puts the shortest LEB number without a sign last (DWARF 4, section 7.6).
    pub fn extend_uleb(&mut self, n: u64) -> Result<(), NoMemory>
        ensures ok { OnOk result ((f : Filling) → filled self.new f ≡ filled self.old f ++ uleb n) }
        ensures unchanged { OnErr result (self.new ≡ self.old) }
    {
        let mut room = [0; MOST_DIGITS];
        put_uleb(&mut room, 0, n);
        self.extend(&room[..uleb_len(n) as usize])?;
        Ok(())
    }

    /// Puts the shortest LEB number with a sign last (DWARF 4, section 7.6).
    pub fn extend_sleb(&mut self, n: i64) -> Result<(), NoMemory>
        ensures ok { OnOk result ((f : Filling) → filled self.new f ≡ filled self.old f ++ sleb n) }
        ensures unchanged { OnErr result (self.new ≡ self.old) }
    {
        let mut room = [0; MOST_DIGITS];
        put_sleb(&mut room, 0, n);
        self.extend(&room[..sleb_len(n) as usize])?;
        Ok(())
    }

    /// Leaves a hole for what stands outside of the unit.
    pub fn leave(&mut self, hole: Outer) -> Result<(), NoMemory>
        ensures ok { OnOk result ((f : Filling) → filled self.new f ≡ filled self.old f ++ outer_bytes f.outer hole) }
        ensures unchanged { OnErr result (self.new ≡ self.old) }
    {
        let at = self.bytes.len();
        self.outer.reserve(1)?;
        self.bytes.extend_from_slice(&[0; OFFSET_LEN])?;
        self.outer.push_reserved(OuterPatch { at, hole });
        Ok(())
    }

    /// Leaves a hole for what the unit itself tells.
    pub fn leave_own(&mut self, hole: Own) -> Result<(), NoMemory>
        ensures ok { OnOk result ((f : Filling) → filled self.new f ≡ filled self.old f ++ own_bytes f.own hole) }
        ensures unchanged { OnErr result (self.new ≡ self.old) }
    {
        let at = self.bytes.len();
        self.own.reserve(1)?;
        self.bytes.extend_from_slice(&[0; OFFSET_LEN])?;
        self.own.push_reserved(OwnPatch { at, hole });
        Ok(())
    }

    /// Puts other bytes last, with their holes.
    pub fn append(&mut self, other: &Buffer) -> Result<(), NoMemory>
        ensures ok { OnOk result ((f : Filling) → filled self.new f ≡ filled self.old f ++ filled other.now f) }
        ensures unchanged { OnErr result (self.new ≡ self.old) }
    {
        self.append_behind(&[], other)?;
        Ok(())
    }

    /// Puts other bytes last, and before them their length, as the shortest LEB number without a sign.
    pub fn append_prefixed(&mut self, other: &Buffer) -> Result<(), NoMemory>
        ensures ok { OnOk result ((f : Filling) → filled self.new f ≡ filled self.old f ++ (uleb (length (filled other.now f)) ++ filled other.now f)) }
        ensures unchanged { OnErr result (self.new ≡ self.old) }
    {
        let len = other.len() as u64;
        let mut room = [0; MOST_DIGITS];
        put_uleb(&mut room, 0, len);
        self.append_behind(&room[..uleb_len(len) as usize], other)?;
        Ok(())
    }

    /// Puts a few bytes last, and other bytes behind them, with their holes.
    fn append_behind(&mut self, front: &[u8], other: &Buffer) -> Result<(), NoMemory>
        requires few { length front.now ≤ 10 }
        ensures ok { OnOk result ((f : Filling) → filled self.new f ≡ filled self.old f ++ (front.now ++ filled other.now f)) }
        ensures unchanged { OnErr result (self.new ≡ self.old) }
    {
        // Room first: behind it nothing fails, so all grow or none.
        self.own.reserve(other.own.len())?;
        self.outer.reserve(other.outer.len())?;
        self.bytes.reserve(front.len() + other.bytes.len())?;
        self.bytes.extend_from_slice(front)?;
        let base = self.bytes.len();
        self.bytes.extend_from_slice(other.bytes.as_slice())?;
        let end = self.bytes.len();
        push_own(&mut self.own, other.own.as_slice(), base, end);
        push_outer(&mut self.outer, other.outer.as_slice(), base, end);
        Ok(())
    }

    /// Fills what the unit itself tells: it has `len` bytes, and its nodes stand at `places`. A node behind the last
    /// stands at the unit's end. What memory the buffer holds behind its last byte is given back.
    pub fn settle(&mut self, len: u32, places: &[u32])
        requires small { All (λ place. place < 2 ^ 28) places.now }
        requires short { len < 2 ^ 28 }
        ensures is { (f : Filling) → filled self.new f ≡ filled self.old (settled f len places.now) }
        ensures none { self.new.own ≡ [] }
    {
        fill_all_own(self.bytes.as_mut_slice(), self.own.as_slice(), len, places);
        self.own.clear();
        self.own.shrink_to_fit();
        self.outer.shrink_to_fit();
        self.bytes.shrink_to_fit();
    }

    /// Fills what stands outside of the unit.
    pub fn patch<N: OuterNumbers>(&mut self, outside: &N)
        requires settled { self.old.own ≡ [] }
        ensures { (f : Filling) → self.new.bytes ≡ filled self.old (patched f (N.number outside.now)) }
    {
        fill_all_outer(self.bytes.as_mut_slice(), self.outer.as_slice(), outside);
        self.outer.clear();
    }

    /// Writes the bytes into a room of their size, with what stands outside of the unit. It takes no memory.
    pub fn emit<N: OuterNumbers>(&self, outside: &N, room: &mut [u8])
        requires settled { self.now.own ≡ [] }
        requires fits { (f : Filling) → length room.old ≡ length (filled self.now f) }
        ensures { (f : Filling) → room.new ≡ filled self.now (patched f (N.number outside.now)) }
    {
        room.copy_from_slice(self.bytes.as_slice());
        fill_all_outer(room, self.outer.as_slice(), outside);
    }

    /// The bytes as they stand: of what stands in a hole that is left nothing is said.
    pub fn into_bytes(self) -> Bytes
        ensures { result ≡ self.bytes }
    {
        let Buffer { bytes, .. } = self;
        Bytes::from_vec(bytes)
    }
}

/// Puts patches last, of bytes that stand behind `base` others and before `end`. There is room for them.
fn push_own(out: &mut Vec<OwnPatch>, patches: &[OwnPatch], base: usize, end: usize)
    requires room { vec_len out.old + length patches.now ≤ vec_capacity out.old }
    requires within { All (λ p. base + p.at + 4 ≤ end) patches.now }
    ensures pushed { out.new.items ≡ out.old.items ++ map (own_behind base) patches.now }
    ensures inside { All (λ p. p.at + 4 ≤ end) out.old.items → All (λ p. p.at + 4 ≤ end) out.new.items }
{
    for patch in patches {
        out.push_reserved(OwnPatch {
            at: base + patch.at,
            hole: patch.hole,
        });
    }
}

/// Puts patches last, of bytes that stand behind `base` others and before `end`. There is room for them.
fn push_outer(out: &mut Vec<OuterPatch>, patches: &[OuterPatch], base: usize, end: usize)
    requires room { vec_len out.old + length patches.now ≤ vec_capacity out.old }
    requires within { All (λ p. base + p.at + 4 ≤ end) patches.now }
    ensures pushed { out.new.items ≡ out.old.items ++ map (outer_behind base) patches.now }
    ensures inside { All (λ p. p.at + 4 ≤ end) out.old.items → All (λ p. p.at + 4 ≤ end) out.new.items }
{
    for patch in patches {
        out.push_reserved(OuterPatch {
            at: base + patch.at,
            hole: patch.hole,
        });
    }
}
