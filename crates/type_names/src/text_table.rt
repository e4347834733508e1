//! Texts of entries, held one behind the other.

ghost use Rattle.std.specs.Prelude.{◌≡◌, ◌≤◌, ◌<◌, ◌^◌, [], ◌∷◌, ◌++◌, length, replicate, slice_index_or, Some, None, IfOk, OnOk, if◌then◌else◌};
ghost use Rattle.std.specs.Option.{option_map};
ghost use Rattle.type_names.specs.TextTable.{AreEnds, begin_of, text_numbered};

use ds_base::NoMemory;
use std::alloc::Global;
use std::marker::Model;

/// Texts, each of which may be missing, which contracts see as the list of them.
///
/// Most entries have none, so an entry takes four bytes, and only a text takes more.
#[derive(Drop)]
pub struct TextTable {
    bytes: Vec<u8>,
    /// Of each text that is there, where it ends among the bytes. It begins where the one before ends.
    ends: Vec<usize>,
    /// Of each entry, which of these texts it has, counted from 1; 0 where it has none.
    numbers: Vec<u32>,
}

impl Model for TextTable {
    ghost use Rattle.std.specs.Prelude.{List, Option, map};
    ghost use Rattle.type_names.specs.Entries.{Text};
    ghost use Rattle.type_names.specs.TextTable.{AreHeld, text_numbered};

    ghost Value = { List (Option Text) };

    ghost view = { λ t. map (text_numbered t.bytes.items t.ends.items) t.numbers.items };

    ghost invariant = { λ t. AreHeld t.bytes.items t.ends.items t.numbers.items };
}

impl TextTable {
    /// No texts, and room for those of so many entries where most have none.
    pub(crate) fn with_capacity(alloc: Global, count: usize) -> Result<TextTable, NoMemory>
        ensures { IfOk result (λ texts. texts ≡ []) }
    {
        Ok(TextTable {
            bytes: Vec::new(alloc),
            ends: Vec::new(alloc),
            numbers: Vec::with_capacity(alloc, count)?,
        })
    }

    /// So many texts that are all missing.
    pub(crate) fn missing(alloc: Global, count: usize) -> Result<TextTable, NoMemory>
        ensures { IfOk result (λ texts. texts ≡ replicate count None) }
    {
        Ok(TextTable {
            bytes: Vec::new(alloc),
            ends: Vec::new(alloc),
            numbers: no_numbers(alloc, count)?,
        })
    }

    /// The text of a number, where there is one.
    pub fn get(&self, k: u32) -> Option<&[u8]>
        requires { k < length self.now }
        ensures { option_map (λ text. text.now) result ≡ slice_index_or self.now k None }
    {
        text_numbered(&self.bytes, &self.ends, self.numbers[k as usize])
    }

    /// One text more, or one that is missing.
    pub(crate) fn push(&mut self, text: &[u8], there: bool) -> Result<(), NoMemory>
        requires few { length self.old < 2 ^ 24 }
        ensures { OnOk result (self.new ≡ self.old ++ (if there then Some text.now else None) ∷ []) }
    {
        if !there {
            self.numbers.push(0)?;
            return Ok(());
        }
        // Room first: nothing fails behind the bytes, so all three grow or none.
        self.ends.reserve(1)?;
        self.numbers.reserve(1)?;
        self.bytes.extend_from_slice(text)?;
        self.ends.push_reserved(self.bytes.len());
        self.numbers.push_reserved(self.ends.len() as u32);
        Ok(())
    }
}

/// So many numbers, each that of no text.
fn no_numbers(alloc: Global, count: usize) -> Result<Vec<u32>, NoMemory>
    ensures { IfOk result (λ numbers. numbers.items ≡ replicate count 0) }
{
    let numbers = vec![in alloc; 0; count]?;
    Ok(numbers)
}

/// The text of a number that is counted from 1; 0 is that of none.
fn text_numbered<'a>(bytes: &'a [u8], ends: &[usize], number: u32) -> Option<&'a [u8]>
    requires ends { AreEnds (length bytes.now) ends.now }
    requires number { number ≤ length ends.now }
    ensures { option_map (λ text. text.now) result ≡ text_numbered bytes.now ends.now number }
{
    if number == 0 {
        return None;
    }
    let i = number as usize - 1;
    let from = begin_of(ends, i);
    Some(&bytes[from..ends[i]])
}

/// Where a text begins.
fn begin_of(ends: &[usize], i: usize) -> usize
    requires { i ≤ length ends.now }
    ensures { result ≡ begin_of ends.now i }
{
    if i == 0 { 0 } else { ends[i - 1] }
}
