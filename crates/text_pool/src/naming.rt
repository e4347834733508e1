//! Texts that get their numbers while a part of the output is written.

ghost use Rattle.std.specs.Prelude.{◌≡◌, [], Some, IfOk, OnErr, OnOk, slice_get};
ghost use Rattle.ds_base.specs.Texts.{with_text};
ghost use Rattle.text_pool.specs.Kept.{texts_of};

use crate::names::Names;
use ds_base::{NoMemory, TextKey};
use indexmap::IndexSet;
use std::alloc::Global;
use std::marker::Model;

/// Texts in the order of their first uses, each once. Each is copied when it is new.
///
/// A contract sees the list of the texts. The number of a text is its place in the list, from 0.
#[derive(Drop)]
pub struct Naming<'a> {
    texts: IndexSet<TextKey<'a>>,
    kept: Names,
}

impl<'a> Model for Naming<'a> {
    ghost use Rattle.std.specs.Prelude.{List, ℕ};
    ghost use Rattle.text_pool.specs.Kept.{texts_of};

    ghost Value = { List (List ℕ) };

    ghost view = { λ a. texts_of a.texts.keys };

    ghost use Rattle.std.specs.Prelude.{◌≡◌};

    ghost invariant = { λ a. a.kept ≡ texts_of a.texts.keys };
}

impl<'a> Naming<'a> {
    /// No texts. It asks the allocator for nothing, and keeps it for `number_of`.
    pub fn new(alloc: Global) -> Naming<'a>
        ensures { result ≡ [] }
    {
        Naming {
            texts: IndexSet::new(alloc),
            kept: Names::new(alloc),
        }
    }

    /// The number of a text, which is put last where it is new.
    ///
    /// The text is looked up once, by its hash, so the time is linear in its length. Where there is no memory for it, the
    /// texts stay.
    pub fn number_of(&mut self, text: &'a [u8]) -> Result<usize, NoMemory>
        ensures grown { OnOk result (self.new ≡ with_text self.old text.now) }
        ensures number { IfOk result (λ i. slice_get self.new i ≡ Some text.now) }
        ensures unchanged { OnErr result (self.new ≡ self.old) }
    {
        let number = keep(&mut self.texts, &mut self.kept, text)?;
        Ok(number)
    }

    /// The texts, in the order of their numbers.
    pub fn into_names(self) -> Names
        ensures { result ≡ self.entry }
    {
        let Naming { kept, .. } = self;
        kept.shrunk()
    }
}

/// Puts a text last in a table and copies it behind those that are kept, where it is new. Its number in the table.
fn keep<'a>(
    texts: &mut IndexSet<TextKey<'a>>,
    kept: &mut Names,
    text: &'a [u8],
) -> Result<usize, NoMemory>
    requires { kept.old ≡ texts_of texts.old.keys }
    ensures kept { kept.new ≡ texts_of texts.new.keys }
    ensures grown { OnOk result (texts_of texts.new.keys ≡ with_text (texts_of texts.old.keys) text.now) }
    ensures number { IfOk result (λ i. slice_get (texts_of texts.new.keys) i ≡ Some text.now) }
    ensures unchanged { OnErr result (texts_of texts.new.keys ≡ texts_of texts.old.keys) }
{
    let (number, is_new) = texts.insert_full(TextKey { text })?;
    if !is_new {
        return Ok(number);
    }
    let Ok(()) = kept.push(text) else {
        texts.pop();
        return Err(NoMemory);
    };
    Ok(number)
}
