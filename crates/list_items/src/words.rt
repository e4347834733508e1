//! Items of version 4, spelled by two words each.

ghost use Rattle.std.specs.Prelude.{◌≡◌, OnOk};
ghost use Rattle.ds_base.specs.Reading.{Reads};
ghost use Rattle.ds_base.specs.Spot.{IsSmall};
ghost use Rattle.list_items.specs.Context.{context_in, IsSoundContext};
ghost use Rattle.list_items.specs.Words.{word_at, words_at};

use crate::context::ListContext;
use crate::ends::from_base;
use crate::item::{Item, item_between};
use ds_base::{Cursor, Fault};
use dwarf_types::Addr;
use reloc_table::resolve;

/// "The value of the largest representable address offset", which makes the second word a base (DWARF 4, section 2.6.2).
const BASE_SELECTION: u64 = 0xffff_ffff_ffff_ffff;

/// A stored number of eight bytes, and what it means as an address.
#[derive(Clone, Copy)]
pub(crate) struct Word {
    pub(crate) stored: u64,
    pub(crate) means: Addr,
}

/// The next item by its two words. Each word is an item of its own for `Truncated`.
#[tactic(auto, unfolding(crate::specs::Words::words_at))]
pub(crate) fn read_words(
    cursor: &mut Cursor,
    context: &ListContext<'_>,
    base: &Addr,
) -> Result<Item, Fault>
    requires sound { IsSoundContext (context_in context.now) }
    requires small { IsSmall cursor.old }
    ensures read { Reads (λ item. item) result cursor.new (words_at (context_in context.now) base.now cursor.old) }
    ensures small { OnOk result (IsSmall cursor.new) }
{
    let first = cursor.fork();
    let low = read_word(cursor, context)?;
    let high = read_word(cursor, context)?;
    if low.stored == 0 && high.stored == 0 {
        return Ok(Item::End);
    }
    if low.stored == BASE_SELECTION {
        return Ok(Item::Base(high.means));
    }
    item_between(
        &first,
        from_base(base, low.means),
        from_base(base, high.means),
    )
}

/// The next eight bytes.
#[tactic(auto, unfolding(crate::specs::Words::word_at, ds_base::specs::Reading::number_at))]
pub(crate) fn read_word(cursor: &mut Cursor, context: &ListContext<'_>) -> Result<Word, Fault>
    requires sound { IsSoundContext (context_in context.now) }
    requires small { IsSmall cursor.old }
    ensures read { Reads (λ word. word) result cursor.new (word_at (context_in context.now) cursor.old) }
    ensures small { OnOk result (IsSmall cursor.new) }
{
    let place = cursor.place() as u32;
    let stored = cursor.u64()?;
    Ok(Word {
        stored,
        means: resolve(context.relocs, context.image, place, stored),
    })
}
