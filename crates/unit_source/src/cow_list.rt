//! A list that is borrowed or owned.

ghost use Rattle.std.specs.Prelude.{◌≡◌};
ghost use Rattle.unit_source.specs.Given.{items_in};

use ds_base::List;

/// A list that stands elsewhere, or that is its own.
#[derive(Drop)]
pub enum CowList<'a, T> {
    Borrowed(&'a [T]),
    Owned(List<T>),
}

impl<'a, T> CowList<'a, T> {
    /// The items.
    pub fn as_slice(&self) -> &[T]
        ensures { result.now ≡ items_in self.now }
    {
        match self {
            CowList::Borrowed(items) => items,
            CowList::Owned(items) => items.as_slice(),
        }
    }
}
