//! A section of texts that line tables share, which contracts see as the list of its bytes.

ghost use Rattle.std.specs.Prelude.{◌≡◌, [], IfOk};

use ds_base::{Bytes, NoMemory};
use std::alloc::Global;
use std::marker::Model;
use std::sync::Arc;

/// The bytes of a section of texts, of which all owners hold the same copy.
pub struct SharedTexts {
    /// None where the section is empty.
    bytes: Option<Arc<Bytes>>,
}

impl Model for SharedTexts {
    ghost use Rattle.std.specs.Prelude.{[], List, ℕ};
    ghost use Rattle.std.specs.Arc.{arc_value};
    ghost use Rattle.std.specs.Option.{option_map_or};

    ghost Value = { List ℕ };

    ghost view = { λ t. option_map_or arc_value t.bytes [] };
}

// By hand, so that to drop what holds such texts is one call and no case.
impl Drop for SharedTexts {
    fn drop(self) {
        let SharedTexts { bytes } = self;
        drop(bytes);
    }
}

impl SharedTexts {
    /// No texts. It asks the allocator for nothing.
    pub(crate) fn none() -> SharedTexts
        ensures { result ≡ [] }
    {
        SharedTexts { bytes: None }
    }

    /// A copy of a section's bytes. An empty section takes no memory.
    pub fn of(alloc: Global, section: &[u8]) -> Result<SharedTexts, NoMemory>
        ensures { IfOk result (λ made. made ≡ section.now) }
    {
        if section.is_empty() {
            return Ok(SharedTexts::none());
        }
        let bytes = Bytes::from_slice(alloc, section)?;
        Ok(SharedTexts {
            bytes: Some(Arc::new(alloc, bytes)?),
        })
    }

    /// Another owner of the same bytes.
    pub fn share(&self) -> Result<SharedTexts, NoMemory>
        ensures { IfOk result (λ other. other ≡ self.now) }
    {
        match &self.bytes {
            Some(bytes) => Ok(SharedTexts {
                bytes: Some(Arc::try_clone(bytes)?),
            }),
            None => Ok(SharedTexts::none()),
        }
    }

    /// The bytes as a slice.
    pub fn as_slice(&self) -> &[u8]
        ensures { result.now ≡ self.now }
    {
        match &self.bytes {
            Some(bytes) => bytes.as_slice(),
            None => &[],
        }
    }
}
