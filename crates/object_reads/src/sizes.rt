//! In which order objects are begun. No result depends on it.

use ds_base::{Bytes, NoMemory};
use std::alloc::Global;

/// The objects from one up to another, counted from the first of them, those with larger files first: who begins a large
/// one last keeps the others waiting.
pub(crate) fn large_first(
    alloc: Global,
    files: &[Bytes],
    source: &[Option<u32>],
    first: u32,
    end: u32,
) -> Result<Vec<u32>, NoMemory> {
    let mut turns = Vec::new(alloc);
    for object in first..end {
        turns.push((!size_of(files, source, object), object))?;
    }
    turns.sort_unstable();
    let mut order = Vec::with_capacity(alloc, turns.len())?;
    for (_, object) in turns {
        order.push(object.saturating_sub(first))?;
    }
    Ok(order)
}

/// The bytes of an object's file, or 0 where it has none.
fn size_of(files: &[Bytes], source: &[Option<u32>], object: u32) -> u64 {
    let Some(Some(file)) = source.get(object as usize).copied() else {
        return 0;
    };
    match files.get(file as usize) {
        Some(bytes) => bytes.len() as u64,
        None => 0,
    }
}
