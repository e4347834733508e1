//! The three tables.

/// A table, by what its names are the names of.
#[derive(Clone, Copy)]
pub enum Which {
    /// Functions, labels and variables: `__apple_names`.
    Names,
    /// `__apple_types`.
    Types,
    /// `__apple_namespac`.
    Namespaces,
}
