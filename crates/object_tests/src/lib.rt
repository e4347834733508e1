//! What is read of an object: texts, units, and whole objects.
//!
//! Layer: object readers. Expected values are other tools' or were written out by hand from the standard. What the bytes of
//! values and of units mean is worked in `proofs/`, over the definitions that the contracts of the calls cite. There is
//! nothing here but tests.
#![tactic(auto)]

#[cfg(test)]
mod objects;
#[cfg(test)]
mod parts;
#[cfg(test)]
mod sections;
