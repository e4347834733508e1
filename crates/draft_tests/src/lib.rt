//! Drafts of units (`unit_draft`), made by one thread and by two.
//!
//! Layer: samples. What the parts of a draft are is worked in `proofs/WorkedUnit.antt`, over the definitions that
//! the contracts of the calls cite. There is nothing here but tests.
#![tactic(auto)]

#[cfg(test)]
mod drafts;
#[cfg(test)]
mod parts;
#[cfg(test)]
mod units;
