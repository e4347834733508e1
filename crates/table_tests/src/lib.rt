//! Accelerator tables as they are made, and what is found in them.
//!
//! What stands in a table, what is found there and which names a graph enters is shown over the definitions that the contracts
//! of `accel_tables` cite, in its `proofs/Worked.antt` and `WorkedNames.antt`, and in `table_laws`. Here it is shown that tables
//! are made, that they are read, and that names are collected.
//!
//! Layer: laws. There is nothing here but tests.
#![tactic(auto)]

#[cfg(test)]
mod names;
#[cfg(test)]
mod tables;
