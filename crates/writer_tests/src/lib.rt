//! Files that `sample_objects`, `layout` and `dsym_write` make, and below these the writers of each section.
//!
//! What stands in them is shown over the definitions that their contracts cite, in `proofs/WorkedGraphs.antt` and
//! `WorkedFiles.antt`. Here it is shown that they are made, and of generated objects that they are those of another program.
//!
//! Layer: samples. There is nothing here but tests.
#![tactic(auto)]

#[cfg(test)]
mod generated;
#[cfg(test)]
mod made;
