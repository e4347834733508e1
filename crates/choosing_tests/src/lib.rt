//! Tables over which entries are live (`liveness`), and a run of the calls that name them (`odr_names`).
//!
//! Layer: output graph. Which names two objects share, and the shape of what is linked of them (`link_graph`), is worked in
//! `proofs/WorkedLinks.antt`. There is nothing here but tests.
#![tactic(auto)]

#[cfg(test)]
mod live;
#[cfg(test)]
mod named;
#[cfg(test)]
mod rows;
