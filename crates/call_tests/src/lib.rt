//! Tests of what no recording reaches, over the public names of the crates below: threads that share a table of parts,
//! and the adapters of std. What a recording reaches is a row of `cell_rows`, and what a definition comes to is a
//! worked example beside it, in its crate's `proofs/Worked.antt`.
#![tactic(auto)]

#[cfg(test)]
mod outside;
#[cfg(test)]
mod parts;
#[cfg(test)]
mod pool;
#[cfg(test)]
mod waiting;
