//! Tests of a device that several threads share, over the public names of the crates below. What one thread makes of a
//! recording is a row of `cell_rows`.
#![tactic(auto)]

#[cfg(test)]
mod asking;
#[cfg(test)]
mod callers;
#[cfg(test)]
mod contention;
#[cfg(test)]
mod gates;
#[cfg(test)]
mod holding;
