//! Tests of `run_cell` on threads, over the public names of the crates below: what a recording with its report can't
//! show.
#![tactic(auto)]

#[cfg(test)]
mod held;
#[cfg(test)]
mod tried;
