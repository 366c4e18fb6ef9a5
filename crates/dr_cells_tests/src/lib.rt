//! Callers of `dr_cells`, whose wrong bodies the check refuses by what its contracts require, and tests of what no
//! clause says: that a strip is made with ample memory, that threads read a cell at once and take turns at it, that
//! values are dropped once each, and which types go to another thread.
#![tactic(auto)]

#[cfg(test)]
mod crossing;
pub mod lending;
pub mod passing;
#[cfg(test)]
mod strips;
#[cfg(test)]
mod threads;
