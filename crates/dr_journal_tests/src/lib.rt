//! Tests of `dr_journal` by its public calls, of what no clause says: that the calls succeed with
//! ample memory, files byte by byte, and real files.
#![tactic(auto)]

#[cfg(test)]
mod checks;
#[cfg(test)]
mod events;
#[cfg(test)]
mod files;
#[cfg(test)]
mod memory;
