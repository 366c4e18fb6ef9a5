//! Tests of `dr_drive`, `dr_replay` and the small crates by their public calls, of what no clause says: that calls succeed
//! with ample memory, printed texts, worked rows, and that runs over streams that fail, and replays whose workers are
//! stopped, end as they are to.
#![tactic(auto)]

#[cfg(test)]
mod accounts;
#[cfg(test)]
mod by_threads;
#[cfg(test)]
mod checks;
#[cfg(test)]
mod failing;
#[cfg(test)]
mod files;
#[cfg(test)]
mod graphs;
#[cfg(test)]
mod records;
#[cfg(test)]
mod refusals;
#[cfg(test)]
mod slots;
#[cfg(test)]
mod streams;
#[cfg(test)]
mod ways;
