//! Tests of `dr_lock` and `dr_workers` by their public calls, of what no clause says: that the calls succeed with ample memory, worked
//! runs through a lock by their replies, and workers over ends that fail.
#![tactic(auto)]

#[cfg(test)]
mod audits;
#[cfg(test)]
mod checks;
#[cfg(test)]
mod ends;
#[cfg(test)]
mod faults;
#[cfg(test)]
mod finishing;
#[cfg(test)]
mod gates;
#[cfg(test)]
mod graphs;
#[cfg(test)]
mod histories;
#[cfg(test)]
mod orders;
#[cfg(test)]
mod patience;
#[cfg(test)]
mod playing;
#[cfg(test)]
mod ringing;
#[cfg(test)]
mod rows;
#[cfg(test)]
mod turns;
#[cfg(test)]
mod words;
#[cfg(test)]
mod workers;
