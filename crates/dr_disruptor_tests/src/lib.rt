//! Tests of the runs in one call by their public calls, of what no clause says: that they succeed with ample memory and
//! threads, and worked runs by what their handlers came to.
#![tactic(auto)]

#[cfg(test)]
mod checks;
#[cfg(test)]
mod ending_early;
#[cfg(test)]
mod faults;
#[cfg(test)]
mod here;
#[cfg(test)]
mod many_events;
#[cfg(test)]
mod not_called;
#[cfg(test)]
mod refusals;
#[cfg(test)]
mod sending;
#[cfg(test)]
mod several;
#[cfg(test)]
mod side_by_side;
#[cfg(test)]
mod teams;
pub mod work;
