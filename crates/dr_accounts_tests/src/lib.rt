//! Tests of `dr_accounts` and `dr_operations` by their public calls, of what no clause says: that calls succeed with ample
//! memory, and worked rows, whose texts come from the rules of the format.
#![tactic(auto)]

#[cfg(test)]
mod answers;
#[cfg(test)]
mod arriving;
#[cfg(test)]
mod written;
