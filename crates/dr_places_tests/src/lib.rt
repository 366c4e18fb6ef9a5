//! Tests of what no clause says of `dr_places`: that places are made with ample memory, that what is left
//! lies there for when they are closed, from any thread, and that each of it is dropped once.
#![tactic(auto)]

#[cfg(test)]
mod leaving;
#[cfg(test)]
mod threads;
