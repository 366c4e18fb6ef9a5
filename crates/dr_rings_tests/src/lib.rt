//! Tests of `dr_ring`, `dr_plain` and `dr_plain_senders` by their public calls, of what no clause says: that the calls
//! succeed with ample memory and threads, worked runs by their answers, printed texts, which events lie where, and that
//! threads hand all events over.
#![tactic(auto)]

#[cfg(test)]
mod answering;
#[cfg(test)]
mod calls;
#[cfg(test)]
mod checks;
#[cfg(test)]
mod counted;
#[cfg(test)]
mod dropped;
#[cfg(test)]
mod ends;
#[cfg(test)]
mod events;
#[cfg(test)]
mod faults;
#[cfg(test)]
mod graphs;
#[cfg(test)]
mod leaving;
#[cfg(test)]
mod moments;
#[cfg(test)]
mod plain;
#[cfg(test)]
mod plain_senders;
#[cfg(test)]
mod playing;
#[cfg(test)]
mod rows;
#[cfg(test)]
mod text_threads;
#[cfg(test)]
mod texts;
#[cfg(test)]
mod threads;
#[cfg(test)]
mod threes;
#[cfg(test)]
mod words;
pub mod work;
