//! How the cases print their lines.

use crate::fault::Fault;
use dr_meaning::Refusal;
use std::cell::Cell;
use std::fmt::Debug;
use std::io;

/// Where a case prints its lines. At its first fault the case has ended: nothing more is printed. So it has no need to look
/// for one after each line, which its proof would pay for.
#[derive(Drop)]
pub struct Lines<'a, R> {
    pub rt: &'a R,
    fault: Cell<Option<Fault>>,
}

impl<'a, R: Print> Lines<'a, R> {
    pub fn new(rt: &'a R) -> Lines<'a, R> {
        Lines {
            rt,
            fault: Cell::new(None),
        }
    }

    /// Ends the case, if it has not ended.
    pub fn end(&self, fault: Fault) {
        if self.fault.get().is_none() {
            self.fault.set(Some(fault));
        }
    }

    fn keep(&self, written: io::Result<()>) {
        if let Err(error) = written {
            self.end(Fault::from(error));
        }
    }

    /// Prints words within a line, if the case has not ended.
    fn put(&self, words: &str) {
        if self.fault.get().is_none() {
            self.keep(print!(self.rt; "{words}"));
        }
    }

    fn put_value<T: Copy + Debug>(&self, value: T) {
        if self.fault.get().is_none() {
            self.keep(print!(self.rt; "{value:?}"));
        }
    }

    /// A line of words.
    pub fn words(&self, words: &str) {
        self.put(words);
        self.put("\n");
    }

    /// A line with a value.
    pub fn value<T: Copy + Debug>(&self, value: T) {
        self.put_value(value);
        self.put("\n");
    }

    /// A line with words, and a value.
    pub fn about<T: Copy + Debug>(&self, words: &str, value: T) {
        self.put(words);
        self.put(" ");
        self.value(value);
    }

    /// A line with a name, words, and a value.
    pub fn named<T: Copy + Debug>(&self, name: &str, words: &str, value: T) {
        self.put(name);
        self.put(" ");
        self.about(words, value);
    }

    /// A line with a value, words, and a value.
    pub fn between<T: Copy + Debug, U: Copy + Debug>(&self, first: T, words: &str, second: U) {
        self.put_value(first);
        self.put(words);
        self.value(second);
    }

    /// A line that tells how many sequences are claimed, in how many slots.
    pub fn claims(&self, next: u64, size: u64) {
        self.put_value(next);
        self.put(" claimed in ");
        self.put_value(size);
        self.words(" slots");
    }

    /// A line with words before each of three values, and after them.
    pub fn three<T: Copy + Debug, U: Copy + Debug, V: Copy + Debug>(
        &self,
        words: &[&str; 4],
        first: T,
        second: U,
        third: V,
    ) {
        let [before, then, last, after] = *words;
        self.put(before);
        self.put_value(first);
        self.put(then);
        self.put_value(second);
        self.put(last);
        self.put_value(third);
        self.words(after);
    }

    /// A call that is not to be refused. Its answer is no line.
    pub fn done(&self, answer: Result<(), Refusal>) {
        if let Err(refusal) = answer {
            self.end(Fault::from(refusal));
        }
    }

    /// The same of a call that answers a value, and then a line tells that.
    pub fn given<T: Copy + Debug>(&self, answer: Result<T, Refusal>) {
        match answer {
            Ok(value) => self.value(value),
            Err(refusal) => self.end(Fault::from(refusal)),
        }
    }

    /// The same, with a second value.
    pub fn given_with<T: Copy + Debug, U: Copy + Debug>(
        &self,
        answer: Result<T, Refusal>,
        second: U,
    ) {
        match answer {
            Ok(value) => self.between(value, " ", second),
            Err(refusal) => self.end(Fault::from(refusal)),
        }
    }

    /// Why the case ended, if it did so early.
    pub fn told(&self) -> Result<(), Fault> {
        match self.fault.get() {
            Some(fault) => Err(fault),
            None => Ok(()),
        }
    }

    /// Whether the case ended for want of memory, which a line then says. It can go on.
    pub fn ran_out(&self) -> bool {
        let ran_out = matches!(self.fault.get(), Some(Fault::Memory));
        if ran_out {
            self.fault.set(None);
            self.words("no-memory");
        }
        ran_out
    }
}
