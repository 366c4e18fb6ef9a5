//! What an end sees of a word that another one stores.

/// A load of a word that another end stores: which word, and what was found. No value of it is ever
/// made: it stands in proofs alone.
pub struct Look {
    pub word: u64,
    pub value: u64,
}
