//! The report, in its parts.

/// The report of some events: the parts of the three handlers, which are written one after another. Nobody joins them,
/// so the text is there once.
#[derive(Drop)]
pub struct Report {
    pub journal: String,
    pub replica: String,
    pub business: String,
}
