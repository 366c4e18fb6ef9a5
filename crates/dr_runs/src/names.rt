//! What a step names that no record tells.

use std::marker::Brand;

/// A number that a step names, for its proof alone.
pub trait Names {
    ghost number: { ℕ };

    ghost use Rattle.std.specs.Prelude.{ℕ};
}

impl Names for Brand {
    ghost number = { 0 };
}
