//! What a publication names: the events that it lends.

use std::marker::Brand;

/// The lendings of what a publication publishes, for its proof alone.
pub trait Lends<T> {
    ghost lents: { List (Lent T) };

    ghost use Rattle.std.specs.Prelude.{List};
    ghost use Rattle.dr_lent.specs.declared.lent.Lent.{Lent};
}

impl<T> Lends<T> for Brand {
    ghost use Rattle.std.specs.Prelude.{[]};

    ghost lents = { [] };
}
