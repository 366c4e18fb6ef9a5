//! How what a seat stands for parts, and comes together in another. None of these is ever made: they
//! stand in types alone.

use crate::view::View;
use atomic_table::{Join, Split};

/// The first record of a view stays with its seat, and the others go to another.
pub struct Cut;

impl<E, S> Split<View<E, S>> for Cut {
    ghost use Rattle.dr_runs.specs.Seats.{first_view, rest_view};

    ghost left = { first_view };

    ghost right = { rest_view };
}

/// A view leaves its seat, which keeps the slots that it has in hand.
pub struct Leave;

impl<E, S> Split<View<E, S>> for Leave {
    ghost use Rattle.dr_runs.specs.Seats.{no_view};

    ghost left = { λ _. no_view };

    ghost right = { λ v. v };
}

/// The views of two seats come together in one.
pub struct Together;

impl<E, S> Join<View<E, S>> for Together {
    ghost use Rattle.dr_runs.specs.Seats.{both_views, no_view};

    ghost both = { both_views };

    ghost spent = { no_view };
}
