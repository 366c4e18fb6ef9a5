//! The handlers of a run.

ghost use Rattle.std.specs.Prelude.{◌≡◌, ◌∷◌, [], ℕ, IfOk, List, length};
ghost use Rattle.dr_disruptor.specs.Handlers.{AllWentThrough};
ghost use Rattle.dr_disruptor.specs.OneOf.{AreThree, AreTwo};
ghost use Rattle.dr_disruptor.specs.declared.one_of.OneOf.TheVariants.{First, Second};

use crate::one_of::OneOf;
use dr_meaning::InPlaceHandler;
use std::alloc::{AllocError, Global};

/// The handlers of a run, in the graph's order: a list of one type, or two or three of different types. In the run they
/// are a list of one type.
pub trait Team<E>: Drop {
    /// The type of each in the run's list.
    type One: InPlaceHandler<E> + Drop + Send + 'static;

    /// They as that list.
    ghost listed: { Self → List Self.One };

    /// Whether such handlers could stand in a list so.
    ghost fits: { List Self.One → Type 0 };

    /// Whether each went through these events, in batches of at most so many.
    ghost went: { ℕ → List E → Self → Self → Type 0 };

    /// How many there are.
    fn many(&self) -> usize
        ensures { result ≡ length (listed self.now) };

    /// They in the run's list.
    fn into_list(self, alloc: Global) -> Result<Vec<Self::One>, AllocError>
        ensures { IfOk result (λ list. list.items ≡ listed self) };

    /// They as they came back in a list.
    fn from_list(list: Vec<Self::One>) -> Self
        requires { fits list.items }
        ensures { listed result ≡ list.items };

    /// A handler that goes through events stays of its type.
    ghost stay: { (most : ℕ) (events : List E) (team : Self) (afters : List Self.One) → AllWentThrough Self.One.goes most events (listed team) afters → fits afters };

    /// Each goes as its type does.
    ghost go: { (most : ℕ) (events : List E) (team after : Self) → AllWentThrough Self.One.goes most events (listed team) (listed after) → went most events team after };
}

impl<E, H: InPlaceHandler<E> + Drop + Send + 'static> Team<E> for Vec<H> {
    ghost use Rattle.dr_disruptor.specs.Handlers.{AllWentThrough};

    type One = H;

    ghost listed = { λ team. team.items };

    ghost fits = { λ list. Unit {0} };

    ghost went = { λ most events team after. AllWentThrough H.goes most events team.items after.items };

    fn many(&self) -> usize {
        self.len()
    }

    fn into_list(self, _alloc: Global) -> Result<Vec<H>, AllocError> {
        Ok(self)
    }

    fn from_list(list: Vec<H>) -> Vec<H>
        ensures { result.items ≡ list.items }
    {
        list
    }

    ghost stay = { λ most events team afters went. tt };

    ghost go = { λ most events team after went. went };
}

impl<
    E,
    A: InPlaceHandler<E> + Drop + Send + 'static,
    B: InPlaceHandler<E> + Drop + Send + 'static,
> Team<E> for (A, B) {
    ghost use Rattle.std.specs.Prelude.{◌≡◌, ◌∷◌, []};
    ghost use Rattle.dr_disruptor.specs.Handlers.{WentThrough};
    ghost use Rattle.dr_disruptor.specs.OneOf.{AreTwo};
    ghost use Rattle.dr_disruptor.specs.Teams.{go_two, stay_two};
    ghost use Rattle.dr_disruptor.specs.declared.one_of.OneOf.TheVariants.{First, Second};

    type One = OneOf<A, B>;

    ghost listed = { λ team. First team.0 ∷ Second team.1 ∷ [] };

    ghost fits = { AreTwo };

    ghost went = { λ most events team after. WentThrough A.goes most team.0 after.0 events × WentThrough B.goes most team.1 after.1 events };

    fn many(&self) -> usize {
        2
    }

    fn into_list(self, alloc: Global) -> Result<Vec<OneOf<A, B>>, AllocError> {
        let (first, second) = self;
        let mut list = Vec::with_capacity(alloc, 2)?;
        list.push(OneOf::First(first))?;
        list.push(OneOf::Second(second))?;
        Ok(list)
    }

    fn from_list(mut list: Vec<OneOf<A, B>>) -> (A, B)
        requires { AreTwo list.items }
        ensures { First result.0 ∷ Second result.1 ∷ [] ≡ list.items }
    {
        match (list.pop(), list.pop()) {
            (Some(OneOf::Second(second)), Some(OneOf::First(first))) => (first, second),
            _ => unreachable!(),
        }
    }

    ghost stay = { λ most events team afters went. stay_two A.goes B.goes most team.0 team.1 events afters went };

    ghost go = { λ most events team after went. go_two A.goes B.goes most team.0 after.0 team.1 after.1 events went };
}

impl<
    E,
    A: InPlaceHandler<E> + Drop + Send + 'static,
    B: InPlaceHandler<E> + Drop + Send + 'static,
    C: InPlaceHandler<E> + Drop + Send + 'static,
> Team<E> for (A, B, C) {
    ghost use Rattle.std.specs.Prelude.{◌≡◌, ◌∷◌, []};
    ghost use Rattle.dr_disruptor.specs.Handlers.{WentThrough};
    ghost use Rattle.dr_disruptor.specs.OneOf.{AreThree};
    ghost use Rattle.dr_disruptor.specs.Teams.{go_three, stay_three};
    ghost use Rattle.dr_disruptor.specs.declared.one_of.OneOf.TheVariants.{First, Second};

    type One = OneOf<A, OneOf<B, C>>;

    ghost listed = { λ team. First team.0 ∷ Second (First team.1) ∷ Second (Second team.2) ∷ [] };

    ghost fits = { AreThree };

    ghost went = { λ most events team after. WentThrough A.goes most team.0 after.0 events × WentThrough B.goes most team.1 after.1 events × WentThrough C.goes most team.2 after.2 events };

    fn many(&self) -> usize {
        3
    }

    fn into_list(self, alloc: Global) -> Result<Vec<OneOf<A, OneOf<B, C>>>, AllocError> {
        let (first, second, third) = self;
        let mut list = Vec::with_capacity(alloc, 3)?;
        list.push(OneOf::First(first))?;
        list.push(OneOf::Second(OneOf::First(second)))?;
        list.push(OneOf::Second(OneOf::Second(third)))?;
        Ok(list)
    }

    fn from_list(mut list: Vec<OneOf<A, OneOf<B, C>>>) -> (A, B, C)
        requires { AreThree list.items }
        ensures { First result.0 ∷ Second (First result.1) ∷ Second (Second result.2) ∷ [] ≡ list.items }
    {
        match (list.pop(), list.pop(), list.pop()) {
            (
                Some(OneOf::Second(OneOf::Second(third))),
                Some(OneOf::Second(OneOf::First(second))),
                Some(OneOf::First(first)),
            ) => (first, second, third),
            _ => unreachable!(),
        }
    }

    ghost stay = { λ most events team afters went. stay_three A.goes B.goes C.goes most team.0 team.1 team.2 events afters went };

    ghost go = { λ most events team after went. go_three A.goes B.goes C.goes most team.0 after.0 team.1 after.1 team.2 after.2 events went };
}
