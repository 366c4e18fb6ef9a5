//! Handlers of events.

ghost use Rattle.std.specs.Prelude.{◌≡◌, ◌+◌, ◌^◌, ◌<◌, ℕ, Bool, true, length};
ghost use Rattle.dr_meaning.specs.Calls.Handling.{GoesThrough, showings};

/// A handler that is given a copy of each event. It cannot fail: what can go wrong in it, it keeps.
/// Where an [`InPlaceHandler`] is wanted, pass it as [`ByValue`].
pub trait Handler<E> {
    /// How the handler's meaning goes from before a call to after it: a relation, since a handler
    /// that grows may find no memory. It says nothing, unless the type says what.
    ghost goes: { Self → E → ℕ → Bool → Self → Type 0 } = { λ _ _ _ _ _. Unit {0} };

    /// Handles the event of a sequence. `end` marks the last event that was available, so that a
    /// handler may put its work off until then, as LMAX's end of batch does.
    fn on_event(&mut self, event: E, s: u64, end: bool)
        // The relation `goes` of its type leads from what it was, by this event, to what it is then.
        ensures { goes self.old event s end self.new };
}

/// A handler that is shown events of any type where they lie, so that none is copied: LMAX's event
/// handler, and what workers and runs serve. It cannot fail either.
pub trait InPlaceHandler<E> {
    /// How the handler's meaning goes from before a call to after it, as [`Handler`] has it.
    ghost goes: { Self → E → ℕ → Bool → Self → Type 0 } = { λ _ _ _ _ _. Unit {0} };

    /// Handles the event of a sequence, as [`Handler::on_event`] does.
    fn on_event_in_place(&mut self, event: &E, s: u64, end: bool)
        // The relation `goes` of its type leads from what it was, by this event, to what it is then.
        ensures { goes self.old event.now s end self.new };
}

/// A handler that is lent is one, and stays the one that is lent.
impl<E, H: Handler<E>> Handler<E> for &mut H {
    ghost goes = { λ old event s end new. H.goes old.now event s end new.now × (new.ghost_name ≡ old.ghost_name) };

    #[inline]
    fn on_event(&mut self, event: E, s: u64, end: bool) {
        (**self).on_event(event, s, end);
    }
}

/// A [`Handler`] among those that are shown events where they lie: it is given a copy of each.
#[derive(Clone, Copy, Debug, Default, Drop)]
pub struct ByValue<H> {
    pub handler: H,
}

impl<E: Copy, H: Handler<E>> InPlaceHandler<E> for ByValue<H> {
    ghost goes = { λ old event s end new. H.goes old.handler event s end new.handler };

    #[inline]
    fn on_event_in_place(&mut self, event: &E, s: u64, end: bool) {
        self.handler.on_event(*event, s, end);
    }
}

/// Shows the events of a batch to a handler, each once and in order. Their sequences begin with
/// `first`, and where `end` is true the last one is marked.
pub fn show<E: Copy, H: Handler<E>>(handler: &mut H, events: &[E], first: u64, end: bool)
    requires { first + length events.now < 2 ^ 64 }
    ensures { GoesThrough H.goes handler.old (showings events.now first end) handler.new }
{
    let mut by_value = ByValue { handler };
    show_in_place(&mut by_value, events, first, end);
}

/// The same to a handler that is shown events where they lie.
pub fn show_in_place<E, H: InPlaceHandler<E>>(handler: &mut H, events: &[E], first: u64, end: bool)
    requires { first + length events.now < 2 ^ 64 }
    ensures { GoesThrough H.goes handler.old (showings events.now first end) handler.new }
{
    for (k, event) in events.iter().enumerate() {
        let is_last = k + 1 == events.len();
        handler.on_event_in_place(event, first + k as u64, end && is_last);
    }
}
