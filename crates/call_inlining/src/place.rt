//! Places of functions that call each other, and which slots of a program stand for them.
ghost use Rattle.std.specs.Prelude.{◌≡◌, ◌↔◌, IsTrue};
ghost use Rattle.inlined_calls.specs.Calls.{at_slot, place_at, callee, caller_at};
ghost use Rattle.call_inlining.specs.Places.{place_of, callers_with};
ghost use Rattle.inlined_calls.specs.Inlined.{StandsFor};

use inlined_calls::functions::Caller;
use std::marker::Model;

/// Where a run is: at a slot of a function, within calls, of which the last comes first.
#[derive(Drop)]
pub struct Place {
    function: usize,
    slot: usize,
    callers: Vec<Caller>,
}

impl Model for Place {
    ghost use Rattle.inlined_calls.specs.Calls.{Place as PlaceValue};

    ghost Value = { PlaceValue };

    ghost view = { λ p. record { function = p.function; slot = p.slot; callers = p.callers.items } };
}

impl Place {
    pub fn new(function: usize, slot: usize, callers: Vec<Caller>) -> Place
        ensures { result ≡ place_at function slot callers.items }
    {
        Place {
            function,
            slot,
            callers,
        }
    }

    pub fn function(&self) -> usize
        ensures { result ≡ self.now.function }
    {
        self.function
    }

    pub fn slot(&self) -> usize
        ensures { result ≡ self.now.slot }
    {
        self.slot
    }

    /// The calls that the run is in, the last one first.
    pub fn callers(&self) -> &[Caller]
        ensures { result.now ≡ self.now.callers }
    {
        &self.callers
    }

    /// The call that is at the place, as one that a run is in.
    pub(crate) fn caller(&self) -> Caller
        ensures { result ≡ caller_at self.now }
    {
        Caller {
            function: self.function,
            slot: self.slot,
        }
    }

    /// Whether it is that place.
    fn is_at(&self, spot: &Spot<'_>) -> bool
        ensures { IsTrue result → self.now ≡ place_of spot.now }
    {
        self.function() == spot.function
            && self.slot() == spot.slot
            && are_within(self.callers(), spot.last, spot.callers)
    }
}

/// A place that is looked for: a slot of a function, within a last call, if there is one, and other calls.
#[derive(Clone, Copy)]
pub(crate) struct Spot<'a> {
    pub(crate) function: usize,
    pub(crate) slot: usize,
    pub(crate) last: Option<Caller>,
    pub(crate) callers: &'a [Caller],
}

/// Whether the calls are the same.
fn are_same(a: &[Caller], b: &[Caller]) -> bool
    ensures { IsTrue result ↔ a.now ≡ b.now }
{
    a == b
}

/// Whether calls are a last one, if there is one, and others.
fn are_within(callers: &[Caller], last: Option<Caller>, others: &[Caller]) -> bool
    ensures { IsTrue result ↔ callers.now ≡ callers_with last others.now }
{
    match last {
        None => are_same(callers, others),
        Some(last) => match callers {
            [first, rest @ ..] => *first == last && are_same(rest, others),
            [] => false,
        },
    }
}

/// A slot of a program, and a place for which it stands.
#[derive(Drop)]
pub struct Placed {
    slot: usize,
    place: Place,
}

impl Model for Placed {
    ghost use Rattle.inlined_calls.specs.Inlined.{Placed as PlacedValue};

    ghost Value = { PlacedValue };

    ghost view = { λ p. record { slot = p.slot; place = p.place } };
}

impl Placed {
    pub fn new(slot: usize, place: Place) -> Placed
        ensures slot { result.slot ≡ slot }
        ensures place { result.place ≡ place }
    {
        Placed { slot, place }
    }

    pub fn slot(&self) -> usize
        ensures { result ≡ self.now.slot }
    {
        self.slot
    }

    pub fn place(&self) -> &Place
        ensures { result.now ≡ self.now.place }
    {
        &self.place
    }
}

/// Whether the slot stands for a place, among places in the order of their slots.
pub(crate) fn stands_for(places: &[Placed], slot: usize, spot: &Spot<'_>) -> bool
    ensures { IsTrue result → StandsFor places.now slot (place_of spot.now) }
{
    let mut index = places.partition_point(|placed| placed.slot() < slot);
    while let Some(placed) = places.get(index) {
        if placed.slot() != slot {
            return false;
        }
        if placed.place().is_at(spot) {
            return true;
        }
        index += 1;
    }
    false
}

/// Whether the slot stands for another slot of the same function, within the same calls.
pub(crate) fn stays_at(places: &[Placed], slot: usize, place: &Place, to: usize) -> bool
    ensures { IsTrue result → StandsFor places.now slot (at_slot place.now to) }
{
    let spot = Spot {
        function: place.function(),
        slot: to,
        last: None,
        callers: place.callers(),
    };
    stands_for(places, slot, &spot)
}

/// Whether the slot stands for the first slot of a function that is called at the place.
pub(crate) fn enters(places: &[Placed], slot: usize, place: &Place, function: usize) -> bool
    ensures { IsTrue result → StandsFor places.now slot (callee place.now function) }
{
    let spot = Spot {
        function,
        slot: 0,
        last: Some(place.caller()),
        callers: place.callers(),
    };
    stands_for(places, slot, &spot)
}
