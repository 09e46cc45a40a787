//! Lists of parts.

use crate::part::Part;
use arrayvec::ArrayVec;
use std::marker::Model;

/// How many parts a claim has at most: one for each level of the highest board.
pub const MOST_PARTS: usize = 4;

/// What a place holds that is not used.
const UNUSED: Part = Part {
    level: 0,
    depth: 0,
    generation: 0,
};

/// The parts of a claim, the lowest level first. They lie in the value itself, which is so copied
/// as a whole.
#[derive(Clone, Copy, Debug, PartialEq, Eq)]
pub struct Parts {
    /// The parts, and then the places that are not used.
    places: [Part; MOST_PARTS],
    /// How many parts there are.
    count: usize,
}

impl Model for Parts {
    ghost use Rattle.std.specs.Prelude.{List, take, length};
    ghost use Rattle.psci_messages.specs.declared.part.Part.{Part};
    ghost use Rattle.psci_messages.specs.Places.{AreAtPlaces, places_of};

    ghost Value = { List Part };

    ghost view = { λ p. take p.count p.places };

    ghost invariant = { λ p. AreAtPlaces p.count p.places };

    ghost inverse = { λ parts. record { places = places_of parts; count = length parts } };

    ghost inverse_ok = { λ p h i. record { places = h.rest i; count = h.used i } };
}

ghost use Rattle.std.specs.Prelude.{◌≡◌, ◌<◌, ◌≤◌, ◌++◌, ◌∷◌, [], ◌↔◌, IsTrue, length, take};
ghost use Rattle.psci_messages.specs.Places.{places_of};

impl Parts {
    /// No parts.
    pub fn new() -> Parts
        ensures { result ≡ [] }
    {
        Parts {
            places: [UNUSED; MOST_PARTS],
            count: 0,
        }
    }

    /// Whether there is no room for another part.
    pub fn is_full(&self) -> bool
        ensures { IsTrue result ↔ (length self.now ≡ MOST_PARTS) }
    {
        self.count == MOST_PARTS
    }

    /// Adds a part after the others.
    pub fn push(&mut self, part: Part)
        requires { length self.old < MOST_PARTS }
        ensures { self.new ≡ self.old ++ part ∷ [] }
    {
        self.places[self.count] = part;
        self.count += 1;
    }

    /// Adds a part after the others, whose number is told: so it is not read.
    pub fn push_at(&mut self, place: usize, part: Part)
        requires room { place < MOST_PARTS }
        requires place { place ≡ length self.old }
        ensures { self.new ≡ self.old ++ part ∷ [] }
    {
        self.places[place] = part;
        self.count = place + 1;
    }

    /// Has no parts from now on.
    pub fn clear(&mut self)
        ensures { self.new ≡ [] }
    {
        self.places = [UNUSED; MOST_PARTS];
        self.count = 0;
    }

    /// The parts in their order.
    pub fn as_slice(&self) -> &[Part]
        ensures parts { result.now ≡ self.now }
        ensures few { length self.now ≤ MOST_PARTS }
    {
        &self.places[..self.count]
    }

    /// The parts, and then the places that are not used.
    pub(crate) fn places(&self) -> &[Part; MOST_PARTS]
        ensures { result.now ≡ places_of self.now }
    {
        &self.places
    }

    /// The same parts again.
    pub fn copy(&self) -> Parts
        ensures { result ≡ self.now }
    {
        *self
    }

    /// The first of these parts, so many where there are as many.
    pub fn first(&self, count: usize) -> Parts
        ensures { result ≡ take count self.now }
    {
        if count >= self.count {
            return *self;
        }
        let parts = self.as_slice();
        let mut first = Parts::new();
        for place in 0..count.min(parts.len()) {
            first.push(parts[place]);
        }
        first
    }
}

impl From<ArrayVec<Part, MOST_PARTS>> for Parts {
    ghost from_gives = { λ items parts. parts ≡ items.items };

    fn from(parts: ArrayVec<Part, MOST_PARTS>) -> Parts {
        let mut own = Parts::new();
        for part in parts.as_slice() {
            own.push(*part);
        }
        own
    }
}

impl From<Parts> for ArrayVec<Part, MOST_PARTS> {
    ghost from_gives = { λ parts items. items.items ≡ parts };

    fn from(parts: Parts) -> ArrayVec<Part, MOST_PARTS> {
        let mut items = ArrayVec::new();
        for part in parts.as_slice() {
            items.push(*part);
        }
        items
    }
}
