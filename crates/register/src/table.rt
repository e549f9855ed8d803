//! The table of places. One place is lent at a time, so that what is done to it is done to no other.
ghost use Rattle.std.specs.Prelude.{◌≡◌, ℕ, ◌<◌, ◌≤◌, true, false, length, get_or, take, replicate, None, MatchOption, ◌≢◌, slice_index_or, slice_set};
ghost use Rattle.std.specs.Borrow.{sem, follows};
ghost use Rattle.register.specs.contracts.table.Table.{the_row as table};
ghost use Rattle.register.specs.declared.place.Place.{Place as P};
ghost use Rattle.register.specs.declared.place.PlaceState.TheVariants.{Free, InForce};
ghost use Rattle.register.specs.Places.{held, bears, is_free_place, Nowhere, NoneFree, blank, unused, once};

use crate::place::{Place, PlaceState};
use curve::Curve;

/// The places of a register.
// a device has no heap and fixed memory: the places are an array, and one is lent at a time
#[derive(Clone, Copy)]
pub struct Table<T> {
    pub places: [T; 32],
}

impl<T> Table<T> {
    // an index and no type for one: it is found, lent by and forgotten within one call
    /// Lends a place. When the loan ends, the table holds there what was left there, and is else as it was.
    pub(crate) fn place(&mut self, i: usize) -> &mut T
        requires { i < 32 }
        ensures* follows { sem 𝓛 (follows (table T.row) T.row self.entry.ghost_name result.ghost_name (λ w. record { places = slice_set self.old.places i w })) }
        ensures value { (d : T) → result.now ≡ slice_index_or self.old.places i d }
    {
        &mut self.places[i]
    }
}

impl Table<Place> {
    /// A table whose places are all free.
    pub(crate) fn empty() -> Table<Place>
        ensures { result.places ≡ replicate 32 unused }
    {
        let place = Place {
            state: PlaceState::Free,
            count: 0,
            stages: [0; 16],
            flows: [0; 16],
        };
        Table {
            places: [place; 32],
        }
    }

    /// The place that is in force with a number.
    pub(crate) fn find(&self, number: u16) -> Option<usize>
        ensures { MatchOption result (Nowhere self.now.places number) (λ i. (i < 32) × (bears (get_or self.now.places i blank).state number ≡ true)) }
    {
        self.places
            .iter()
            .position(|place| place.state == PlaceState::InForce(number))
    }

    /// Whether a place is in force with a number.
    pub(crate) fn has(&self, number: u16) -> bool
        ensures none { result ≡ false → Nowhere self.now.places number }
        ensures some { result ≡ true → Nowhere self.now.places number → ⊥ }
    {
        self.find(number).is_some()
    }

    /// A free place, if there is one. Which of them is nobody's business.
    pub(crate) fn vacant(&self) -> Option<usize>
        ensures { MatchOption result (NoneFree self.now.places) (λ i. (i < 32) × (is_free_place (get_or self.now.places i blank).state ≡ true)) }
    {
        self.places
            .iter()
            .position(|place| place.state == PlaceState::Free)
    }

    /// Puts a curve in force at a place, and changes no other.
    pub(crate) fn occupy(&mut self, i: usize, number: u16, curve: Curve<'_>)
        requires { i < 32 }
        ensures { (p : P) × (self.new.places ≡ slice_set self.old.places i p) × (p.state ≡ InForce number) × (take p.count p.stages ≡ curve.entry.stages.now) × (take p.count p.flows ≡ curve.entry.flows.now) }
    {
        *self.place(i) = Place::of(number, curve);
    }

    /// Frees a place, and changes no other.
    fn release(&mut self, i: usize)
        requires { i < 32 }
        ensures { (p : P) × (self.new.places ≡ slice_set self.old.places i p) × (p.state ≡ Free) × (p.count ≡ (get_or self.old.places i blank).count) × (p.stages ≡ (get_or self.old.places i blank).stages) × (p.flows ≡ (get_or self.old.places i blank).flows) }
    {
        self.place(i).state = PlaceState::Free;
    }

    /// Frees the place that is in force with a number, if there is one.
    pub(crate) fn evict(&mut self, number: u16)
        requires whole { length self.old.places ≡ 32 }
        requires apart { once self.old.places number ≡ true }
        ensures gone { held self.new.places number ≡ None }
        ensures others { (m : ℕ) → (m ≢ number) → held self.new.places m ≡ held self.old.places m }
        ensures onces { (m : ℕ) → once self.old.places m ≡ true → once self.new.places m ≡ true }
        ensures long { length self.new.places ≡ length self.old.places }
        ensures freed { (j : ℕ) → bears (get_or self.old.places j blank).state number ≡ true → is_free_place (get_or self.new.places j blank).state ≡ true }
        ensures stays { (j : ℕ) → bears (get_or self.old.places j blank).state number ≡ false → slice_index_or self.new.places j blank ≡ slice_index_or self.old.places j blank }
        ensures counts { (j : ℕ) → (get_or self.new.places j blank).count ≡ (get_or self.old.places j blank).count }
    {
        if let Some(i) = self.find(number) {
            self.release(i);
        }
    }
}
