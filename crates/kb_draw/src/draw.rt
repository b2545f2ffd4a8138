//! A draw and its seats.

ghost use Rattle.std.specs.Prelude.{◌≡◌, ℕ, ◌+◌, ◌^◌, ◌<◌, ◌≤◌, true, [], length, All, IfOk};

use crate::counter::{Bounds, Counter, Draws, Place, SplitOff, TakeIn};
use atomic_table::Table;
use kb_word::Memory;
use std::alloc::Global;

/// A draw of the numbers from a first one up to an end, by a fixed number of seats.
#[derive(Drop)]
pub struct Draw {
    counter: Counter,
    bounds: Bounds,
    ghost one_word: { (counter.shared.table_id.words ≡ 1) × (counter.shared.table_id.slots ≡ 0) },
    ghost told: { counter.shared.key ≡ bounds },
    ghost ordered: { (bounds.first ≤ bounds.end) × (bounds.end ≤ 2 ^ 62) },
    ghost few: { (1 ≤ bounds.seats) × (bounds.seats ≤ 64) },
}

/// A seat at a draw: who holds it may draw. A seat that drew a number past the end, the end or more, is dry.
#[derive(Drop)]
pub struct Seat {
    place: Place,
    dry: bool,
}

impl Draw {
    ghost use Rattle.kb_draw.specs.Counter.{owner};
    ghost use Rattle.kb_draw.specs.Totals.{total};
    ghost use Rattle.kb_draw.specs.Seats.{IsPlaceAt, IsSeatOf, IsNewSeatOf, Takes, numbers_of, times_drawn};

    /// A draw of the numbers from the first one up to the end, and all its seats.
    pub fn new(alloc: Global, first: u64, end: u64, seats: u32) -> Result<(Draw, Vec<Seat>), Memory>
        requires { (first ≤ end) × (end ≤ 2 ^ 62) × (1 ≤ seats) × (seats ≤ 64) }
        ensures bounds { IfOk result (λ made.
            (made.0.bounds.first ≡ first) × (made.0.bounds.end ≡ end)
            × (made.0.bounds.seats ≡ seats)) }
        ensures seats { IfOk result (λ made.
            (length made.1.items ≡ seats) × All (IsNewSeatOf made.0) made.1.items) }
    {
        let bounds = Bounds { first, end, seats };
        let (counter, place) = Table::of_words(alloc, &[first], &bounds)?;
        let draw = Draw { counter, bounds };
        let seats = draw.deal(alloc, place)?;
        Ok((draw, seats))
    }

    /// All seats, from the place that may split them off.
    fn deal(&self, alloc: Global, mut place: Place) -> Result<Vec<Seat>, Memory>
        requires { IsPlaceAt self.now place (owner self.now.bounds) }
        ensures { IfOk result (λ seats.
            (length seats.items ≡ self.now.bounds.seats) × All (IsNewSeatOf self.now) seats.items) }
    {
        let mut seats = Vec::new(alloc);
        let mut dealt = 1;
        while dealt < self.bounds.seats {
            let other = self.counter.shared.split_seat::<SplitOff>(&mut place);
            seats.push(Seat {
                place: other,
                dry: false,
            })?;
            dealt += 1;
        }
        seats.push(Seat { place, dry: false })?;
        Ok(seats)
    }

    /// Draws the next number. A number past the end is not answered, and the seat is dry from then
    /// on: it answers `None` without a step.
    pub fn next(&self, seat: &mut Seat) -> Option<u64>
        requires { IsSeatOf self.now seat.old }
        ensures seat { IsSeatOf self.now seat.new }
        ensures taken { Takes self.now.bounds seat.old result seat.new }
    {
        if seat.dry {
            return None;
        }
        let number = self
            .counter
            .shared
            .fetch_add::<Draws>(&mut seat.place, 0, 1);
        if number < self.bounds.end {
            return Some(number);
        }
        seat.dry = true;
        None
    }

    /// Ends a draw, by all its seats. No number was drawn twice, and where the seats are dry each
    /// number was drawn once.
    pub fn close(self, seats: Vec<Seat>)
        requires { (length seats.items ≡ self.bounds.seats) × All (IsSeatOf self) seats.items }
        ensures once { (number : ℕ) → times_drawn number seats.items ≤ 1 }
        ensures all { All (λ seat. seat.dry ≡ true) seats.items → (number : ℕ)
            → self.bounds.first ≤ number → number < self.bounds.end
            → times_drawn number seats.items ≡ 1 }
    {
        let place = self.gathered(seats);
        let Draw { counter, bounds: _ } = self;
        counter.close_with(place).free();
    }

    /// One place that has taken in all seats.
    fn gathered(&self, mut seats: Vec<Seat>) -> Place
        requires { (0 < length seats.items) × All (IsSeatOf self.now) seats.items }
        ensures place { (result.table_id ≡ self.now.counter.shared.table_id) × (result.me.1 ≡ []) }
        ensures seats { result.me.0.seats ≡ length seats.items }
        ensures numbers { (weight : ℕ → ℕ)
            → total weight result.me.0.numbers
            ≡ total (λ seat. total weight (numbers_of seat)) seats.items }
    {
        let Some(last) = seats.pop() else {
            unreachable!()
        };
        let Seat { place, dry: _ } = last;
        self.with_all(place, seats)
    }

    /// A place that takes in seats.
    fn with_all(&self, mut place: Place, mut seats: Vec<Seat>) -> Place
        requires place { (place.table_id ≡ self.now.counter.shared.table_id) × (place.me.1 ≡ []) }
        requires seats { All (IsSeatOf self.now) seats.items }
        ensures place { (result.table_id ≡ self.now.counter.shared.table_id) × (result.me.1 ≡ []) }
        ensures seats { result.me.0.seats ≡ place.me.0.seats + length seats.items }
        ensures numbers { (weight : ℕ → ℕ) → total weight result.me.0.numbers
            ≡ total weight place.me.0.numbers
            + total (λ seat. total weight (numbers_of seat)) seats.items }
    {
        while let Some(seat) = seats.pop() {
            let Seat {
                place: other,
                dry: _,
            } = seat;
            self.counter.shared.join_seat::<TakeIn>(&mut place, other);
        }
        place
    }
}
