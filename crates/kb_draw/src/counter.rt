//! The counter that seats draw from: a table of one word, and its rule.

use atomic_table::{Join, Play, Split, Table, TableRule};
use std::alloc::Global;
use std::collections::LinkedList;

/// What a counter is made for: the numbers from the first one up to the end, for so many seats.
#[derive(Clone, Copy, Debug)]
pub struct Bounds {
    pub first: u64,
    pub end: u64,
    pub seats: u32,
}

/// What a place at the counter knows: the first number, the numbers that it drew, in their order,
/// how many seats went into it, and how many may still be split off. No value of it is made; in
/// contracts a `LinkedList` is a list.
pub struct View {
    pub first: u64,
    pub numbers: LinkedList<u64>,
    pub seats: u32,
    pub splits: u32,
}

/// The rule of the counter: each number is drawn once.
pub struct EachOnce;

impl TableRule<(), View, Bounds> for EachOnce {
    ghost use Rattle.kb_draw.specs.Counter.{Counts, owner};

    ghost holds = { Counts };

    ghost first = { owner };
}

/// A place draws the number that the counter shows.
pub struct Draws;

impl Play<(), View> for Draws {
    ghost use Rattle.kb_draw.specs.Counter.{draws};

    ghost then = { draws };
}

/// A new seat is split off.
pub struct SplitOff;

impl Split<View> for SplitOff {
    ghost use Rattle.kb_draw.specs.Counter.{with_one_split_less, newcomer};

    ghost left = { with_one_split_less };

    ghost right = { λ v. newcomer v.first };
}

/// A place takes in another.
pub struct TakeIn;

impl Join<View> for TakeIn {
    ghost use Rattle.kb_draw.specs.Counter.{both, spent};

    ghost both = { both };

    ghost spent = { spent };
}

/// The counter.
pub type Counter = Table<(), View, Bounds, EachOnce, Global>;

/// A place at the counter, from which a thread draws. It has no bytes.
pub type Place = atomic_table::Seat<(), View>;
