//! The least text that a nondeterministic automaton accepts.
//!
//! The public contract: `least_text` returns the least text, in the shortlex order, that leads to
//! acceptance in some way, or `None` exactly where no text does. There is no limit: the automaton
//! is not made deterministic.
//!
//! # How it is found
//!
//! States are put into classes. The first class has the initial states, and its word is the empty
//! one. The classes are followed in their order: the moves (transitions) of a class's states are
//! sorted by symbols, and for each symbol the states to which they lead, without those that are in
//! a class already, are the next class, where there are any. Its word is that of the class with the
//! symbol, and its origin is kept: the number of the class that was followed, and the symbol. So
//! the words of the classes ascend, and the word of a state's class is the least text that leads to
//! the state. At the first class with a state that accepts, its word is read off the origins,
//! backwards.
//!
//! Each state is in one class and each move is looked at once, so that the time grows with the
//! states and the moves, up to sorting, where the subset construction may take exponential time; no
//! clause says so.
//!
//! Below are `kb_explore`, whose `text_to` reads the origins, and `kb_fsadet`, whose nondeterministic
//! automata these are.
//!
//! # Where the proofs are
//!
//! - `Marks`: which states have a mark, and that each new one takes a mark from those that are
//!   still to be made, so that there are no more classes than states.
//! - `Texts`: texts with a symbol more at the end, in the shortlex order, and the origins that
//!   trace them.
//! - `Members`: classes with one more at the end.
//! - `Steps`: what becomes of the classes as one of them is followed.
//! - `Accepted`: what the classes that are followed say of all accepted texts.
#![tactic(auto)]

mod classes;
mod least;
mod unseen;

pub use least::least_text;
