//! Cascade products: an automaton with a machine that follows it.
//!
//! A follower has states of any kind. It moves with each symbol that an automaton, its leader, reads, and sees that
//! symbol and the leader's state (Ginzburg, Algebraic Theory of Automata). So it keeps along a text what the leader
//! doesn't tell: where another automaton stands, how two words of a pair compare, or whether some state was passed.
//! Both together accept a text where the follower says so of the states in which it leaves the two.
//!
//! The automaton of the texts that lead both to acceptance has the moves that the leader has from each of its states,
//! so that the time grows with these and with the states of the follower beside which the leader's come; no clause says
//! so. It has no limit, and neither has the search for the least such text.

mod follower;
mod led;
mod product;

pub(crate) use follower::Follower;
pub(crate) use product::{cascade_product, least_led};
