//! Exploration: from a machine with states of any kind to a table of numbered states.
//!
//! Products, subsets and quotients of automata are machines: each has an initial state, moves (transitions) from a
//! state, and a test which states accept. The public contract is that of `explore`: its table has exactly
//! the states that texts lead to, each once, numbered breadth first, and so in the shortlex order of the least
//! texts that lead to them; and it answers `TooManyStates` exactly where there are more than the limit. `text_to`
//! returns the least text that leads to a state of it. [`Exploration::answered_by`] gives the table of another machine
//! that moves alike, without exploring it again.
//!
//! Where only the least accepted text is wanted, `first_accepted` numbers the states in the same
//! order, asks of each as soon as it is numbered whether it accepts, and stops at the first that
//! does. No row is kept, and only the states of the texts up to that one count for the limit.
//!
//! Below is `kb_fsa`. The operations on automata are machines.
//!
//! # Where the proofs are
//!
//! - `Starting`, `ExplorationSteps` and `Finishing`: the start, the steps and the end of an exploration.
//! - `Inserting`: what inserting into the set of states tells of a state's number.
//! - `Rows`: rows by numbers beside the moves of a machine.
//! - `Leading` and `CountingLemmas`: texts that lead to different states, and how many states they lead to.
//! - `Continuations`: texts with a symbol more at the end, in the shortlex order.
//! - `Traces`: following the origins back from a state.
//! - `Reached`: where texts lead that are less than the one by which a state is seen.
//! - `Searches`: the start, the steps and the end of a search for the least accepted text.
//! - `OtherAnswers`: the exploration of a machine that moves alike and answers otherwise.
//! - `ExplorationLemmas`: what an exploration tells of its machine, for the crates above.
//! - `Lists`: lists with an item more at the end.
#![tactic(auto)]

mod acceptance;
mod answering;
mod det;
mod exploration;
mod machine;
mod seen;

pub use acceptance::first_accepted;
pub use det::Det;
pub use exploration::{Exploration, explore, text_to};
pub use machine::Machine;
