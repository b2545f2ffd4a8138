//! Work that several threads share, each part done once.
//!
//! # The public contract
//!
//! A [`Crew`] is so many workers, from 1 to 64, and the gate that they pass. One works in the caller's thread;
//! several are a thread each, and come to the gate before each draw, where a test may hold them. Want of memory
//! is the one error of all that follows, and no answer depends on how many workers there are, nor on which of
//! them did what.
//!
//! - [`Work`] is work in parts, numbered from 0 on, which workers take into shares of their own, and
//!   [`share_out`] does it: there is a share for each worker, each share is sound, and each part is done in one
//!   of the shares. What that says of a share is what the work means by `sound` and `done`; what is done in a
//!   share stays done in it.
//! - A [`Search`] goes through places, each of which has something, or lacks what is searched: the search's own
//!   `has` and `lacks`. [`first_found`] answers what the first place has that has something, and `None` where
//!   all places lack it.
//! - A [`Making`] has places for each of which something can be made alone: what that has to be is the making's
//!   own `is`. [`make_all`] makes exactly one for each place, and returns them in the order of the places.
//!
//! Under these a [`Draw`] hands out the numbers from a first one up to an end. [`Draw::new`] makes it with a
//! fixed number of seats, 1 to 64. A [`Seat`] is a token that takes part in the draw; it goes to a thread, and
//! is never copied. [`Draw::next`] draws the next number by a seat, and answers `None` where that is the end or
//! more; from then on the seat is dry, and draws no more. `next` is one addition to a word of memory that all
//! threads share: it takes no memory and waits for nobody. [`Draw::close`] takes back all seats: no number was
//! drawn twice, and where the seats are dry each number from the first one up to the end was drawn.
//!
//! # How it is made
//!
//! The counter is a table of one word of `atomic_table`, under a rule that says what the word and
//! the seats' views can be: `specs/Counter.antt` has it as a relation with a constructor for each
//! kind of step, a number that is drawn, a seat that is split off and a seat that is joined to
//! another. `proofs/Counting.antt` shows what follows from it: the numbers in all views are those
//! from the first one up to the word, each once. `specs/Seats.antt` has the words of the contract of
//! draws, and `specs/Sharing.antt` those of `share_out`. `proofs/Sharing.antt` follows a worker from
//! one part that it draws to the next, and puts together what workers bring back
//! (`specs/Workers.antt`). The seats may draw numbers past the end, one each at most. So the counter never comes to the
//! end of its 64 bits.
//!
//! The places of a search and of a making are parts of work. A share of a search keeps the earliest place at
//! which it found something, and doesn't look at places after it: since the numbers are drawn in their order,
//! all that is left then lies after it, so that one worker looks no further, and the others end with the places
//! that they have in hand. The earliest find of the shares is the first (`specs/First.antt`,
//! `specs/Earliest.antt`, `proofs/Finding.antt`). A share of a making keeps what it made, each with its place;
//! at the end all of it is put into slots, one for each place, and since each place is done by one of the
//! workers, no slot is left empty (`specs/Made.antt`, `specs/Shares.antt`, `specs/Slots.antt`,
//! `proofs/Filling.antt`, `proofs/Order.antt`).
//!
//! Below are `kb_word`, for want of memory, and `kb_io`, for the gate.
#![tactic(auto)]

mod counter;
mod crew;
mod draw;
mod making;
mod making_share;
mod search;
mod search_share;
mod slots;
mod work;

pub use counter::Bounds;
pub use crew::Crew;
pub use draw::{Draw, Seat};
pub use making::{Making, make_all};
pub use search::{Search, first_found};
pub use work::{Work, share_out};
