//! The book of a completion: its lines, which of them are live, and the pairs that are still to be looked at.
//!
//! # The public contract
//!
//! A [`Book`] is a completion: its problem (an order, relations and limits), its state and its journal, the list of
//! events that led there. Each call is exactly one event of the completion machine (`kb_machine`), which is then in the
//! journal, or an answer without event that says why there is none (`specs/Answers.antt`); after want of memory the
//! book is as it was. So whoever calls, in whatever order, a book is a course of that machine, and by
//! `kb_machine::courses_are_sound` that says all that matters.
//!
//! - `Book::new` begins a completion, with all relations pending.
//! - `make` makes a line of the first pending pair, or drops the pair, or halts at a limit.
//! - `enter` makes an overlap pending that a worker found; `reserve` makes room for overlaps beforehand.
//! - `balance` makes an overlap the first pending pair, by which a new line is balanced.
//! - `kill` takes a line away whose left side has another live one as a factor.
//! - `shorten` replaces a line whose right side the other live rules reduce.
//! - `publish` publishes the live lines as a version; `reserve_publish` makes room for that beforehand.
//!
//! `tidy` makes the reducer ready for much reading. Like the calls that make room it is no event. [`Versions`] tell the
//! live numbers of each version.
//!
//! # Inside
//!
//! - `book` is the type with its readers and `tidy`; `starting`, `making`, `entering`, `killing`, `shortening` and
//!   `publishing` are its calls; `limits` and `answers` are the types around it.
//! - `versions` knows which lines each version has. It takes less memory than the lines, however many versions there
//!   are: of each line it has how many versions were published before the line was made, and before it went.
//! - `pairs` finds the pair of words that an origin names; `steps` turns reductions by the live rules into
//!   derivations by the numbers of lines; `numbers` finds lines by their numbers.
//! - `room` takes memory before anything changes; `copies` copies halts and rules.
//!
//! In specs/, `Books` says what a book is seen as and what it keeps, and `Answers` what its calls answer;
//! `Lives` says which versions have which lines; `Normal`, `Factors` and `Shorter` say when a line may be made,
//! taken away and replaced; `Problems` says what is completed of a presentation, and `Limited` which limits
//! there are. In proofs/, `Courses` has what is kept along every course, by which the other lemmas know that
//! lines decrease and that live numbers ascend; `Lives` has what becomes of the versions' lines where a line is
//! made, where one goes, and where a version is published.
//!
//! Below are `kb_rules`, whose `Reducer` computes normal forms by the live rules, `kb_overlap`, which knows
//! overlaps and their pairs, and `kb_machine`.
#![tactic(auto)]

mod answers;
mod book;
mod copies;
mod entering;
mod killing;
mod limits;
mod making;
mod numbers;
mod pairs;
mod publishing;
mod room;
mod shortening;
mod starting;
mod steps;
mod versions;

pub use answers::{Balance, EnterFault, Kill, Make, Shorten};
pub use book::Book;
pub use limits::Limits;
pub use versions::Versions;
