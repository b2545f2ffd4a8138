//! What a completion does with its book: settling, and passes over versions of it.
//!
//! A completion goes by passes. A book is settled: lines are made of its pending pairs until there
//! is none. Then overlaps of two live lines are sifted: where the words of its critical pair have
//! different normal forms by the live rules, an overlap is apart. Such overlaps are entered into the book, and are
//! pending from then on.
//!
//! # Settling
//!
//! - [`settle`] makes lines of the pending pairs until nothing is pending, or a limit is reached
//!   (`Settles` and `SettleSays` of `specs/Settling.antt`). The book keeps its problem and its
//!   lines, and nothing is published meanwhile.
//! - [`line_made`] is what follows on each line that is made: other lines are simplified by it. A [`Finder`] finds at
//!   least all of them, where it knows the book (`Knows` of `specs/Finding.antt`). One finder serves a book as long
//!   as it lives, so that each line is met once.
//! - Where the finder's [`Inverses`] were told to, `line_made` balances the new line: at most two overlaps become the
//!   first pending pairs (`BalancesAtMost` of `specs/Balancing.antt`). Those of a new finder weren't told to.
//! - Both keep the live rules interreduced (`StaysReduced` of `specs/Interreduced.antt`): where no live left side has
//!   another one as a factor, none has afterwards; where no live right side is reducible, none is afterwards, unless
//!   the log is full, with as many lines as it may have. A halt at the length of a word excuses nothing.
//! - A [`Watch`] sees the book after each line that is made of a pending pair, to show progress.
//! - [`book_is_sound`] brings what holds of every book.
//!
//! After a line is made of a pending pair, each other line whose left side has the new one as a
//! factor is taken away, and each line whose right side it reduces is replaced (Holt, Eick, O'Brien,
//! Handbook of Computational Group Theory, 12.2). Most lines that a new one doesn't concern are told
//! by their `signature`s, without a look at their words: a word has all bits of its factors
//! (`specs/Signatures.antt`). That settling ends rests on the limit of lines (`work` of `specs/Work.antt` falls).
//!
//! Balancing serves completions of groups. Where the left side of a new rule xu -> r is longer than its right side by
//! two letters or more, a letter is to change sides: the overlap with a rule of inverses Xx -> 1 has the critical pair of
//! u and Xr, and there is such an overlap at the other end too. Knuth-Bendix completion would come to these overlaps in
//! some later pass; balancing looks at them next, and lines that come of them are balanced in turn, until the two sides
//! of the equation are about equally long. So short rules come early, and take long ones away. Nothing is promised of
//! which overlaps these are: where a rule of inverses isn't known, or isn't live any more, there is none.
//!
//! # Sifting
//!
//! - A [`Version`] is what a worker sifts by: the live lines of a book as they were published, and the reducer by their
//!   rules. It borrows the book, so that nothing is copied, and nothing changes as long as it is there.
//! - [`apart_in_row`] sifts all overlaps in which one line begins first, by one `kb_overlap::PairWorkspace`.
//! - [`OneByOne`] makes a pass by one worker. It enters exactly the overlaps that are apart, in the
//!   order of their lines and places (`EntersAllApart` of `specs/Passes.antt`), and tells how many there were.
//! - A [`Sieve`] has a version's prime overlaps, and sifts them row by row: it finds exactly those that are apart, with
//!   the letters of their normal forms counted (`SiftsRow` of `specs/Primes.antt`), of all or of those of which one line
//!   is new.
//! - [`Waiting`] has what was found and not entered yet. [`next_batch`] takes the shortest of it that are apart still,
//!   and [`enter_all`] enters overlaps.
//!
//! Where nothing is apart, the live rules are confluent: by [`OneByOne::enter_apart`] of all overlaps, and by
//! [`prime_overlaps_decide`] of the prime ones, since composite overlaps need no look.
//!
//! Otherwise all that a completion rests on is that a pass keeps the book's problem and its lines (`IsLater`
//! of `specs/Later.antt`). Which overlaps a pass enters, and in which order, matters for speed alone.
//!
//! `specs/Versions.antt` has the versions, and `specs/Passes.antt` what a worker enters.
//!
//! Below are `kb_index`, whose automaton serves for reducing and for overlaps, `kb_overlap`, which finds all overlaps
//! of a left side with others and tells whether they are joined, and `kb_book`.
#![tactic(auto)]

mod balancing;
mod batch;
mod deciding;
mod entering;
mod finding;
mod found;
mod live;
mod one_by_one;
mod row;
mod settled;
mod settling;
mod sieve;
mod signature;
mod simplifying;
mod sound;
mod version;
mod waiting;
mod watch;

pub use balancing::Inverses;
pub use batch::next_batch;
pub use deciding::prime_overlaps_decide;
pub use entering::enter_all;
pub use finding::Finder;
pub use found::{Apart, Found};
pub use live::live_rules;
pub use one_by_one::OneByOne;
pub use row::apart_in_row;
pub use settled::Settled;
pub use settling::{line_made, settle, settle_part};
pub use sieve::{Sieve, SieveSpace};
pub use sound::book_is_sound;
pub use version::Version;
pub use waiting::Waiting;
pub use watch::{Silent, Watch};
