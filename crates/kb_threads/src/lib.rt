//! Workers that are threads: settling a book, and passes over it.
//!
//! # The public contract
//!
//! - [`make_pass`] makes a pass by the workers of a `kb_draw::Crew`: one, who needs no thread
//!   (`kb_share::OneByOne`), or more ([`Threads`]). What [`Passed`] says of a pass (`PassSays` of
//!   `specs/Passes.antt`): overlaps that are apart by the live rules were entered, at least one, and nothing else happened
//!   to the book given; or none is apart, the live rules are confluent, and the book is as it was.
//! - [`Shared`] is a book under a lock, with a batch of overlaps to enter, whose workers hold a [`Pass`] each. Where there
//!   is no memory for the passes, [`Shared::new`] gives the book back. [`Shared::enter`] enters the next overlap of the
//!   batch, and says so only where it did: the pass counts it. [`Shared::finish`] takes all passes back: the book is the
//!   one that was given, with the batch entered in its order, and nothing else happened.
//!
//! - [`settle_by`] settles a book by a crew. What it says of the book is what `kb_share::settle` says (`SettlesAs` of
//!   `specs/Settling.antt`), over every interleaving.
//!
//! # How a book is settled
//!
//! One worker makes lines. Where it makes more than a part, it publishes the live ones part by part
//! (`kb_publish::BookPublisher`), and hands out the rows of what was published at a desk (`desk`). The others take rows
//! there, look at the version without a lock, and sift them (`sweeper`), while the next part is settled; who settles
//! sweeps what is left, and then publishes that part (`settling`). So each row is sifted by the version that has it, and
//! what is found doesn't depend on who is first. What is apart waits, and nothing is promised of it.
//!
//! # How a pass goes
//!
//! The version that stands when the pass begins stands for all of it. Its rows are work that is shared out
//! (`kb_draw`): each worker draws rows from one counter and sifts their prime overlaps of which one line came since the
//! last pass (`sweeping`). What is apart waits, with the number of letters of its two normal forms. So each overlap is
//! sifted once, when the later of its lines is new. The owner then takes a batch of the shortest that wait and are apart
//! still (`kb_share::next_batch`), and the workers enter it under the lock, each the next one of the batch whenever it
//! gets the lock (`entering`).
//!
//! Where nothing waits that is apart, all prime overlaps of the version are sifted. If none of them is apart, that is the
//! proof of confluence: each row was done by one of the workers; composite overlaps need no look. Nothing is promised
//! of what waits, and nothing need be.
//!
//! Which overlaps are entered, and in which order, depends neither on the number of workers from two on nor on how they
//! interleave: what is found is added up, and the batch is entered in its order. Which worker enters which is left open.
//!
//! # What is shared
//!
//! The version is borrowed from the book, which nobody changes while its rows are sifted. What lies under the lock is
//! a `kb_book::Book`, so that all that holds along every course of the completion machine holds whenever the lock is
//! got, whatever the threads did and in whatever order. That it is the book which was given, with the first overlaps of
//! the batch entered, stands on the type under the lock, which is named after book and batch (`Sharing`). Entries are
//! counted by a ledger, of which each pass holds a part.
//!
//! `specs/Shared.antt` has what lies under the lock.
//!
//! Below are `kb_book`, `kb_share` and `kb_draw`.
#![tactic(auto)]

mod alone;
mod beside;
mod desk;
mod entering;
mod locked;
mod pass;
mod passed;
mod passes;
mod settling;
mod shared;
mod sharing;
mod sweeper;
mod sweeping;
mod threads;

pub use pass::Pass;
pub use passed::Passed;
pub use passes::make_pass;
pub use settling::settle_by;
pub use shared::Shared;
pub use sharing::Sharing;
pub use threads::Threads;
