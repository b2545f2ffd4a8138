//! Versions that one thread publishes and others read without a lock, never an older one than they have seen: values of
//! any kind, and the live lines of a book.
//!
//! # The public contract
//!
//! A version is a value that is published. Contracts know a version by its state: what `Absorb::state` of `left_right`
//! makes of it. A [`Publisher`] publishes versions one after another: [`Publisher::new`] the first one, and
//! [`Publisher::publish`] each later one, which is what the operations told by [`Publisher::append`] since make of the
//! one before. Contracts see a publisher as the states of the versions that it has published, and the operations that
//! are pending. The list of states only grows, and its last one is what readers are shown.
//!
//! Nothing is copied: there are two copies of the value from the beginning, with one state. Readers are shown one,
//! while the other takes the operations, and each operation is applied to both.
//!
//! A [`VersionReader`] goes to a thread that reads. [`VersionReader::look`] gives a [`Look`] at the version
//! that was published last; it takes no lock and waits for nobody. The list that the look shows begins with all
//! that the reader has seen, and ends in the state of the version that it looks at, so that is never an older
//! one. [`Look::leave`] gives the reader back, which has then seen that list. [`Publisher::tell`] makes a
//! reader one that has seen all that was published, so that what it sees from then on begins with that.
//!
//! A look may be refused. Then the reader is as it was, and its count of refusals goes up. Readers look through a
//! [`Glass`], a trait with what is seen, shown and refused. The glass of a publisher is [`RuledGlass`]; a test may
//! have one of its own.
//!
//! # Versions of a book
//!
//! A [`BookPublisher`] publishes the live lines of a book while the book goes on. [`BookPublisher::new`] publishes those
//! that it has, and [`BookPublisher::advance`] those that it has by then, under the next number (`Shows` of
//! `specs/Books.antt`): what changed since is told as a [`Change`] each, a line that is no longer live or one that
//! became so. A version is an [`Edition`]: the numbers of the lines, and a reducer by their rules. It lends itself as a
//! `kb_share::Version`, whose overlaps are sifted. The rules decrease along the order of the book, which is named by a
//! type ([`Ordered`]).
//!
//! # What is left open
//!
//! It is not proved that a look is given rather than refused, nor that the wait of `publish` and `close` ends. What
//! two readers of one publisher saw is not compared, nor what a reader had seen before it was told with what it is
//! told: that of two such lists one begins the other is known to the rule alone, and nothing but its list ties a reader
//! to a publisher.
//!
//! # How it is made
//!
//! What is shown lies in the two copies of `left_right`, under a rule over what is shown and what each thread
//! knows: `specs/Versions.antt` has the rule, and the steps that keep it, to publish and to look.
//! `proofs/Steps.antt` shows that they do, and that readers may come and be told. `specs/Publishing.antt` says what
//! publishing does, and `specs/Readers.antt` what was seen through a glass.
//!
//! The rule lets at most one thread publish. It knows by what is shown that none did before: a copy has a mark, whether
//! publishing has begun, beside the version. So what the copies are told is an operation, or that publishing begins
//! (`specs/Entries.antt`, `proofs/Entering.antt`). The latter is told once, when a publisher is made.
//!
//! A place at the table of `left_right` is known to be of a publisher's table until its first step only, and can be
//! told of versions only while it is known. So `tell` frees the reader's place and takes a fresh one. Where none is
//! free, which may happen where more readers are told than were made, the glass has a note of what was published
//! instead: it refuses each look until it is told again. `src/notes.rt` has the notes, which are for contracts alone.
//!
//! `specs/Editions.antt` has versions of a book and what changes from one to the next, and `proofs/Changing.antt` and
//! `proofs/Showing.antt` show that the changes lead to the live lines.
//!
//! Below are `kb_book` and `kb_share`.
#![tactic(auto)]

mod book_publisher;
mod change;
mod changes;
mod edition;
mod glass;
mod in_place;
mod notes;
mod publisher;
mod reader;
mod versions;

pub use book_publisher::{BookPublisher, EditionReader};
pub use change::{Change, LiveLine, Ordered};
pub use edition::{Edition, Lines};
pub use glass::{Glass, RuledGlass, RuledReading};
pub use publisher::Publisher;
pub use reader::{Look, VersionReader};
